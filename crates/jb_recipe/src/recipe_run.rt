//! A recipe run with its lines said.
ghost use Rattle.std.specs.Prelude.{◌≡◌, ◌<◌, [], IfOk, IfErr, IfSome, OnErr, option_copied, vec_len};
ghost use Rattle.st_records.specs.declared.record.Record.TheVariants as records;
ghost use Rattle.bd_lists.specs.Running.{FailsInRange};
ghost use Rattle.jb_recipe.specs.Environment.{NamesReport};
ghost use Rattle.jb_recipe.specs.Failing.{IsTold};
ghost use Rattle.jb_recipe.specs.Running.{RanUnder};

use crate::failing::{failed_line, lines_told};
use crate::{FailedLine, Place, Say, Step};
use bd_flusher::Receipt;
use bd_lists::{Clearance, Ended, Exec, ExecFault, Recipe, Spent, Variable};
use byte_strings::ByteString;
use jb_slots::Slot;
use mk_recipe::Line;
use std::alloc::Global;

/// A recipe that was run: how each of its lines ended, and what the board takes the end of the recipe with.
pub struct Ran {
    pub ended: Vec<Ended>,
    pub spent: Spent<Receipt>,
    /// The line that failed, where that is told.
    pub failed: Option<FailedLine>,
}

/// Says each line of the target's recipe that is printed, and then runs it. Each is a step of the run.
#[derive(Drop)]
pub struct Spoken<'a, E, S> {
    pub exec: &'a E,
    pub say: &'a S,
    pub target: &'a [u8],
    /// It is told which line failed.
    pub tells_failed: bool,
    /// The target's file goes if the run is stopped from outside meanwhile.
    pub goes: bool,
}

impl<T, E: Exec<T>, S: Say> Exec<T> for Spoken<'_, E, S> {
    ghost answers = { λ spoken. E.answers spoken.exec.now };

    fn run(
        &self,
        clearance: &Clearance<T>,
        line: &Line,
        env: &[Variable],
    ) -> Result<Ended, ExecFault> {
        self.say.step(Step::Runs(line.text.as_slice()));
        if line.is_printed {
            self.say.line(line.text.as_slice());
        }
        self.exec.run(clearance, line, env)
    }
}

/// Runs a recipe under the clearance of its target's 'begun', each line said before it is run. No line is run beside a report of an
/// earlier run: the place has to have removed the file that the recipe's environment names. The slot is held by whoever calls this.
/// The growth that it can't do without comes first: where that is refused nothing was run, and the clearance comes back. Where there is
/// no room for what is told of a line that fails, nothing is told of it.
pub fn run_recipe<E: Exec<Receipt>, S: Say, P: Place>(
    alloc: Global,
    clearance: Clearance<Receipt>,
    recipe: Recipe,
    report: Option<&ByteString>,
    place: &P,
    _slot: &Slot<'_>,
    spoken: &Spoken<'_, E, S>,
) -> Result<Ran, Clearance<Receipt>>
    requires own { clearance.told.noted ≡ records.Begun recipe.target }
    requires named { IfSome (option_copied report) (NamesReport recipe.target recipe.env.items) }
    requires gone { IfSome (option_copied report) (P.gone place.now) }
    ensures ran { IfOk result (λ r. RanUnder (E.answers spoken.now.exec.now recipe.env.items) clearance.told recipe r) }
    ensures status { IfOk result (λ r. FailsInRange r.spent.outcome) }
    ensures failed { IfOk result (λ r. IsTold r.spent.outcome recipe.lines.items r.ended.items r.failed) }
    ensures back { IfErr result (λ c. c ≡ clearance) }
    ensures memory { OnErr result (0 < vec_len recipe.lines) }
{
    let Ok(mut ended) = Vec::with_capacity(alloc, recipe.lines.len()) else {
        return Err(clearance);
    };
    let told = lines_told(alloc, spoken.tells_failed, &recipe.lines);
    spoken.say.step(Step::Begins(spoken.target));
    place.begins(spoken.target, spoken.goes);
    let spent = clearance.run(alloc, recipe, spoken, &mut ended);
    place.ends();
    let outcome = spent.outcome();
    spoken.say.step(Step::Ends(spoken.target, outcome));
    let failed = failed_line(told, &ended, outcome);
    Ok(Ran {
        ended,
        spent,
        failed,
    })
}

/// Runs nothing.
#[derive(Drop)]
struct Nothing;

impl Exec<Receipt> for Nothing {
    ghost answers = { λ nothing env line answer. Unit {0} };

    fn run(
        &self,
        _clearance: &Clearance<Receipt>,
        _line: &Line,
        _env: &[Variable],
    ) -> Result<Ended, ExecFault> {
        Err(ExecFault)
    }
}

/// Spends the clearance of a recipe without running a line of it: its target is to end as failed.
pub fn leave_recipe(alloc: Global, clearance: Clearance<Receipt>, recipe: Recipe) -> Spent<Receipt>
    requires own { clearance.told.noted ≡ records.Begun recipe.target }
    ensures told { result.told ≡ clearance.told }
    ensures lines { result.recipe.lines.items ≡ [] }
{
    let mut none = recipe;
    none.lines = Vec::new(alloc);
    clearance.run(alloc, none, &Nothing, &mut Vec::new(alloc))
}
