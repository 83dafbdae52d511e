//! The right to run a recipe, and what is left of it once it has run.

ghost use Rattle.std.specs.Prelude.{◌≡◌, ◌↔◌, ◌+◌, ◌≤◌, IsTrue, vec_len, vec_capacity};
ghost use Rattle.mk_recipe.specs.Outcome.{Passes};
ghost use Rattle.st_records.specs.declared.record.Record.TheVariants as record_of;
ghost use Rattle.bd_lists.specs.Running.{RanTo, IsAnswer, FailsInRange};

use crate::exec::{Ended, Exec};
use crate::recipe::{Recipe, Variable};
use crate::told::Told;
use byte_strings::ByteString;
use mk_recipe::{Line, Outcome};
use std::alloc::Global;

/// The right to run the recipe of one target: its 'begun' was written. It can't be copied or let go: it is spent by `run`
/// or `give_up`.
pub struct Clearance<T> {
    pub(super) told: T,
}

/// A recipe that was run, with the receipt of its 'begun'. It can't be copied or let go: a board takes it with the record
/// of the recipe's end.
pub struct Spent<T> {
    pub(super) told: T,
    pub(super) recipe: Recipe,
    pub(super) outcome: Outcome,
}

/// Whether the recipe goes on behind a line that ended with this status.
fn passes(line: &Line, status: u32, ignore: bool) -> bool
    ensures { IsTrue result ↔ Passes ignore (record { status = status; is_ignored = line.now.is_ignored }) }
{
    status == 0 || line.is_ignored || ignore
}

impl<T: Told> Clearance<T> {
    /// How a line ended; one that couldn't be run ends with status 256 and no output.
    fn run_line<E: Exec<T>>(&self, alloc: Global, line: &Line, env: &[Variable], exec: &E) -> Ended
        ensures answer { IsAnswer (E.answers exec.now env.now line.now) result }
        ensures status { result.status ≤ 256 }
    {
        match exec.run(self, line, env) {
            Ok(ended) => ended,
            Err(_) => Ended {
                status: 256,
                out: ByteString::new(Vec::new(alloc)),
                err: ByteString::new(Vec::new(alloc)),
            },
        }
    }

    fn run_lines<E: Exec<T>>(
        &self,
        alloc: Global,
        recipe: &Recipe,
        exec: &E,
        ended: &mut Vec<Ended>,
    ) -> Outcome
        requires { vec_len ended.old + vec_len recipe.now.lines ≤ vec_capacity ended.old }
        ensures ran { RanTo (E.answers exec.now recipe.now.env.items) recipe.now.ignore recipe.now.lines.items ended.old.items ended.new.items result }
        ensures status { FailsInRange result }
    {
        for line in &recipe.lines {
            if line.is_blank() {
                continue;
            }
            let answer = self.run_line(alloc, line, &recipe.env, exec);
            let status = answer.status;
            ended.push(answer).unwrap();
            if !passes(line, status, recipe.ignore) {
                return Outcome::Failed(status);
            }
        }
        Outcome::Done
    }

    /// Runs the lines of a recipe that aren't blank, in order, while each status is 0 or ignored. What they answered goes
    /// to the vector.
    pub fn run<E: Exec<T>>(
        self,
        alloc: Global,
        recipe: Recipe,
        exec: &E,
        ended: &mut Vec<Ended>,
    ) -> Spent<T>
        requires own { T.noted_of self.told ≡ record_of.Begun recipe.target }
        requires room { vec_len ended.old + vec_len recipe.lines ≤ vec_capacity ended.old }
        ensures told { result.told ≡ self.told }
        ensures recipe { result.recipe ≡ recipe }
        ensures ran { RanTo (E.answers exec.now recipe.env.items) recipe.ignore recipe.lines.items ended.old.items ended.new.items result.outcome }
        ensures status { FailsInRange result.outcome }
    {
        let outcome = self.run_lines(alloc, &recipe, exec, ended);
        let Clearance { told } = self;
        Spent {
            told,
            recipe,
            outcome,
        }
    }

    /// The receipt again, with no recipe run: the target can only be abandoned then.
    pub fn give_up(self) -> T
        ensures { result ≡ self.told }
    {
        let Clearance { told } = self;
        told
    }
}

impl<T> Spent<T> {
    /// What the recipe came to.
    pub fn outcome(&self) -> Outcome
        ensures { result ≡ self.now.outcome }
    {
        self.outcome
    }

    /// The receipt again: the target can only be abandoned then.
    pub fn give_up(self) -> T
        ensures { result ≡ self.told }
    {
        let Spent {
            told,
            recipe: _,
            outcome: _,
        } = self;
        told
    }
}
