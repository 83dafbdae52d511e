//! Clearances that are yet to be spent.
ghost use Rattle.std.specs.Prelude.{◌≡◌, ◌+◌, ◌≤◌, vec_len, vec_capacity};
ghost use Rattle.st_records.specs.declared.record.Record.TheVariants as record_of;

use crate::desk::Run;
use crate::note::Note;
use crate::script::Script;
use bd_links::Node;
use bd_lists::{Clearance, Ended, Recipe, Told};
use byte_strings::ByteString;
use mk_recipe::{Line, Outcome};
use std::alloc::{AllocError, Global};
use std::cell::Cell;

/// The clearance of a node, which its 'begun' with this target has.
pub struct Cleared {
    pub node: Node,
    pub clearance: Clearance<Note>,
    pub target: ByteString,
    pub ghost own: { clearance.told.noted ≡ record_of.Begun target },
}

impl Drop for Cleared {
    fn drop(self) {
        let _ticket = self.give_up();
    }
}

impl Cleared {
    /// Gives the clearance up. The number of the receipt's ticket.
    pub fn give_up(self) -> usize {
        let Cleared {
            node: _,
            clearance,
            target: _,
        } = self;
        clearance.give_up().ticket().number()
    }

    /// Runs these lines, and writes what came of it.
    pub fn run(
        self,
        alloc: Global,
        lines: Vec<Line>,
        ignore: bool,
        out: &mut String,
    ) -> Result<Run<Note>, AllocError> {
        let mut ended = Vec::with_capacity(alloc, lines.len())?;
        let script = Script {
            alloc,
            asked: Cell::new(0),
        };
        let run = self.spend(lines, ignore, &script, &mut ended);
        write_run(run.spent.outcome(), &ended, script.asked.get(), out)?;
        Ok(run)
    }

    fn spend(
        self,
        lines: Vec<Line>,
        ignore: bool,
        script: &Script,
        ended: &mut Vec<Ended>,
    ) -> Run<Note>
        requires room { vec_len ended.old + vec_len lines ≤ vec_capacity ended.old }
    {
        let Cleared {
            node,
            clearance,
            target,
        } = self;
        let recipe = Recipe {
            target,
            lines,
            env: Vec::new(script.alloc),
            ignore,
        };
        let spent = clearance.run(script.alloc, recipe, script, ended);
        Run { node, spent }
    }
}

/// What a recipe came to, the statuses that it told, and how often it asked.
fn write_run(
    outcome: Outcome,
    ended: &[Ended],
    asked: usize,
    out: &mut String,
) -> Result<(), AllocError> {
    write_outcome(outcome, out)?;
    write_statuses(ended, out)?;
    write!(out, ", asked {asked}")
}

fn write_outcome(outcome: Outcome, out: &mut String) -> Result<(), AllocError> {
    match outcome {
        Outcome::Done => out.push_str("done:"),
        Outcome::Failed(status) => write!(out, "failed {status}:"),
    }
}

fn write_statuses(ended: &[Ended], out: &mut String) -> Result<(), AllocError> {
    for ended in ended {
        write!(out, " {}", ended.status)?;
    }
    Ok(())
}
