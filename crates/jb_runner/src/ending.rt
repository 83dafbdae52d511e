//! A target's recipe: its 'begun', the run, its 'done' or 'failed'.
ghost use Rattle.std.specs.Prelude.{◌≡◌, IfOk, IfSome};
ghost use Rattle.st_records.specs.Limits.{IsGoodIn};
ghost use Rattle.st_records.specs.declared.record.Record.TheVariants as records;
ghost use Rattle.bd_lists.specs.Running.{FailsInRange};
ghost use Rattle.jb_recipe.specs.Environment.{NamesReport};

use crate::beginning::Begun;
use crate::bench::{Bench, complain};
use crate::earlier::EndedBefore;
use crate::failing::{Over, say_block, tell_end};
use crate::making::say_lines;
use crate::pending::Pending;
use crate::shift::Shift;
use bd_flusher::Receipt;
use bd_links::Node;
use bd_lists::{Clearance, Exec, Recipe, Spent};
use byte_strings::ByteStrings;
use jb_closing::RunFault;
use jb_recipe::{
    EndNote, FailedLine, Last, News, Place, PlaceFault, Plan, Ran, Say, Spoken, leave_recipe,
    run_recipe,
};
use jb_slots::Bank;
use mk_nodes::Graph;
use mk_plan::Telling;
use st_disk::Disk;
use st_records::Record;
use std::alloc::Global;
use std::sync::Wait;

/// A recipe that the 'begun' of its target clears, and what the record of its end will say.
pub(crate) struct Cleared {
    pub(crate) clearance: Clearance<Receipt>,
    pub(crate) recipe: Recipe,
    pub(crate) note: EndNote,
}

impl Cleared {
    // The receipt again, with no recipe run: the target can only be abandoned then.
    pub(crate) fn give_up(self) -> Receipt
        ensures { result ≡ self.clearance.told }
    {
        let Self {
            clearance,
            recipe,
            note,
        } = self;
        drop(recipe);
        drop(note);
        clearance.give_up()
    }
}

fn failed_status(note: &Record) -> Option<u32> {
    match note {
        Record::Failed { status, .. } => Some(*status),
        _ => None,
    }
}

// Says that the recipe was to report what it read, and didn't, where that is so.
fn tell_unreported<S: Say>(say: &S, graph: &Graph, node: Node, unreported: bool) {
    let number = node.number();
    if unreported && number < graph.names.len() {
        let target = graph.names.name(number);
        say.tell(News::Unreported { target });
    }
}

// Says which files the recipe was to write what it read into, and didn't, where so much is told.
fn tell_unwritten<S: Say>(
    say: &S,
    graph: &Graph,
    node: Node,
    telling: Telling,
    unwritten: Option<&ByteStrings>,
) {
    let number = node.number();
    let Some(paths) = unwritten else {
        return;
    };
    if matches!(telling, Telling::Nothing) || number >= graph.names.len() {
        return;
    }
    let target = graph.names.name(number);
    for path in paths {
        say.tell(News::Unwritten { target, path });
    }
}

impl<D: Disk + Drop, E: Exec<Receipt>, S: Say, P: Place> Bench<'_, D, E, S, P> {
    // Runs a recipe with a job slot. The slot goes back in every case.
    fn run_with_slot<R: Wait, B: Bank>(
        &self,
        rt: &R,
        alloc: Global,
        clearance: Clearance<Receipt>,
        recipe: Recipe,
        note: &EndNote,
        bank: &mut B,
    ) -> Result<Ran, Clearance<Receipt>>
        requires own { clearance.told.noted ≡ records.Begun recipe.target }
        requires named { IfSome note.now.report (NamesReport recipe.target recipe.env.items) }
        requires gone { IfSome note.now.report (P.gone self.now.place.now) }
        ensures status { IfOk result (λ r. FailsInRange r.spent.outcome) }
    {
        let spoken = Spoken {
            exec: self.exec,
            say: self.say,
            target: note.target(),
            tells_failed: self.graph.macros.profile().is_wide(),
            goes: self
                .graph
                .removes_if_stopped(note.target(), note.report().is_some()),
        };
        let slot = self.slots.acquire(rt, bank);
        let ran = run_recipe(
            alloc,
            clearance,
            recipe,
            note.report(),
            self.place,
            &slot,
            &spoken,
        );
        let _ = self.slots.release(rt, slot, bank);
        ran
    }

    /// Makes a target, up to its end: that is pending then.
    pub(crate) fn build_planned<R: Wait, B: Bank>(
        &self,
        rt: &R,
        alloc: Global,
        node: Node,
        plan: Plan,
        bank: &mut B,
        shift: &mut Shift,
    ) -> Result<(), RunFault>
        requires { plan.form ≡ self.now.clerk.desk.conduct.now.form }
    {
        let (begun, recipe, note, told) = plan.apart(alloc)?;
        match self.clerk.begin(rt, alloc, node, begun, shift) {
            Ok(Begun::Cleared(clearance)) => {
                say_lines(self.say, &told);
                let cleared = Cleared {
                    clearance,
                    recipe,
                    note,
                };
                self.build_in_turn(rt, alloc, node, cleared, bank, shift)
            }
            Ok(Begun::Refused) => {
                drop(recipe);
                drop(note);
                self.not_recorded(rt, node, None, shift);
                Ok(())
            }
            Err(fault) => {
                drop(recipe);
                drop(note);
                Err(fault)
            }
        }
    }

    // No line of the recipe is run beside a report of an earlier run, nor before what goes into the target was looked at.
    pub(crate) fn build_cleared<R: Wait, B: Bank>(
        &self,
        rt: &R,
        alloc: Global,
        node: Node,
        cleared: Cleared,
        bank: &mut B,
        shift: &mut Shift,
    ) -> Result<(), RunFault>
        requires form { cleared.note.form ≡ self.now.clerk.desk.conduct.now.form }
        requires own { cleared.clearance.told.noted ≡ records.Begun cleared.recipe.target }
        requires target { cleared.note.target ≡ cleared.recipe.target }
        requires named { IfSome cleared.note.report (NamesReport cleared.recipe.target cleared.recipe.env.items) }
    {
        let Cleared {
            clearance,
            recipe,
            mut note,
        } = cleared;
        let ended = self.ended_before(rt);
        match note.before_run(alloc, &clearance, self.place, &ended) {
            Ok(()) => {
                let ran = self.run_with_slot(rt, alloc, clearance, recipe, &note, bank);
                if complain(rt, self.say, self.complained, bank) {
                    shift.worsen(2);
                }
                self.end_run(rt, alloc, node, ran, note, &ended, shift)
            }
            Err(PlaceFault::Device(error)) => {
                let spent = leave_recipe(alloc, clearance, recipe);
                self.write_end(rt, alloc, node, note.left(error), None, spent, shift)
            }
            Err(PlaceFault::OutOfMemory) => {
                drop(recipe);
                drop(note);
                shift.keep(clearance.give_up());
                Err(RunFault::OutOfMemory)
            }
        }
    }

    // The end of a recipe that was run, or given up for want of memory.
    fn end_run<R: Wait>(
        &self,
        rt: &R,
        alloc: Global,
        node: Node,
        ran: Result<Ran, Clearance<Receipt>>,
        note: EndNote,
        ended: &EndedBefore<'_, R>,
        shift: &mut Shift,
    ) -> Result<(), RunFault>
        requires status { IfOk ran (λ r. FailsInRange r.spent.outcome) }
        requires form { note.form ≡ self.now.clerk.desk.conduct.now.form }
    {
        match ran {
            Ok(ran) => self.end(rt, alloc, node, ran, note, ended, shift),
            Err(clearance) => {
                drop(note);
                shift.keep(clearance.give_up());
                Err(RunFault::OutOfMemory)
            }
        }
    }

    // What the lines wrote is said, the report read, the target's file synced; then the end of the recipe is written.
    fn end<R: Wait>(
        &self,
        rt: &R,
        alloc: Global,
        node: Node,
        ran: Ran,
        note: EndNote,
        ended: &EndedBefore<'_, R>,
        shift: &mut Shift,
    ) -> Result<(), RunFault>
        requires status { FailsInRange ran.spent.outcome }
        requires form { note.form ≡ self.now.clerk.desk.conduct.now.form }
    {
        let (spent, failed) = say_block(self.say, ran);
        let outcome = spent.outcome();
        match note.last_record(alloc, self.key, self.place, ended, outcome) {
            Ok(last) => {
                self.note_ended(rt, node, last.is_same);
                self.write_end(rt, alloc, node, last, failed, spent, shift)
            }
            Err(_) => {
                drop(failed);
                shift.keep(spent.give_up());
                Err(RunFault::OutOfMemory)
            }
        }
    }

    // The end of a recipe is written, where its record may stand in the state.
    fn write_end<R: Wait>(
        &self,
        rt: &R,
        alloc: Global,
        node: Node,
        last: Last,
        line: Option<FailedLine>,
        spent: Spent<Receipt>,
        shift: &mut Shift,
    ) -> Result<(), RunFault>
        requires { IfSome last.record (λ note. IsGoodIn self.now.clerk.desk.conduct.now.form note) }
    {
        let Last {
            record,
            not_done,
            unreported,
            unwritten,
            is_same: _,
        } = last;
        tell_unreported(self.say, self.graph, node, unreported);
        let telling = self.clerk.desk.conduct.telling;
        tell_unwritten(self.say, self.graph, node, telling, unwritten.as_ref());
        drop(unwritten);
        match record {
            Some(last) => {
                let over = Over { not_done, line };
                self.submit_end(rt, alloc, node, last, over, spent, shift)
            }
            None => {
                drop(line);
                shift.keep(spent.give_up());
                self.not_recorded(rt, node, None, shift);
                Ok(())
            }
        }
    }

    fn submit_end<R: Wait>(
        &self,
        rt: &R,
        alloc: Global,
        node: Node,
        last: Record,
        over: Over,
        spent: Spent<Receipt>,
        shift: &mut Shift,
    ) -> Result<(), RunFault>
        requires { IsGoodIn self.now.clerk.desk.conduct.now.form last }
    {
        let Ok(copy) = last.copy(alloc) else {
            drop(last);
            drop(over);
            shift.keep(spent.give_up());
            return Err(RunFault::OutOfMemory);
        };
        let failed = failed_status(&last);
        match self.clerk.desk.hand_in_end(rt, node, last, spent, shift) {
            Some(ticket) => {
                let end = Pending {
                    node,
                    ticket,
                    note: copy,
                    failed,
                };
                tell_end(self.say, self.graph, &end, &over, shift);
                drop(over);
                self.clerk.leave_pending(rt, alloc, end, shift)
            }
            None => {
                drop(copy);
                drop(over);
                self.not_recorded(rt, node, None, shift);
                Ok(())
            }
        }
    }
}
