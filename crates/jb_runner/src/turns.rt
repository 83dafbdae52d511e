//! A recipe that is cleared waits for its turn: its makefile may say how many of some targets run at once, or that one runs alone.
ghost use Rattle.std.specs.Prelude.{◌≡◌, IfSome};
ghost use Rattle.st_records.specs.declared.record.Record.TheVariants as records;
ghost use Rattle.jb_recipe.specs.Environment.{NamesReport};

use crate::bench::Bench;
use crate::ending::Cleared;
use crate::shift::Shift;
use bd_flusher::Receipt;
use bd_links::Node;
use bd_lists::Exec;
use jb_closing::RunFault;
use jb_recipe::{Place, Say, turn_of};
use jb_slots::Bank;
use st_disk::Disk;
use std::alloc::Global;
use std::sync::Wait;

impl<D: Disk + Drop, E: Exec<Receipt>, S: Say, P: Place> Bench<'_, D, E, S, P> {
    /// Makes a target once its recipe may be run. That one counts as running until its end is written, so that nothing is begun behind one
    /// that failed. A slot is taken behind the wait: who waits has none.
    pub(crate) fn build_in_turn<R: Wait, B: Bank>(
        &self,
        rt: &R,
        alloc: Global,
        node: Node,
        cleared: Cleared,
        bank: &mut B,
        shift: &mut Shift,
    ) -> Result<(), RunFault>
        requires form { cleared.note.form ≡ self.now.clerk.desk.conduct.now.form }
        requires own { cleared.clearance.told.noted ≡ records.Begun cleared.recipe.target }
        requires target { cleared.note.target ≡ cleared.recipe.target }
        requires named { IfSome cleared.note.report (NamesReport cleared.recipe.target cleared.recipe.env.items) }
    {
        let at_once = self.clerk.desk.conduct.at_once;
        let turn = turn_of(&self.graph.settings, at_once, cleared.note.target());
        match self.place.enter(turn) {
            Ok(waited) => {
                let came = if waited && self.clerk.desk.is_over() {
                    self.give_up(rt, node, cleared, shift);
                    Ok(())
                } else {
                    self.build_cleared(rt, alloc, node, cleared, bank, shift)
                };
                self.place.leave(turn);
                came
            }
            Err(_) => {
                shift.keep(cleared.give_up());
                Err(RunFault::OutOfMemory)
            }
        }
    }

    /// Nothing is begun any more: the node is abandoned, and its 'begun' stands.
    fn give_up<R: Wait>(&self, rt: &R, node: Node, cleared: Cleared, shift: &mut Shift) {
        shift.keep(cleared.give_up());
        self.clerk.desk.lose(rt, node);
    }
}
