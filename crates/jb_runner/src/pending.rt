//! The end of a recipe between its submission and its receipt: while a node is ready, that one's 'begun' is submitted behind it,
//! and one batch has both.

use crate::desk::Clerk;
use crate::shift::Shift;
use bd_ledger::Ticket;
use bd_links::Node;
use jb_closing::RunFault;
use st_disk::Disk;
use st_records::Record;
use std::alloc::Global;
use std::sync::Wait;

/// An end that was submitted, and whose receipt wasn't asked for yet.
#[derive(Drop)]
pub(crate) struct Pending {
    pub(crate) node: Node,
    pub(crate) ticket: Ticket,
    pub(crate) note: Record,
    /// The status of a 'failed'.
    pub(crate) failed: Option<u32>,
}

impl<D: Disk + Drop> Clerk<'_, D> {
    /// Leaves an end pending, unless nothing is to be begun behind it: then it is settled.
    pub(crate) fn leave_pending<R: Wait>(
        &self,
        rt: &R,
        alloc: Global,
        end: Pending,
        shift: &mut Shift,
    ) -> Result<(), RunFault> {
        let ends_run = self.desk.ends_run(end.failed);
        drop(shift.pending.replace(end));
        if ends_run {
            return self.settle_pending(rt, alloc, shift);
        }
        Ok(())
    }

    /// Settles the end that is pending. A fault ends the run: its node and all that waits are abandoned.
    pub(crate) fn settle_pending<R: Wait>(
        &self,
        rt: &R,
        alloc: Global,
        shift: &mut Shift,
    ) -> Result<(), RunFault> {
        let Some(end) = shift.pending.take() else {
            return Ok(());
        };
        let node = end.node;
        match self.settle_end(rt, alloc, end) {
            Ok(receipt) => {
                shift.keep(receipt);
                Ok(())
            }
            Err(fault) => {
                self.desk.stop_at(rt, node);
                Err(fault)
            }
        }
    }

    /// The same where the worker begins nothing behind it. Whether the run goes on.
    pub(crate) fn settle_last<R: Wait>(&self, rt: &R, alloc: Global, shift: &mut Shift) -> bool {
        match self.settle_pending(rt, alloc, shift) {
            Ok(()) => true,
            Err(fault) => {
                shift.meet(fault);
                false
            }
        }
    }

    /// The next node to be made. An end stays pending only while a node is ready: the worker doesn't sleep with it.
    pub(crate) fn claim_next<R: Wait>(
        &self,
        rt: &R,
        alloc: Global,
        shift: &mut Shift,
    ) -> Option<Node> {
        if shift.pending.is_some() {
            let ready = self.desk.claim_ready(rt);
            if ready.is_some() || !self.settle_last(rt, alloc, shift) {
                return ready;
            }
        }
        self.desk.next_node(rt)
    }
}
