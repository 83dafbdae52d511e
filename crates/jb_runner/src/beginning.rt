//! A target's 'begun', and the receipts of its records.
ghost use Rattle.std.specs.Prelude.{IfOk};
ghost use Rattle.st_records.specs.Limits.{IsGoodIn};
ghost use Rattle.jb_runner.specs.Making.{IsClearedFor};

use crate::desk::Clerk;
use crate::pending::Pending;
use crate::shift::Shift;
use bd_flusher::{FlushFault, Receipt};
use bd_ledger::Ticket;
use bd_links::Node;
use bd_lists::{Advanced, Clearance, Told};
use jb_closing::RunFault;
use st_disk::Disk;
use st_records::Record;
use std::alloc::Global;
use std::sync::Wait;

/// What came of a target's 'begun'.
pub(crate) enum Begun {
    /// Its recipe may be run.
    Cleared(Clearance<Receipt>),
    /// The board didn't take it.
    Refused,
}

// A receipt that the board didn't take, or whose step wasn't the one at which its node stood.
fn unknown(receipt: Receipt) -> RunFault {
    let ticket = receipt.ticket();
    drop(receipt);
    RunFault::Flush(FlushFault::Unknown(ticket))
}

// The receipt of an end that has settled its node.
fn settled(advanced: Result<Advanced<Receipt>, Receipt>) -> Result<Receipt, RunFault> {
    match advanced {
        Ok(Advanced::Settled(receipt)) => Ok(receipt),
        Ok(Advanced::Cleared(clearance)) => Err(unknown(clearance.give_up())),
        Err(receipt) => Err(unknown(receipt)),
    }
}

impl<D: Disk + Drop> Clerk<'_, D> {
    /// Submits the 'begun' and waits until it is written, with the end that is pending in the same batch. No recipe is run before.
    pub(crate) fn begin<R: Wait>(
        &self,
        rt: &R,
        alloc: Global,
        node: Node,
        begun: Record,
        shift: &mut Shift,
    ) -> Result<Begun, RunFault>
        requires { IsGoodIn self.now.desk.conduct.now.form begun }
        ensures { IfOk result (λ b. IsClearedFor begun b) }
    {
        let Ok(copy) = begun.copy(alloc) else {
            drop(begun);
            return Err(RunFault::OutOfMemory);
        };
        let handed_in = self.desk.hand_in(rt, node, begun);
        if let Err(fault) = self.settle_pending(rt, alloc, shift) {
            drop(copy);
            return Err(fault);
        }
        match handed_in {
            Some(ticket) => self.clear(rt, alloc, node, ticket, copy),
            None => {
                drop(copy);
                Ok(Begun::Refused)
            }
        }
    }

    // Waits until the 'begun' of this ticket is written.
    fn clear<R: Wait>(
        &self,
        rt: &R,
        alloc: Global,
        node: Node,
        ticket: Ticket,
        copy: Record,
    ) -> Result<Begun, RunFault>
        ensures { IfOk result (λ b. IsClearedFor copy b) }
    {
        let receipt = self.flusher.acknowledge(rt, alloc, ticket, copy)?;
        match self.desk.advance(rt, node, receipt) {
            Ok(Advanced::Cleared(clearance)) => Ok(Begun::Cleared(clearance)),
            Ok(Advanced::Settled(receipt)) => Err(unknown(receipt)),
            Err(receipt) => Err(unknown(receipt)),
        }
    }

    /// Waits until the end is written, and settles its node.
    pub(crate) fn settle_end<R: Wait>(
        &self,
        rt: &R,
        alloc: Global,
        end: Pending,
    ) -> Result<Receipt, RunFault> {
        let Pending {
            node,
            ticket,
            note,
            failed,
        } = end;
        let receipt = self.flusher.acknowledge(rt, alloc, ticket, note)?;
        settled(self.desk.advance_end(rt, node, receipt, failed))
    }
}
