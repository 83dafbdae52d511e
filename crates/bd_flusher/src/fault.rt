//! Why records aren't written.

ghost use Rattle.std.specs.Prelude.{◌≡◌};
ghost use Rattle.bd_flusher.specs.declared.fault.FlushFault.TheVariants.{OutOfMemory};

use bd_ledger::Ticket;
use st_file::CommitFault;
use std::alloc::AllocError;
use thiserror::Error;

/// Why records aren't written. Of several the first of `Dead`, `OutOfTurn`, want of memory for what is told, the refusals of
/// a side of another form, and then those of the commit counts.
#[derive(Clone, Copy, Debug, PartialEq, Eq, Error)]
pub enum FlushFault {
    /// A call of the device failed. What is held may or may not be found after a power cut, and nothing more is written.
    #[error("device fault")]
    Device,
    /// What is held is kept for the next try.
    #[error("out of memory")]
    OutOfMemory,
    /// A held ticket, and the number of the submission whose turn it was.
    #[error("records out of turn")]
    OutOfTurn(Ticket, usize),
    /// What is held is kept, and won't fit.
    #[error("state full")]
    Full,
    /// A call of the device failed earlier.
    #[error("device fault")]
    Dead,
    /// The record with this ticket wasn't there to be written.
    #[error("records out of turn")]
    Unknown(Ticket),
    /// The side isn't of the form that is written and has the greatest generation, so that it can't be written anew; or the
    /// board's records aren't of that form.
    #[error("old version")]
    OldVersion,
}

impl From<AllocError> for FlushFault {
    ghost from_gives = { λ _ e. e ≡ OutOfMemory };

    fn from(_fault: AllocError) -> FlushFault {
        FlushFault::OutOfMemory
    }
}

impl From<CommitFault> for FlushFault {
    ghost use Rattle.bd_flusher.specs.Faults.{fault_of};

    ghost from_gives = { λ fault e. e ≡ fault_of fault };

    fn from(fault: CommitFault) -> FlushFault {
        match fault {
            CommitFault::Device => FlushFault::Device,
            CommitFault::OutOfMemory => FlushFault::OutOfMemory,
            CommitFault::Full => FlushFault::Full,
            CommitFault::Dead => FlushFault::Dead,
            CommitFault::OldVersion | CommitFault::GenerationsSpent => FlushFault::OldVersion,
        }
    }
}
