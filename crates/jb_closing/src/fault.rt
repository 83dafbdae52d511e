//! Why a run ended without a report.

use bd_flusher::FlushFault;
use std::alloc::AllocError;
use thiserror::Error;

/// Why a run ended without a report. Of several workers' faults that of the first worker counts.
#[derive(Clone, Copy, Debug, PartialEq, Eq, Error)]
pub enum RunFault {
    /// A record couldn't be written, or the receipts aren't those of what was written.
    #[error("state not written: {0}")]
    Flush(FlushFault),
    #[error("out of memory")]
    OutOfMemory,
    /// Not one worker could be started.
    #[error("cannot start a worker")]
    Start,
}

impl From<AllocError> for RunFault {
    ghost use Rattle.std.specs.Prelude.{◌≡◌};
    ghost use Rattle.jb_closing.specs.declared.fault.RunFault.TheVariants.{OutOfMemory};

    ghost from_gives = { λ _ fault. fault ≡ OutOfMemory };

    fn from(_error: AllocError) -> RunFault {
        RunFault::OutOfMemory
    }
}

impl From<FlushFault> for RunFault {
    ghost use Rattle.std.specs.Prelude.{◌≡◌};
    ghost use Rattle.jb_closing.specs.declared.fault.RunFault.TheVariants.{Flush};

    ghost from_gives = { λ cause fault. fault ≡ Flush cause };

    fn from(cause: FlushFault) -> RunFault {
        RunFault::Flush(cause)
    }
}
