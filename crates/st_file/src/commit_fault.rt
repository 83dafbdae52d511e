//! Why a batch isn't committed, or a state isn't written anew.

ghost use Rattle.std.specs.Prelude.{◌≡◌};
ghost use Rattle.st_file.specs.declared.commit_fault.CommitFault.TheVariants.{Device, OutOfMemory};

use st_disk::DeviceFault;
use std::alloc::{AllocError, AllocFailed};
use thiserror::Error;

/// Why a batch isn't committed, or a state isn't written anew. Of several the first of `Dead`, `GenerationsSpent`,
/// `OldVersion`, `Full`, `OutOfMemory` and `Device` counts.
#[derive(Clone, Copy, Debug, PartialEq, Eq, Error)]
pub enum CommitFault {
    /// A call of the device failed. The batch may or may not be found after a power cut, and nothing more is committed.
    #[error("device fault")]
    Device,
    /// There was no memory for the batch.
    #[error("out of memory")]
    OutOfMemory,
    /// The batch, or the side with it, would be longer than the format allows.
    #[error("state full")]
    Full,
    /// A call of the device failed earlier.
    #[error("an earlier device fault")]
    Dead,
    /// No batch is added to a side of version 1.
    #[error("old version")]
    OldVersion,
    /// The side that counts has the greatest generation, so that no other can count over it. No batch meets it.
    #[error("generations spent")]
    GenerationsSpent,
}

impl From<AllocError> for CommitFault {
    ghost from_gives = { λ _ e. e ≡ OutOfMemory };

    fn from(_fault: AllocError) -> CommitFault {
        CommitFault::OutOfMemory
    }
}

impl<T: Drop> From<AllocFailed<T>> for CommitFault {
    ghost from_gives = { λ _ e. e ≡ OutOfMemory };

    fn from(_fault: AllocFailed<T>) -> CommitFault {
        CommitFault::OutOfMemory
    }
}

impl From<DeviceFault> for CommitFault {
    ghost from_gives = { λ _ e. e ≡ Device };

    fn from(_fault: DeviceFault) -> CommitFault {
        CommitFault::Device
    }
}
