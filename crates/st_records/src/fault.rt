//! What is wrong with bytes that begin with no good record.

ghost use Rattle.std.specs.Prelude.{◌≡◌};
ghost use Rattle.st_records.specs.declared.fault.DecodeFault.TheVariants as faults;

use crate::limits::RecordFault;
use std::alloc::AllocError;
use thiserror::Error;

/// Why no record could be read at the front of some bytes.
#[derive(Clone, Copy, Debug, PartialEq, Eq, Error)]
pub enum DecodeFault {
    #[error("out of memory")]
    OutOfMemory,
    /// The bytes end before the fields do.
    #[error("the bytes end inside a record")]
    Short,
    /// A kind, a phase or a status that is not listed, or a byte for what is known of explicit names that is not listed.
    #[error("a byte that no record has there")]
    BadKind,
    /// The fields are whole, but such a record may not stand in a state file.
    #[error("{0}")]
    Check(RecordFault),
}

impl From<AllocError> for DecodeFault {
    ghost from_gives = { λ _ e. e ≡ faults.OutOfMemory };

    fn from(_e: AllocError) -> DecodeFault {
        DecodeFault::OutOfMemory
    }
}
