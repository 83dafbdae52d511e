//! Why a row's line isn't answered.
use std::alloc::{AllocError, AllocFailed};

#[derive(Clone, Copy, Debug, PartialEq, Eq)]
pub enum RowFault {
    OutOfMemory,
    /// A word isn't known, or isn't what it is to be.
    Word,
    /// What is called isn't open.
    NotOpen,
    /// Two things have one name that are to have names of their own.
    NamedAlike,
}

/// Whether a line is answered.
pub type Answered = Result<(), RowFault>;

impl From<AllocError> for RowFault {
    fn from(_fault: AllocError) -> RowFault {
        RowFault::OutOfMemory
    }
}

impl<T: Drop> From<AllocFailed<T>> for RowFault {
    fn from(_fault: AllocFailed<T>) -> RowFault {
        RowFault::OutOfMemory
    }
}
