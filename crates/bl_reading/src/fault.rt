//! Why a log isn't read.

use std::alloc::{AllocError, AllocFailed};
use std::fmt;
use thiserror::Error;

/// What is wrong with a log, or with one of its lines.
#[derive(Clone, Copy, Debug, PartialEq, Eq, Error)]
pub enum Fault {
    #[error("out of memory")]
    OutOfMemory,
    #[error("has no run")]
    NoRun,
    #[error("has no run {0}")]
    NoSuchRun(usize),
    #[error("not JSON")]
    NotJson,
    #[error("field `{0}` is missing")]
    Missing(&'static str),
    #[error("field `{0}` doesn't have what it is to have")]
    Wrong(&'static str),
    #[error("of version {0}, and only version 1 is known")]
    OtherVersion(u64),
    #[error("before the first run")]
    BeforeRun,
    /// Of a target whose recipe has ended, or that never began.
    #[error("its recipe didn't begin")]
    NotBegun,
    #[error("its recipe still runs")]
    StillRuns,
    #[error("its time is before that of the line above")]
    TimeGoesBack,
    /// More than a u32 counts.
    #[error("too many recipes")]
    TooMany,
}

impl From<AllocError> for Fault {
    fn from(_fault: AllocError) -> Fault {
        Fault::OutOfMemory
    }
}

impl<T: Drop> From<AllocFailed<T>> for Fault {
    fn from(_fault: AllocFailed<T>) -> Fault {
        Fault::OutOfMemory
    }
}

/// A fault, and the line that has it, counted from 1; none where it is the whole log's.
#[derive(Clone, Copy, Debug)]
pub struct Refusal {
    pub line: Option<usize>,
    pub fault: Fault,
}

impl Refusal {
    /// A fault of no line.
    pub fn whole(fault: Fault) -> Refusal {
        Refusal { line: None, fault }
    }
}

impl fmt::Display for Refusal {
    fn fmt<W: fmt::Write>(&self, f: &mut fmt::Formatter<W>) -> fmt::Result {
        let fault = self.fault;
        match self.line {
            Some(line) => write!(f, "{line}: {fault}"),
            None => write!(f, " {fault}"),
        }
    }
}
