//! Ways in which a run may go.

use jb_recipe::PlaceFault;

/// How a run goes.
#[derive(Clone, Copy)]
pub struct Way {
    pub workers: usize,
    pub goes_on: bool,
    /// Whatever the makefile says of it.
    pub keeps_state: bool,
    /// The tokens of its pool; None where the pool answers a fault at once.
    pub tokens: Option<&'static [u8]>,
    /// Whether a target's file can be put on the disk.
    pub sync: Result<(), PlaceFault>,
    /// Whether reports of an earlier run can't be removed.
    pub keeps_reports: bool,
}

/// One worker, no `-k`.
pub const ALONE: Way = Way {
    workers: 1,
    goes_on: false,
    keeps_state: true,
    tokens: Some(b"+"),
    sync: Ok(()),
    keeps_reports: false,
};

pub const ALONE_WITH_K: Way = Way {
    goes_on: true,
    ..ALONE
};

/// Three workers, with `-k`.
pub const SIDE_BY_SIDE: Way = Way {
    workers: 3,
    tokens: Some(b"ab"),
    ..ALONE_WITH_K
};
