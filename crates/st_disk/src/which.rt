//! The names of the two sides.

/// One of the two sides of a disk.
#[derive(Clone, Copy, Debug, PartialEq, Eq)]
pub enum Which {
    A,
    B,
}
