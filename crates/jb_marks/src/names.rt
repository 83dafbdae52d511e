//! The files of a target, by name.
use byte_strings::{ByteString, ByteStrings};
use st_marks::Mark;

/// A hidden prerequisite that the target's entry names, as the run found the entry.
#[derive(Drop)]
pub struct Recorded {
    pub name: ByteString,
    /// None where the entry has no marks.
    pub mark: Option<Mark>,
}

/// The files that a target's recipe makes, and those that it is made of, by name.
#[derive(Clone, Copy)]
pub struct Names<'a> {
    pub target: &'a [u8],
    /// What the recipe makes beside the target.
    pub others: &'a ByteStrings,
    /// Its source, where an implicit rule gave it one.
    pub source: Option<&'a [u8]>,
    /// The prerequisites that the makefile names for it, as they are recorded.
    pub explicit: &'a ByteStrings,
    pub recorded: &'a [Recorded],
}
