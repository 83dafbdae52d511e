//! Why a depfile isn't taken.
use thiserror::Error;

/// What stands in a line that isn't in make's form as compilers write it.
#[derive(Clone, Copy, Debug, PartialEq, Eq, Error)]
pub enum Cause {
    #[error("a NUL")]
    Nul,
    /// A backslash at the end of the text, or of its last line.
    #[error("the rule goes on where the text ends")]
    Unfinished,
    /// A line that begins with a TAB.
    #[error("a recipe line")]
    RecipeLine,
    #[error("a `$` alone")]
    LoneDollar,
    #[error("a `#` without a backslash")]
    BareHash,
    /// No colon that a blank or the end of the line follows.
    #[error("no colon behind a target")]
    NoColon,
    #[error("no target before the colon")]
    NoTarget,
}

/// The first line that isn't taken, by its number from 1. Of a line that goes on it is the first.
#[derive(Clone, Copy, Debug, PartialEq, Eq, Error)]
#[error("line {line}: {cause}")]
pub struct Refusal {
    pub line: usize,
    pub cause: Cause,
}
