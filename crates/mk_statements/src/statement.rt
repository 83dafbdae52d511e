//! What a line says, as it is seen by who reads it.
use crate::said::Said;

#[derive(Clone, Copy)]
pub enum Statement<'a> {
    Plain(Said<'a>),
    /// A line that begins with a TAB: a recipe's with this text where a rule is open, which keeps its backslashes and newlines;
    /// where none is, what it says.
    Tab(&'a [u8], Said<'a>),
}
