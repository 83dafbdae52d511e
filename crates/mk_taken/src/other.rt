//! Statements that are the caller's.
use mk_statements::Line;

/// A statement that counts and says nothing of conditionals and variables. Its texts are to be expanded, but those of recipes.
#[derive(Clone, Copy)]
pub enum Other<'a> {
    /// A line of the recipe of the rule that is open.
    Recipe(&'a [u8]),
    /// `include`, and whether its files have to be there.
    Includes(bool, &'a [u8]),
    /// `vpath`
    Vpath(&'a [u8]),
    /// `load`, and whether its files have to be there.
    Loads(bool, &'a [u8]),
    /// A rule, a definition for targets, or what comes to nothing; and what stands behind a `;`.
    Expands(&'a [u8], Option<&'a [u8]>),
}

/// How far statements were read.
#[derive(Clone, Copy)]
pub enum Reached<'a> {
    End,
    /// The caller's statement of this line, and the statements behind it.
    Other(usize, Other<'a>, &'a [Line<'a>]),
}
