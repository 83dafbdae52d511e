//! What a line says of conditionals, as values.

/// What a test asks. Its texts are those of the makefile, and are to be expanded.
#[derive(Clone, Copy)]
pub enum Question<'a> {
    /// Whether two texts expand to the same bytes.
    Equal(&'a [u8], &'a [u8]),
    /// Whether a macro is defined: the text expands to its name.
    Defined(&'a [u8]),
    /// None that can be asked: the test is spelled wrong, which is a fault where it is to be asked.
    Invalid,
}

/// A test holds where its question is answered by yes, or, negated, by no.
#[derive(Clone, Copy)]
pub struct Test<'a> {
    pub is_negated: bool,
    pub question: Question<'a>,
}

/// What a line says of conditionals, by the test `T` that stands there.
#[derive(Clone, Copy)]
pub enum Directive<T> {
    /// `ifeq`, `ifneq`, `ifdef` or `ifndef`.
    Begins(T),
    /// `else`, and the test of another conditional where one stands behind it.
    Turns(Option<T>),
    /// `endif`
    Ends,
}

#[derive(Clone, Copy)]
pub struct DirectiveLine<'a> {
    pub directive: Directive<Test<'a>>,
    /// Whether text stands behind, which is passed over. GNU make has a warning for it.
    pub has_text_behind: bool,
}
