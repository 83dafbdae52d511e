//! Where a line stands.

/// A line of a file, behind which so many more levels of included files may be opened.
#[derive(Clone, Copy)]
pub(crate) struct Site<'a> {
    pub(crate) file: &'a [u8],
    pub(crate) line: usize,
    pub(crate) levels: u8,
}
