//! Answers of several words, with a blank between each two.
use row_files::bytes;
use std::alloc::AllocError;

fn part(out: &mut String) -> Result<(), AllocError> {
    if out.is_empty() {
        Ok(())
    } else {
        out.push(' ')
    }
}

pub(crate) fn say_word(out: &mut String, word: &str) -> Result<(), AllocError> {
    part(out)?;
    out.push_str(word)
}

/// Says bytes; of none, `nothing`.
pub(crate) fn say_text(out: &mut String, text: &[u8]) -> Result<(), AllocError> {
    part(out)?;
    bytes::say_all(out, text)
}

pub(crate) fn say_place(out: &mut String, what: &str, number: usize) -> Result<(), AllocError> {
    part(out)?;
    write!(out, "{what}:{number}")
}

/// Says the number of the line whose answer follows.
pub(crate) fn say_number(out: &mut String, number: usize) -> Result<(), AllocError> {
    part(out)?;
    write!(out, "{number}:")
}
