//! Lines, written behind a text.

ghost use Rattle.std.specs.Prelude.{◌≡◌, ◌++◌, OnOk};
ghost use Rattle.st_answers.specs.Lines.{line, lines, row, rows};

use st_records::Iter;
use std::alloc::AllocError;

pub(crate) fn append_line(text: &mut Vec<u8>, bytes: &[u8]) -> Result<(), AllocError>
    ensures { OnOk result (text.new.items ≡ text.old.items ++ line bytes.now) }
{
    text.extend_from_slice(bytes)?;
    text.extend_from_slice(b"\n")
}

/// A line that says this word of a name.
pub(crate) fn append_row(text: &mut Vec<u8>, word: &[u8], name: &[u8]) -> Result<(), AllocError>
    ensures { OnOk result (text.new.items ≡ text.old.items ++ row word.now name.now) }
{
    text.extend_from_slice(word)?;
    text.extend_from_slice(b"\t")?;
    append_line(text, name)
}

pub(crate) fn append_lines(text: &mut Vec<u8>, strings: &Iter<'_>) -> Result<(), AllocError>
    ensures { OnOk result (text.new.items ≡ text.old.items ++ lines strings.now) }
{
    for string in strings.iter() {
        append_line(text, string)?;
    }
    Ok(())
}

/// A line for each name, which says this word of it.
pub(crate) fn append_rows(
    text: &mut Vec<u8>,
    word: &[u8],
    names: &Iter<'_>,
) -> Result<(), AllocError>
    ensures { OnOk result (text.new.items ≡ text.old.items ++ rows word.now names.now) }
{
    for name in names.iter() {
        append_row(text, word, name)?;
    }
    Ok(())
}
