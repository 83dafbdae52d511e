//! What is told of the files that a target was made of, and of their marks.

ghost use Rattle.std.specs.Prelude.{◌≡◌, ◌++◌, codes, length, OnOk};
ghost use Rattle.std.specs.List.{flat_map};
ghost use Rattle.std.specs.Option.{option_copied};
ghost use Rattle.st_records.specs.Parts.{explicit_from};
ghost use Rattle.st_marks.specs.Parts.{parts_of, parted};
ghost use Rattle.st_answers.specs.Lines.{row};
ghost use Rattle.st_answers.specs.Marks.{plain_rows, mark_row, mark_below, marked_rows, source_rows, rows_with, rows_by, rows_below};

use crate::line_text::{append_row, append_rows};
use st_marks::{Mark, Marks, Parts, mark_text, parts_of};
use st_records::{Iter, Named};
use std::alloc::AllocError;

/// A row for each prerequisite; of marked ones the marks too, those of the target's files first.
pub(crate) fn append_below(
    text: &mut Vec<u8>,
    hidden: &Iter<'_>,
    explicit: Named<'_>,
) -> Result<(), AllocError>
    ensures { OnOk result (text.new.items ≡ text.old.items ++ rows_below hidden.now (explicit_from explicit.entry)) }
{
    match explicit {
        Named::Unknown => append_plain(text, &Iter::empty(), hidden),
        Named::Known(names) => append_plain(text, &names, hidden),
        Named::Marked(names, marks) => append_with_marks(text, &names, hidden, marks),
    }
}

fn append_plain(text: &mut Vec<u8>, names: &Iter<'_>, hidden: &Iter<'_>) -> Result<(), AllocError>
    ensures { OnOk result (text.new.items ≡ text.old.items ++ plain_rows names.now hidden.now) }
{
    append_rows(text, b"explicit", names)?;
    append_rows(text, b"hidden", hidden)
}

fn append_with_marks(
    text: &mut Vec<u8>,
    names: &Iter<'_>,
    hidden: &Iter<'_>,
    marks: &[u8],
) -> Result<(), AllocError>
    ensures { OnOk result (text.new.items ≡ text.old.items
        ++ rows_by names.now hidden.now (parts_of marks.now (length names.now) (length hidden.now))) }
{
    match parts_of(marks, names.len(), hidden.len()) {
        None => append_unreadable(text, names, hidden),
        Some(parts) => append_parts(text, names, hidden, parts),
    }
}

fn append_unreadable(
    text: &mut Vec<u8>,
    names: &Iter<'_>,
    hidden: &Iter<'_>,
) -> Result<(), AllocError>
    ensures { OnOk result (text.new.items ≡ text.old.items
        ++ (row (codes "mark") (codes "unreadable") ++ plain_rows names.now hidden.now)) }
{
    append_row(text, b"mark", b"unreadable")?;
    append_plain(text, names, hidden)
}

fn append_parts(
    text: &mut Vec<u8>,
    names: &Iter<'_>,
    hidden: &Iter<'_>,
    parts: Parts<'_>,
) -> Result<(), AllocError>
    ensures { OnOk result (text.new.items ≡ text.old.items ++ rows_with names.now hidden.now (parted parts.entry)) }
{
    append_files(text, parts.files)?;
    append_source(text, parts.source, parts.of_source)?;
    append_marked(text, b"explicit", names, parts.explicit)?;
    append_marked(text, b"hidden", hidden, parts.hidden)
}

fn append_files(text: &mut Vec<u8>, marks: Marks<'_>) -> Result<(), AllocError>
    ensures { OnOk result (text.new.items ≡ text.old.items ++ flat_map mark_row marks.entry) }
{
    for mark in marks {
        append_mark(text, mark)?;
    }
    Ok(())
}

fn append_mark(text: &mut Vec<u8>, mark: Mark) -> Result<(), AllocError>
    ensures { OnOk result (text.new.items ≡ text.old.items ++ mark_row mark) }
{
    let words = mark_text(mark);
    append_row(text, b"mark", words.as_slice())
}

fn append_source(
    text: &mut Vec<u8>,
    source: Option<&[u8]>,
    marks: Marks<'_>,
) -> Result<(), AllocError>
    ensures { OnOk result (text.new.items ≡ text.old.items ++ source_rows (option_copied source.entry) marks.entry) }
{
    let mut left = marks;
    match source {
        None => Ok(()),
        Some(name) => append_name(text, b"inferred", name, left.first()),
    }
}

/// A row for each name, which says this word of it, and its mark below.
fn append_marked(
    text: &mut Vec<u8>,
    word: &[u8],
    names: &Iter<'_>,
    marks: Marks<'_>,
) -> Result<(), AllocError>
    ensures { OnOk result (text.new.items ≡ text.old.items ++ marked_rows word.now names.now marks.entry) }
{
    let mut left = marks;
    for name in names.iter() {
        let mark = left.first();
        append_name(text, word, name, mark)?;
    }
    Ok(())
}

fn append_name(
    text: &mut Vec<u8>,
    word: &[u8],
    name: &[u8],
    mark: Option<Mark>,
) -> Result<(), AllocError>
    ensures { OnOk result (text.new.items ≡ text.old.items ++ (row word.now name.now ++ mark_below mark)) }
{
    append_row(text, word, name)?;
    append_mark_below(text, mark)
}

fn append_mark_below(text: &mut Vec<u8>, mark: Option<Mark>) -> Result<(), AllocError>
    ensures { OnOk result (text.new.items ≡ text.old.items ++ mark_below mark) }
{
    match mark {
        None => Ok(()),
        Some(mark) => append_mark(text, mark),
    }
}
