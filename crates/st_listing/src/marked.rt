//! The lines of an entry whose marks say which files it was made of.

ghost use Rattle.std.specs.Prelude.{◌≡◌, ◌++◌, [], codes, length};
ghost use Rattle.std.specs.List.{flat_map};
ghost use Rattle.std.specs.Option.{option_copied};
ghost use Rattle.st_marks.specs.Parts.{parts_of, parted};
ghost use Rattle.st_marks.specs.Told.{mark_text};
ghost use Rattle.st_listing.specs.Listing.{file_line, mark_below, marked_lines, source_lines, lines_with, lines_by, plain_lines, line};
ghost use Rattle.st_listing.specs.Writing.{AppendsPart, SendsOrPart};

use crate::output::{WriteFailed, send_line};
use crate::text::{send_commands, send_plain};
use st_marks::{Mark, Marks, Parts, mark_text, parts_of};
use st_records::Iter;
use std::io::Write;

pub(crate) fn send_with_marks<W: Write>(
    buffer: &mut Vec<u8>,
    writer: &mut W,
    commands: &Iter<'_>,
    hidden: &Iter<'_>,
    names: &Iter<'_>,
    text: &[u8],
) -> Result<(), WriteFailed>
    ensures { SendsOrPart result (W.contents writer.old) (W.contents writer.new) buffer.old.items buffer.new.items
        (lines_by commands.now hidden.now names.now (parts_of text.now (length names.now) (length hidden.now))) }
{
    match parts_of(text, names.len(), hidden.len()) {
        None => send_unreadable(buffer, writer, commands, hidden, names),
        Some(parts) => send_parts(buffer, writer, commands, hidden, names, parts),
    }
}

fn send_unreadable<W: Write>(
    buffer: &mut Vec<u8>,
    writer: &mut W,
    commands: &Iter<'_>,
    hidden: &Iter<'_>,
    names: &Iter<'_>,
) -> Result<(), WriteFailed>
    ensures { SendsOrPart result (W.contents writer.old) (W.contents writer.new) buffer.old.items buffer.new.items
        (line (codes "    = unreadable") ++ plain_lines commands.now hidden.now names.now) }
{
    send_line(buffer, writer, b"    = ", b"unreadable")?;
    send_plain(buffer, writer, commands, hidden, names)
}

fn send_parts<W: Write>(
    buffer: &mut Vec<u8>,
    writer: &mut W,
    commands: &Iter<'_>,
    hidden: &Iter<'_>,
    names: &Iter<'_>,
    parts: Parts<'_>,
) -> Result<(), WriteFailed>
    ensures { SendsOrPart result (W.contents writer.old) (W.contents writer.new) buffer.old.items buffer.new.items
        (lines_with commands.now hidden.now names.now (parted parts.entry)) }
{
    send_files(buffer, writer, parts.files)?;
    send_commands(buffer, writer, commands)?;
    send_marked(buffer, writer, b"    < ", hidden, parts.hidden)?;
    send_source(buffer, writer, parts.source, parts.of_source)?;
    send_marked(buffer, writer, b"    : ", names, parts.explicit)
}

fn send_files<W: Write>(
    buffer: &mut Vec<u8>,
    writer: &mut W,
    marks: Marks<'_>,
) -> Result<(), WriteFailed>
    ensures { SendsOrPart result (W.contents writer.old) (W.contents writer.new) buffer.old.items buffer.new.items (flat_map file_line marks.entry) }
{
    for mark in marks {
        send_mark(buffer, writer, b"    = ", mark)?;
    }
    Ok(())
}

fn send_mark<W: Write>(
    buffer: &mut Vec<u8>,
    writer: &mut W,
    front: &[u8],
    mark: Mark,
) -> Result<(), WriteFailed>
    ensures { SendsOrPart result (W.contents writer.old) (W.contents writer.new) buffer.old.items buffer.new.items (line (front.now ++ mark_text mark)) }
{
    let text = mark_text(mark);
    send_line(buffer, writer, front, text.as_slice())
}

fn send_source<W: Write>(
    buffer: &mut Vec<u8>,
    writer: &mut W,
    source: Option<&[u8]>,
    marks: Marks<'_>,
) -> Result<(), WriteFailed>
    ensures { SendsOrPart result (W.contents writer.old) (W.contents writer.new) buffer.old.items buffer.new.items
        (source_lines (option_copied source.entry) marks.entry) }
{
    let mut left = marks;
    match source {
        None => Ok(()),
        Some(name) => send_name(buffer, writer, b"    ~ ", name, left.first()),
    }
}

// One line for each name, this text in front, and below it one for its mark.
fn send_marked<W: Write>(
    buffer: &mut Vec<u8>,
    writer: &mut W,
    front: &[u8],
    names: &Iter<'_>,
    marks: Marks<'_>,
) -> Result<(), WriteFailed>
    ensures { SendsOrPart result (W.contents writer.old) (W.contents writer.new) buffer.old.items buffer.new.items (marked_lines front.now names.now marks.entry) }
{
    let mut left = marks;
    for name in names.iter() {
        let mark = left.first();
        send_name(buffer, writer, front, name, mark)?;
    }
    Ok(())
}

fn send_name<W: Write>(
    buffer: &mut Vec<u8>,
    writer: &mut W,
    front: &[u8],
    name: &[u8],
    mark: Option<Mark>,
) -> Result<(), WriteFailed>
    ensures { SendsOrPart result (W.contents writer.old) (W.contents writer.new) buffer.old.items buffer.new.items (line (front.now ++ name.now) ++ mark_below mark) }
{
    send_line(buffer, writer, front, name)?;
    send_mark_below(buffer, writer, mark)
}

fn send_mark_below<W: Write>(
    buffer: &mut Vec<u8>,
    writer: &mut W,
    mark: Option<Mark>,
) -> Result<(), WriteFailed>
    ensures { SendsOrPart result (W.contents writer.old) (W.contents writer.new) buffer.old.items buffer.new.items (mark_below mark) }
{
    match mark {
        None => Ok(()),
        Some(mark) => send_mark(buffer, writer, b"      = ", mark),
    }
}
