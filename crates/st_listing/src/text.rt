//! The lines of a listing, sent one after another.

ghost use Rattle.std.specs.Prelude.{◌≡◌, ◌++◌, [], codes, length, OnOk, OnErr};
ghost use Rattle.std.specs.Io.KnownBytes.{Appends};
ghost use Rattle.std.specs.Fmt.{decimal};
ghost use Rattle.std.specs.List.{flat_map};
ghost use Rattle.st_records.specs.Parts.{explicit_from};
ghost use Rattle.st_listing.specs.Listing.{entry_lines, phase_text, command_text, plain_lines, lines_below, line};
ghost use Rattle.st_listing.specs.Writing.{AppendsPart, SendsOrPart};

use crate::marked::send_with_marks;
use crate::output::{WriteFailed, make_room, send_both, send_line, write_text};
use itoa::Buffer;
use memchr::memchr;
use st_packed::PackedEntry;
use st_records::{Iter, Named, Phase};
use st_state::Listed;
use std::io::Write;

// How many entries are looked at before their lines are sent.
const BLOCK: usize = 64;

// The bytes of a line for a command or a prerequisite, as most are.
const USUAL_LINE: usize = 32;

/// Writes what waits in the buffer and then the lines of the entries.
pub fn write_lines<W: Write>(
    buffer: &mut Vec<u8>,
    writer: &mut W,
    named: &Listed<'_>,
) -> Result<(), WriteFailed>
    ensures whole { OnOk result (Appends (W.contents writer.old) (W.contents writer.new) (buffer.old.items ++ flat_map entry_lines named.now)) }
    ensures part { OnErr result (AppendsPart (W.contents writer.old) (W.contents writer.new) (buffer.old.items ++ flat_map entry_lines named.now)) }
{
    send_entries(buffer, writer, named)?;
    write_text(buffer.as_slice(), writer)
}

fn send_entries<W: Write>(
    buffer: &mut Vec<u8>,
    writer: &mut W,
    named: &Listed<'_>,
) -> Result<(), WriteFailed>
    ensures { SendsOrPart result (W.contents writer.old) (W.contents writer.new) buffer.old.items buffer.new.items
        (flat_map entry_lines named.now) }
{
    for place in 0..named.len() {
        look_ahead(buffer, writer, named, place)?;
        let (name, entry) = named.at(place);
        send_entry(buffer, writer, name, entry)?;
    }
    Ok(())
}

// Before the first entry of a block: writes what waits where the lines of the block usually find no room behind it.
fn look_ahead<W: Write>(
    buffer: &mut Vec<u8>,
    writer: &mut W,
    named: &Listed<'_>,
    place: usize,
) -> Result<(), WriteFailed>
    ensures { SendsOrPart result (W.contents writer.old) (W.contents writer.new) buffer.old.items buffer.new.items [] }
{
    if place % BLOCK != 0 {
        return Ok(());
    }
    make_room(buffer, writer, usual_len(named, place))
}

// How many bytes the lines of the entries of a block, from its first one on, usually take. It decides nothing but when
// bytes that wait are written.
//
// Names and entries lie all over memory, and to fetch one takes longer than to write its lines. Looked at here one right
// after another, many are fetched at a time; the first byte of a name is read for that alone.
// That takes an eighth off the time of 4,000,000 names (27 November 2026).
fn usual_len(named: &Listed<'_>, first: usize) -> usize {
    let mut len: usize = 0;
    for place in first..named.len().min(first.saturating_add(BLOCK)) {
        let (name, entry) = named.at(place);
        let mark = match entry.phase() {
            Phase::Begun => 7,
            Phase::Done => 6,
            Phase::Failed(_) => 10,
        };
        let rooted = usize::from(name.first() == Some(&b'/'));
        let below = entry.commands().len().saturating_add(entry.hidden().len());
        len = len
            .saturating_add(mark + rooted)
            .saturating_add(name.len())
            .saturating_add(below.saturating_mul(USUAL_LINE));
    }
    len
}

fn send_entry<W: Write>(
    buffer: &mut Vec<u8>,
    writer: &mut W,
    name: &[u8],
    entry: &PackedEntry,
) -> Result<(), WriteFailed>
    ensures { SendsOrPart result (W.contents writer.old) (W.contents writer.new) buffer.old.items buffer.new.items (entry_lines (name.now, entry.now)) }
{
    send_phase(buffer, writer, name, entry.phase())?;
    send_below(
        buffer,
        writer,
        &entry.commands(),
        &entry.hidden(),
        entry.lend(),
    )
}

fn send_below<W: Write>(
    buffer: &mut Vec<u8>,
    writer: &mut W,
    commands: &Iter<'_>,
    hidden: &Iter<'_>,
    explicit: Named<'_>,
) -> Result<(), WriteFailed>
    ensures { SendsOrPart result (W.contents writer.old) (W.contents writer.new) buffer.old.items buffer.new.items
        (lines_below commands.now hidden.now (explicit_from explicit.entry)) }
{
    match explicit {
        Named::Unknown => send_plain(buffer, writer, commands, hidden, &Iter::empty()),
        Named::Known(names) => send_plain(buffer, writer, commands, hidden, &names),
        Named::Marked(names, marks) => {
            send_with_marks(buffer, writer, commands, hidden, &names, marks)
        }
    }
}

pub(crate) fn send_plain<W: Write>(
    buffer: &mut Vec<u8>,
    writer: &mut W,
    commands: &Iter<'_>,
    hidden: &Iter<'_>,
    names: &Iter<'_>,
) -> Result<(), WriteFailed>
    ensures { SendsOrPart result (W.contents writer.old) (W.contents writer.new) buffer.old.items buffer.new.items
        (plain_lines commands.now hidden.now names.now) }
{
    send_commands(buffer, writer, commands)?;
    send_names(buffer, writer, b"    < ", hidden)?;
    send_names(buffer, writer, b"    : ", names)
}

fn send_phase<W: Write>(
    buffer: &mut Vec<u8>,
    writer: &mut W,
    name: &[u8],
    phase: Phase,
) -> Result<(), WriteFailed>
    ensures { SendsOrPart result (W.contents writer.old) (W.contents writer.new) buffer.old.items buffer.new.items (line (phase_text name.now phase)) }
{
    match phase {
        Phase::Begun => send_line(buffer, writer, b"begun ", name),
        Phase::Done => send_line(buffer, writer, b"done ", name),
        Phase::Failed(status) => send_failed(buffer, writer, name, status),
    }
}

fn send_failed<W: Write>(
    buffer: &mut Vec<u8>,
    writer: &mut W,
    name: &[u8],
    status: u32,
) -> Result<(), WriteFailed>
    ensures { SendsOrPart result (W.contents writer.old) (W.contents writer.new) buffer.old.items buffer.new.items
        (line (codes "failed " ++ name.now ++ codes " " ++ decimal status)) }
{
    let mut digits = Buffer::new();
    send_both(buffer, writer, b"failed ", name)?;
    send_line(buffer, writer, b" ", digits.format(status).as_bytes())
}

pub(crate) fn send_commands<W: Write>(
    buffer: &mut Vec<u8>,
    writer: &mut W,
    commands: &Iter<'_>,
) -> Result<(), WriteFailed>
    ensures { SendsOrPart result (W.contents writer.old) (W.contents writer.new) buffer.old.items buffer.new.items
        (flat_map (λ c. line (command_text c)) commands.now) }
{
    for command in commands.iter() {
        send_command(buffer, writer, command)?;
    }
    Ok(())
}

fn send_command<W: Write>(
    buffer: &mut Vec<u8>,
    writer: &mut W,
    command: &[u8],
) -> Result<(), WriteFailed>
    ensures { SendsOrPart result (W.contents writer.old) (W.contents writer.new) buffer.old.items buffer.new.items (line (command_text command.now)) }
{
    let mut mark = b"    $ ";
    let mut rest = command;
    while let Some(end) = memchr(b'\n', rest) {
        let (text, after) = rest.split_at(end);
        send_line(buffer, writer, mark, text)?;
        mark = b"    > ";
        rest = &after[1..];
    }
    send_line(buffer, writer, mark, rest)
}

// One line for each name, the mark before it.
fn send_names<W: Write>(
    buffer: &mut Vec<u8>,
    writer: &mut W,
    mark: &[u8],
    names: &Iter<'_>,
) -> Result<(), WriteFailed>
    ensures { SendsOrPart result (W.contents writer.old) (W.contents writer.new) buffer.old.items buffer.new.items (flat_map (λ n. line (mark.now ++ n)) names.now) }
{
    for name in names.iter() {
        send_line(buffer, writer, mark, name)?;
    }
    Ok(())
}
