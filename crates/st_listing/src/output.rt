//! Bytes on their way to a writer wait in a buffer, so that many go out in one call. Its room was taken before: nothing
//! here takes memory.
//! `BufWriter::write_all` says nothing of what went out before an error.

ghost use Rattle.std.specs.Prelude.{◌≡◌, ◌+◌, ◌≤◌, ◌++◌, [], length, take, vec_len, OnOk, OnErr, IfOk, vec_capacity};
ghost use Rattle.std.specs.Io.KnownBytes.{Appends, Keeps};
ghost use Rattle.st_listing.specs.Listing.{line};
ghost use Rattle.st_listing.specs.Writing.{AppendsPart, SendsOrPart};

use std::io::{self, Write};

/// The writer failed.
#[derive(Clone, Copy, Debug, PartialEq, Eq)]
pub struct WriteFailed;

/// Sends bytes behind those that wait.
#[inline(always)]
pub fn send<W: Write>(buffer: &mut Vec<u8>, writer: &mut W, bytes: &[u8]) -> Result<(), WriteFailed>
    ensures { SendsOrPart result (W.contents writer.old) (W.contents writer.new) buffer.old.items buffer.new.items bytes.now }
{
    if bytes.len() > buffer.capacity() - buffer.len() {
        return send_without_room(buffer, writer, bytes);
    }
    append(buffer, bytes);
    Ok(())
}

// Bytes that are longer than the buffer don't wait in it.
#[cold]
#[inline(never)]
fn send_without_room<W: Write>(
    buffer: &mut Vec<u8>,
    writer: &mut W,
    bytes: &[u8],
) -> Result<(), WriteFailed>
    ensures { SendsOrPart result (W.contents writer.old) (W.contents writer.new) buffer.old.items buffer.new.items bytes.now }
{
    write_waiting(buffer, writer)?;
    if bytes.len() > buffer.capacity() {
        return write_text(bytes, writer);
    }
    append(buffer, bytes);
    Ok(())
}

/// Writes what waits where there is no room for so many more bytes.
pub fn make_room<W: Write>(
    buffer: &mut Vec<u8>,
    writer: &mut W,
    more: usize,
) -> Result<(), WriteFailed>
    ensures { SendsOrPart result (W.contents writer.old) (W.contents writer.new) buffer.old.items buffer.new.items [] }
{
    if more > buffer.capacity() - buffer.len() {
        return write_waiting(buffer, writer);
    }
    Ok(())
}

fn write_waiting<W: Write>(buffer: &mut Vec<u8>, writer: &mut W) -> Result<(), WriteFailed>
    ensures sent { SendsOrPart result (W.contents writer.old) (W.contents writer.new) buffer.old.items buffer.new.items [] }
    ensures all { OnOk result (buffer.new.items ≡ []) }
    ensures len { OnOk result (vec_len buffer.new ≡ 0) }
{
    write_text(buffer.as_slice(), writer)?;
    buffer.clear();
    Ok(())
}

#[inline(always)]
fn append(buffer: &mut Vec<u8>, bytes: &[u8])
    requires { vec_len buffer.old + length bytes.now ≤ vec_capacity buffer.old }
    ensures { buffer.new.items ≡ buffer.old.items ++ bytes.now }
{
    buffer.extend_from_slice(bytes).unwrap();
}

/// Sends one text right behind the other.
#[inline(always)]
pub fn send_both<W: Write>(
    buffer: &mut Vec<u8>,
    writer: &mut W,
    first: &[u8],
    second: &[u8],
) -> Result<(), WriteFailed>
    ensures { SendsOrPart result (W.contents writer.old) (W.contents writer.new) buffer.old.items buffer.new.items (first.now ++ second.now) }
{
    send(buffer, writer, first)?;
    send(buffer, writer, second)
}

/// Sends a line of the listing: a mark, a text, and a newline.
#[inline(always)]
pub fn send_line<W: Write>(
    buffer: &mut Vec<u8>,
    writer: &mut W,
    mark: &[u8],
    text: &[u8],
) -> Result<(), WriteFailed>
    ensures { SendsOrPart result (W.contents writer.old) (W.contents writer.new) buffer.old.items buffer.new.items (line (mark.now ++ text.now)) }
{
    send_both(buffer, writer, mark, text)?;
    send(buffer, writer, b"\n")
}

/// Writes a text as a whole.
pub fn write_text<W: Write>(text: &[u8], writer: &mut W) -> Result<(), WriteFailed>
    ensures whole { OnOk result (Appends (W.contents writer.old) (W.contents writer.new) text.now) }
    ensures part { OnErr result (AppendsPart (W.contents writer.old) (W.contents writer.new) text.now) }
{
    let mut rest = text;
    let mut tries = u64::MAX;
    while !rest.is_empty() {
        if tries == 0 {
            return Err(WriteFailed);
        }
        tries -= 1;
        let written = write_some(rest, writer)?;
        rest = &rest[written..];
    }
    Ok(())
}

// How many of the bytes were written, from the first on. A write that was interrupted wrote none.
fn write_some<W: Write>(bytes: &[u8], writer: &mut W) -> Result<usize, WriteFailed>
    ensures some { IfOk result (λ n. (n ≤ length bytes.now) × Appends (W.contents writer.old) (W.contents writer.new) (take n bytes.now)) }
    ensures none { OnErr result (Keeps (W.contents writer.old) (W.contents writer.new)) }
{
    match writer.write(bytes) {
        Ok(0) => Err(WriteFailed),
        Ok(written) => Ok(written),
        Err(fault) => match fault.kind() {
            io::ErrorKind::Interrupted => Ok(0),
            _ => Err(WriteFailed),
        },
    }
}
