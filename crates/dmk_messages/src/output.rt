//! What goes out: the text of a listing, and one line with a fault or a note.
ghost use Rattle.std.specs.Prelude.{◌≡◌, ◌≤◌, true, length, take, OnOk, OnErr, IfOk, IfErr};
ghost use Rattle.std.specs.Io.KnownBytes.{Appends, Keeps};
ghost use Rattle.dmk_messages.specs.Messages.{SaysFault, note_lines};
ghost use Rattle.dmk_messages.specs.Output.{AppendsPart};
ghost use Rattle.dmk_messages.specs.declared.fault.Fault.TheVariants as faults;

use crate::fault::Fault;
use crate::messages::{Message, SOFT_EDGES_NOTE};
use byte_strings::ByteStrings;
use std::io::{self, Write};

/// Writes the text. A beginning of it may have gone out where the writer fails, but not all of it.
pub fn write_text<W: Write>(text: &[u8], writer: &mut W) -> Result<(), Fault>
    ensures whole { OnOk result (Appends (W.contents writer.old) (W.contents writer.new) text.now) }
    ensures part { OnErr result (AppendsPart (W.contents writer.old) (W.contents writer.new) text.now) }
    ensures cause { IfErr result (λ fault. fault ≡ faults.Write) }
{
    let mut rest = text;
    let mut tries = u64::MAX;
    while !rest.is_empty() {
        if tries == 0 {
            return Err(Fault::Write);
        }
        tries -= 1;
        let written = write_some(rest, writer)?;
        rest = &rest[written..];
    }
    Ok(())
}

// How many of the bytes were written, from the first on. A write that was interrupted wrote none.
fn write_some<W: Write>(bytes: &[u8], writer: &mut W) -> Result<usize, Fault>
    ensures some { IfOk result (λ n. (n ≤ length bytes.now) × Appends (W.contents writer.old) (W.contents writer.new) (take n bytes.now)) }
    ensures none { OnErr result (Keeps (W.contents writer.old) (W.contents writer.new)) }
    ensures cause { IfErr result (λ fault. fault ≡ faults.Write) }
{
    match writer.write(bytes) {
        Ok(0) => Err(Fault::Write),
        Ok(written) => Ok(written),
        Err(error) => match error.kind() {
            io::ErrorKind::Interrupted => Ok(0),
            _ => Err(Fault::Write),
        },
    }
}

/// Prints one line with the fault, and tells whether the whole line was taken.
pub fn print_fault<E: Write>(err: &mut E, message: Message<'_>) -> bool
    ensures { result ≡ true → SaysFault (E.contents err.old) (E.contents err.new) message.entry.fault.now }
{
    writeln!(err, "dmk: {message}").is_ok()
}

/// Says that soft edges are dropped, and tells whether the whole line was taken.
pub fn print_note<E: Write>(err: &mut E) -> bool
    ensures { result ≡ true → Appends (E.contents err.old) (E.contents err.new) (note_lines true) }
{
    writeln!(err, "dmk: {SOFT_EDGES_NOTE}").is_ok()
}

/// Prints lines behind the program's name. What can't be printed changes nothing.
pub fn print_lines<E: Write>(err: &mut E, lines: &ByteStrings) {
    for line in lines.iter() {
        let _ = err.write_all(b"dmk: ");
        let _ = err.write_all(line);
        let _ = err.write_all(b"\n");
    }
    let _ = err.flush();
}
