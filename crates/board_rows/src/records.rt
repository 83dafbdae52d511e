//! The records of rows.
ghost use Rattle.std.specs.Prelude.{◌≤◌, IfOk, IsTrue};
ghost use Rattle.st_records.specs.Limits.{IsGood, SaysExplicit};
ghost use Rattle.st_records.specs.Parts.{status_of};
ghost use Rattle.st_records.specs.declared.version.Version.TheVariants.{Two};

use bd_ledger::Ticket;
use byte_strings::{ByteString, ByteStrings};
use row_files::{RowFault, Words};
use st_records::{Entry, Explicit, Phase, Record};
use std::alloc::{AllocError, Global};

fn has_listed_parts(note: &Record) -> bool
    ensures status { IsTrue result → status_of note.now ≤ 256 }
    ensures explicit { IsTrue result → SaysExplicit Two note.now }
{
    match note {
        Record::Begun { .. } => true,
        Record::Done { explicit, .. } => matches!(explicit, Explicit::Known(_)),
        Record::Failed { status, .. } => *status <= 256,
        Record::Kept { entry, .. } => {
            matches!(entry.phase, Phase::Done)
                && matches!(entry.explicit, Explicit::Unknown | Explicit::Known(_))
        }
    }
}

/// Whether a board may be handed the record.
fn is_good(note: &Record) -> bool
    ensures { IsTrue result → IsGood Two note.now }
{
    has_listed_parts(note) && note.check().is_ok()
}

/// The texts behind each ` $ `.
fn commands(alloc: Global, text: &str) -> Result<ByteStrings, AllocError> {
    let mut commands = ByteStrings::empty(alloc);
    if let Some(text) = text.strip_prefix("$ ") {
        for command in text.split(" $ ") {
            commands.push(command.as_bytes())?;
        }
    }
    Ok(commands)
}

fn done(alloc: Global, target: ByteString, text: &str) -> Result<Record, AllocError> {
    Ok(Record::Done {
        target,
        commands: commands(alloc, text)?,
        hidden: ByteStrings::empty(alloc),
        explicit: Explicit::Known(ByteStrings::empty(alloc)),
    })
}

fn kept(alloc: Global, target: ByteString) -> Record {
    Record::Kept {
        target,
        entry: Entry {
            phase: Phase::Done,
            commands: ByteStrings::empty(alloc),
            hidden: ByteStrings::empty(alloc),
            explicit: Explicit::Unknown,
        },
    }
}

/// The record of a target: `begun`, `done $ COMMAND $ ..`, `failed STATUS` or `kept`.
fn read(alloc: Global, target: ByteString, words: &mut Words<'_>) -> Result<Record, RowFault> {
    match words.next() {
        "begun" => Ok(Record::Begun { target }),
        "done" => Ok(done(alloc, target, words.rest)?),
        "failed" => match words.next().parse::<u32>() {
            Ok(status) => Ok(Record::Failed { target, status }),
            Err(_) => Err(RowFault::Word),
        },
        "kept" => Ok(kept(alloc, target)),
        _ => Err(RowFault::Word),
    }
}

/// A record that a board may be handed.
pub fn read_good(
    alloc: Global,
    target: ByteString,
    words: &mut Words<'_>,
) -> Result<Record, RowFault>
    ensures { IfOk result (IsGood Two) }
{
    let note = read(alloc, target, words)?;
    if is_good(&note) {
        return Ok(note);
    }
    drop(note);
    Err(RowFault::Word)
}

pub fn write_record(note: &Record, out: &mut String) -> Result<(), AllocError> {
    let target = note.target();
    match note {
        Record::Begun { .. } => write!(out, "{target} begun"),
        Record::Done { .. } => write!(out, "{target} done"),
        Record::Failed { status, .. } => write!(out, "{target} failed {status}"),
        Record::Kept { .. } => write!(out, "{target} kept"),
    }
}

/// Records with their tickets, as `0 a begun, 1 b failed 2`.
pub fn write_records(records: &[(Ticket, Record)], out: &mut String) -> Result<(), AllocError> {
    if records.is_empty() {
        return out.push_str("nothing");
    }
    let mut between = "";
    for (ticket, note) in records {
        write!(out, "{between}{} ", ticket.number())?;
        write_record(note, out)?;
        between = ", ";
    }
    Ok(())
}
