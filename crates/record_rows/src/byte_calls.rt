//! Calls of the bytes of records and of sides.
ghost use Rattle.std.specs.Prelude.{IfOk};
ghost use Rattle.st_records.specs.declared.record.Record.TheVariants as records;
ghost use Rattle.st_records.specs.Limits.{IsGoodIn};

use crate::measured::checked;
use crate::shown::say_once;
use row_files::{RowFault, Words, bytes};
use st_disk::Which;
use st_file::{Extent, OpenFault, read_side, side_of};
use st_packed::{Event, PackedEntry, PackedRecord, append_kept_in, decode_in, room_after_kept_in};
use st_records::{DecodeFault, Form, Record};
use std::alloc::{AllocError, Global};

/// What some bytes are read as.
#[derive(Clone, Copy)]
enum Reading {
    /// A record of a version, and how many bytes it has.
    Record(Form),
    /// How many bytes a record of a version has.
    Length(Form),
    /// A record of a version, which is written again.
    Written(Form),
    /// A kept record of a version, which is written again from its entry.
    Kept(Form),
    Side(Which),
    /// How many records side A has, and where they end.
    Extent,
}

/// The side that a word names.
pub fn side_named(word: &str) -> Result<Which, RowFault> {
    match word {
        "A" => Ok(Which::A),
        "B" => Ok(Which::B),
        _ => Err(RowFault::Word),
    }
}

/// Answers `check ..`, `each ..`, and what is read of all bytes.
pub(crate) fn call_bytes(
    alloc: Global,
    said: &mut String,
    name: &str,
    words: &mut Words<'_>,
) -> Result<(), RowFault> {
    match name {
        "check" => checked(alloc, said, words),
        "each" => each(alloc, said, words),
        _ => whole(alloc, said, name, words),
    }
}

/// `decode VERSION`, `length VERSION`, `encode VERSION`, `keep VERSION`, `side SIDE` or `extent`.
fn reading_of(name: &str, words: &mut Words<'_>) -> Result<Reading, RowFault> {
    match name {
        "side" => Ok(Reading::Side(side_named(words.next())?)),
        "extent" => Ok(Reading::Extent),
        _ => reading_in(name, version(words)?),
    }
}

fn reading_in(name: &str, form: Form) -> Result<Reading, RowFault> {
    match name {
        "decode" => Ok(Reading::Record(form)),
        "length" => Ok(Reading::Length(form)),
        "encode" => Ok(Reading::Written(form)),
        "keep" => Ok(Reading::Kept(form)),
        _ => Err(RowFault::Word),
    }
}

fn version(words: &mut Words<'_>) -> Result<Form, RowFault> {
    match words.next() {
        "1" => Ok(Form::Old),
        "2" => Ok(Form::Plain),
        "4" => Ok(Form::Marked),
        _ => Err(RowFault::Word),
    }
}

fn whole(
    alloc: Global,
    said: &mut String,
    name: &str,
    words: &mut Words<'_>,
) -> Result<(), RowFault> {
    let reading = reading_of(name, words)?;
    let bytes = bytes::read(alloc, words.next())?;
    Ok(say_read(alloc, said, reading, bytes.as_slice())?)
}

/// `each FROM TO CALL`: what is read of each beginning of the bytes, from one length up to but not including the other.
/// What is said again isn't told again.
fn each(alloc: Global, said: &mut String, words: &mut Words<'_>) -> Result<(), RowFault> {
    let from = words.number()?;
    let to = words.number()?;
    let reading = reading_of(words.next(), words)?;
    let bytes = bytes::read(alloc, words.next())?;
    say_beginnings(alloc, said, reading, &bytes, from, to)
}

fn say_beginnings(
    alloc: Global,
    said: &mut String,
    reading: Reading,
    bytes: &[u8],
    from: usize,
    to: usize,
) -> Result<(), RowFault> {
    for len in from..to {
        say_beginning(alloc, said, reading, bytes.get(..len))?;
    }
    Ok(())
}

fn say_beginning(
    alloc: Global,
    said: &mut String,
    reading: Reading,
    beginning: Option<&[u8]>,
) -> Result<(), RowFault> {
    let beginning = beginning.ok_or(RowFault::Word)?;
    let mut text = String::new(alloc);
    say_read(alloc, &mut text, reading, beginning)?;
    Ok(say_once(said, text.as_str())?)
}

/// Says what bytes hold, or the fault.
fn say_read(
    alloc: Global,
    said: &mut String,
    reading: Reading,
    bytes: &[u8],
) -> Result<(), AllocError> {
    match reading {
        Reading::Record(form) => say_record(alloc, said, form, bytes),
        Reading::Length(form) => say_length(alloc, said, form, bytes),
        Reading::Written(form) => say_written(alloc, said, form, bytes),
        Reading::Kept(form) => say_kept(alloc, said, form, bytes),
        Reading::Side(side) => write!(said, "{:?}", side_of(alloc, side, bytes)),
        Reading::Extent => say_extent(alloc, said, bytes),
    }
}

fn say_record(
    alloc: Global,
    said: &mut String,
    form: Form,
    bytes: &[u8],
) -> Result<(), AllocError> {
    match decode_in(alloc, form, bytes) {
        Ok((record, len)) => say_unpacked(alloc, said, &record, len),
        Err(fault) => write!(said, "{fault:?}"),
    }
}

fn say_unpacked(
    alloc: Global,
    said: &mut String,
    record: &PackedRecord,
    len: usize,
) -> Result<(), AllocError> {
    let record = record.unpack(alloc)?;
    let answered = write!(said, "{len}: {record:?}");
    drop(record);
    answered
}

/// How many bytes a record has.
fn length(alloc: Global, form: Form, bytes: &[u8]) -> Result<usize, DecodeFault> {
    let (_record, len) = decode_in(alloc, form, bytes)?;
    Ok(len)
}

fn say_length(
    alloc: Global,
    said: &mut String,
    form: Form,
    bytes: &[u8],
) -> Result<(), AllocError> {
    match length(alloc, form, bytes) {
        Ok(len) => write!(said, "{len} bytes"),
        Err(fault) => write!(said, "{fault:?}"),
    }
}

/// The record in bytes of this form.
fn good_of(alloc: Global, form: Form, bytes: &[u8]) -> Result<Record, DecodeFault>
    ensures { IfOk result (IsGoodIn form) }
{
    let (packed, _len) = decode_in(alloc, form, bytes)?;
    Ok(packed.unpack(alloc)?)
}

fn encoded(alloc: Global, form: Form, bytes: &[u8]) -> Result<Vec<u8>, DecodeFault> {
    let note = good_of(alloc, form, bytes)?;
    let encoded = note.encode_in(alloc, form);
    drop(note);
    Ok(encoded?)
}

fn say_written(
    alloc: Global,
    said: &mut String,
    form: Form,
    bytes: &[u8],
) -> Result<(), AllocError> {
    match encoded(alloc, form, bytes) {
        Ok(written) => bytes::say_all(said, written.as_slice()),
        Err(fault) => write!(said, "{fault:?}"),
    }
}

/// The kept record of an entry, and what it leaves of 100 bytes.
fn kept_bytes(
    alloc: Global,
    form: Form,
    name: &[u8],
    entry: &PackedEntry,
) -> Result<(Vec<u8>, Option<usize>), AllocError>
    requires { IsGoodIn form (records.Kept name.now entry.now) }
{
    let mut out = Vec::new(alloc);
    append_kept_in(&mut out, form, name, entry)?;
    Ok((out, room_after_kept_in(form, name, entry, 100)))
}

fn kept_again(
    alloc: Global,
    form: Form,
    bytes: &[u8],
) -> Result<(Vec<u8>, Option<usize>), DecodeFault> {
    let (record, _len) = decode_in(alloc, form, bytes)?;
    let (target, event) = record.into_parts();
    match event {
        Event::Kept(entry) => Ok(kept_bytes(alloc, form, target.as_slice(), &entry)?),
        event => {
            drop(event);
            Ok((Vec::new(alloc), None))
        }
    }
}

fn say_kept(alloc: Global, said: &mut String, form: Form, bytes: &[u8]) -> Result<(), AllocError> {
    match kept_again(alloc, form, bytes) {
        Ok((written, left)) => {
            bytes::say_all(said, written.as_slice())?;
            write!(said, " {left:?} of 100")
        }
        Err(fault) => write!(said, "{fault:?}"),
    }
}

/// What a side is, and how many records it has, or its fault.
fn extent_of(alloc: Global, bytes: &[u8]) -> Result<(Option<Extent>, usize), OpenFault> {
    let mut records: Vec<Record> = Vec::new(alloc);
    let extent = read_side(alloc, Which::A, bytes, &mut records);
    let count = records.len();
    drop(records);
    Ok((extent?, count))
}

fn say_extent(alloc: Global, said: &mut String, bytes: &[u8]) -> Result<(), AllocError> {
    match extent_of(alloc, bytes) {
        Ok((Some(extent), count)) => write!(said, "{count} records up to {}", extent.end),
        Ok((None, _)) => said.push_str("void"),
        Err(fault) => write!(said, "{fault}"),
    }
}
