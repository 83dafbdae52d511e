//! Records of so many strings of so many bytes: what the limits say of them.
use crate::notation::record;
use byte_strings::{ByteString, ByteStrings};
use row_files::{RowFault, Words};
use st_records::{Entry, Explicit, Phase, Record};
use std::alloc::{AllocError, Global};

/// How many strings a list has, and how many bytes each of them.
#[derive(Clone, Copy)]
struct ListSize {
    count: usize,
    len: usize,
}

/// The bytes of a record's target, and the strings of its entry.
#[derive(Clone, Copy)]
struct RecordSize {
    target: usize,
    commands: ListSize,
    hidden: ListSize,
    explicit: ListSize,
}

/// So many bytes `x`.
fn repeated(alloc: Global, count: usize) -> Result<ByteString, AllocError> {
    Ok(ByteString::new(vec![in alloc; b'x'; count]?))
}

/// So many strings of so many bytes `x`.
fn strings(alloc: Global, size: ListSize) -> Result<ByteStrings, AllocError> {
    let string = repeated(alloc, size.len)?;
    let mut strings = ByteStrings::empty(alloc);
    push_times(&mut strings, string.as_slice(), size.count)?;
    Ok(strings)
}

fn push_times(strings: &mut ByteStrings, string: &[u8], count: usize) -> Result<(), AllocError> {
    for _ in 0..count {
        strings.push(string)?;
    }
    Ok(())
}

fn list_size(words: &mut Words<'_>) -> Result<ListSize, RowFault> {
    let count = words.number()?;
    let len = words.number()?;
    Ok(ListSize { count, len })
}

fn record_size(words: &mut Words<'_>) -> Result<RecordSize, RowFault> {
    let target = words.number()?;
    let commands = list_size(words)?;
    let hidden = list_size(words)?;
    let explicit = list_size(words)?;
    Ok(RecordSize {
        target,
        commands,
        hidden,
        explicit,
    })
}

fn entry(alloc: Global, size: RecordSize) -> Result<Entry, AllocError> {
    let commands = strings(alloc, size.commands)?;
    let hidden = strings(alloc, size.hidden)?;
    let explicit = Explicit::Known(strings(alloc, size.explicit)?);
    Ok(Entry {
        phase: Phase::Done,
        commands,
        hidden,
        explicit,
    })
}

fn measured(alloc: Global, is_kept: bool, size: RecordSize) -> Result<Record, AllocError> {
    let target = repeated(alloc, size.target)?;
    let entry = entry(alloc, size)?;
    Ok(record(is_kept, target, entry))
}

fn is_kept(word: &str) -> Result<bool, RowFault> {
    match word {
        "done" => Ok(false),
        "kept" => Ok(true),
        _ => Err(RowFault::Word),
    }
}

/// `check done BYTES COMMANDS BYTES HIDDEN BYTES EXPLICIT BYTES`: what is said of a record of so many strings of so many
/// bytes, its target first; and `check kept ..`.
pub(crate) fn checked(
    alloc: Global,
    said: &mut String,
    words: &mut Words<'_>,
) -> Result<(), RowFault> {
    let is_kept = is_kept(words.next())?;
    let size = record_size(words)?;
    Ok(say_checked(alloc, said, is_kept, size)?)
}

fn say_checked(
    alloc: Global,
    said: &mut String,
    is_kept: bool,
    size: RecordSize,
) -> Result<(), AllocError> {
    let record = measured(alloc, is_kept, size)?;
    let checked = record.check();
    drop(record);
    write!(said, "{checked:?}")
}
