//! Records as text: `done a.o $cc <a.h :a.c`, `failed a.o =2`, `kept begun a.o <a.h`.
//!
//! Behind the target a command has the mark `$`, a hidden name `<`, an explicit name `:` and a status `=`. A lone `:` says
//! that there are no explicit names; where none has the mark, they are unknown. Words are written as `bytes` has it.
use byte_strings::{ByteString, ByteStrings};
use row_files::{RowFault, Words, bytes};
use st_records::{Entry, Explicit, Phase, Record};
use std::alloc::{AllocError, Global};

fn push_marked(
    alloc: Global,
    items: &mut ByteStrings,
    text: &str,
    mark: char,
) -> Result<(), RowFault> {
    for word in text.split(' ') {
        match word.strip_prefix(mark) {
            None | Some("") => {}
            Some(item) => items.push(bytes::read(alloc, item)?.as_slice())?,
        }
    }
    Ok(())
}

fn marked(alloc: Global, text: &str, mark: char) -> Result<ByteStrings, RowFault> {
    let mut items = ByteStrings::empty(alloc);
    push_marked(alloc, &mut items, text, mark)?;
    Ok(items)
}

fn explicit(is_known: bool, names: ByteStrings) -> Explicit {
    if is_known {
        Explicit::Known(names)
    } else {
        Explicit::Unknown
    }
}

fn status_of(text: &str) -> Result<u32, RowFault> {
    let (_front, status) = text.split_once(" =").ok_or(RowFault::Word)?;
    Words { rest: status }
        .next()
        .parse::<u32>()
        .map_err(|_| RowFault::Word)
}

fn phase_of(kind: &str, text: &str) -> Result<Phase, RowFault> {
    match kind {
        "begun" => Ok(Phase::Begun),
        "done" => Ok(Phase::Done),
        "failed" => Ok(Phase::Failed(status_of(text)?)),
        _ => Err(RowFault::Word),
    }
}

fn entry_of(alloc: Global, phase: Phase, text: &str) -> Result<Entry, RowFault> {
    let commands = marked(alloc, text, '$')?;
    let hidden = marked(alloc, text, '<')?;
    let explicit = explicit(text.contains(" :"), marked(alloc, text, ':')?);
    Ok(Entry {
        phase,
        commands,
        hidden,
        explicit,
    })
}

fn done(target: ByteString, entry: Entry) -> Record {
    let Entry {
        phase: _,
        commands,
        hidden,
        explicit,
    } = entry;
    Record::Done {
        target,
        commands,
        hidden,
        explicit,
    }
}

fn unkept(target: ByteString, entry: Entry) -> Record {
    match entry.phase {
        Phase::Done => done(target, entry),
        Phase::Begun => {
            drop(entry);
            Record::Begun { target }
        }
        Phase::Failed(status) => {
            drop(entry);
            Record::Failed { target, status }
        }
    }
}

/// The record of what is said of a target, kept or not.
pub(crate) fn record(is_kept: bool, target: ByteString, entry: Entry) -> Record {
    if is_kept {
        Record::Kept { target, entry }
    } else {
        unkept(target, entry)
    }
}

fn record_of(alloc: Global, text: &str) -> Result<Record, RowFault> {
    let kept = text.strip_prefix("kept ");
    let mut words = Words {
        rest: kept.unwrap_or(text),
    };
    let kind = words.next();
    let text = words.rest;
    let phase = phase_of(kind, text)?;
    let target = ByteString::new(bytes::read(alloc, words.next())?);
    let entry = entry_of(alloc, phase, text)?;
    Ok(record(kept.is_some(), target, entry))
}

// A list grows here over any type, where what isn't taken is let go by one call.
fn add<T: Drop>(list: &mut Vec<T>, item: T) -> Result<(), AllocError> {
    list.push(item)?;
    Ok(())
}

fn push_records(alloc: Global, records: &mut Vec<Record>, text: &str) -> Result<(), RowFault> {
    for part in text.split(';') {
        let part = part.trim();
        if !part.is_empty() {
            add(records, record_of(alloc, part)?)?;
        }
    }
    Ok(())
}

/// The records of a text, with `;` between them.
pub fn records_of(alloc: Global, text: &str) -> Result<Vec<Record>, RowFault> {
    let mut records = Vec::new(alloc);
    push_records(alloc, &mut records, text)?;
    Ok(records)
}
