//! The whole state: in the form of dmk_state's listing, or as JSON text (RFC 8259), an object a target, each in a line of its own.

use crate::answers::Fault;
use base64::engine::general_purpose::STANDARD;
use serde::Serialize;
use st_listing::write_listing;
use st_marks::{Mark, Marks, Parts, mark_text, parts_of};
use st_packed::PackedEntry;
use st_records::{Iter, Named, Phase};
use st_state::State;
use std::alloc::{AllocError, Global};

/// A target. Fields that don't stand there are left out, but for the explicit prerequisites, which are null where none are recorded.
#[derive(Drop, Serialize)]
struct Target {
    name: String,
    #[serde(skip_serializing_if = "Option::is_none")]
    name_base64: Option<String>,
    state: &'static str,
    #[serde(skip_serializing_if = "Option::is_none")]
    status: Option<u32>,
    #[serde(skip_serializing_if = "Option::is_none")]
    marks: Option<Vec<String>>,
    commands: Vec<Command>,
    #[serde(skip_serializing_if = "Option::is_none")]
    inferred: Option<File>,
    explicit: Option<Vec<File>>,
    hidden: Vec<File>,
}

#[derive(Drop, Serialize)]
struct Command {
    command: String,
    #[serde(skip_serializing_if = "Option::is_none")]
    command_base64: Option<String>,
}

/// A prerequisite, with its mark in the words of a listing.
#[derive(Drop, Serialize)]
struct File {
    name: String,
    #[serde(skip_serializing_if = "Option::is_none")]
    name_base64: Option<String>,
    #[serde(skip_serializing_if = "Option::is_none")]
    mark: Option<String>,
}

/// Bytes as text, with U+FFFD for what isn't UTF-8; then the bytes stand beside it.
#[derive(Drop)]
struct Shown {
    text: String,
    base64: Option<String>,
}

/// What a target was made of.
#[derive(Drop)]
struct Files {
    marks: Option<Vec<String>>,
    inferred: Option<File>,
    explicit: Option<Vec<File>>,
    hidden: Vec<File>,
}

/// All that the state has.
pub fn listing_of(alloc: Global, state: &State, json: bool) -> Result<Vec<u8>, Fault> {
    if json {
        return Ok(lines_of(alloc, state)?);
    }
    let mut text = Vec::new(alloc);
    match write_listing(alloc, state, &mut text) {
        Ok(()) => Ok(text),
        Err(_) => Err(Fault::OutOfMemory),
    }
}

fn lines_of(alloc: Global, state: &State) -> Result<Vec<u8>, AllocError> {
    let named = state.in_byte_order(alloc)?;
    let mut text = Vec::new(alloc);
    for place in 0..named.len() {
        let (name, entry) = named.at(place);
        let target = target_of(alloc, name, entry)?;
        let Ok(line) = serde_json::to_string(alloc, &target) else {
            return Err(AllocError);
        };
        text.extend_from_slice(line.as_bytes())?;
        text.extend_from_slice(b"\n")?;
    }
    Ok(text)
}

fn target_of(alloc: Global, name: &[u8], entry: &PackedEntry) -> Result<Target, AllocError> {
    let Shown { text, base64 } = show(alloc, name)?;
    let (state, status) = match entry.phase() {
        Phase::Begun => ("begun", None),
        Phase::Done => ("done", None),
        Phase::Failed(status) => ("failed", Some(status)),
    };
    let commands = commands_of(alloc, &entry.commands())?;
    let Files {
        marks,
        inferred,
        explicit,
        hidden,
    } = files_of(alloc, entry)?;
    Ok(Target {
        name: text,
        name_base64: base64,
        state,
        status,
        marks,
        commands,
        inferred,
        explicit,
        hidden,
    })
}

fn show(alloc: Global, bytes: &[u8]) -> Result<Shown, AllocError> {
    let base64 = match std::str::from_utf8(bytes) {
        Ok(_) => None,
        Err(_) => Some(STANDARD.encode(alloc, bytes)?),
    };
    let text = String::from_utf8_lossy(alloc, bytes)?;
    Ok(Shown { text, base64 })
}

fn commands_of(alloc: Global, commands: &Iter<'_>) -> Result<Vec<Command>, AllocError> {
    let mut all = Vec::new(alloc);
    for command in commands.iter() {
        let Shown { text, base64 } = show(alloc, command)?;
        all.push(Command {
            command: text,
            command_base64: base64,
        })?;
    }
    Ok(all)
}

fn files_of(alloc: Global, entry: &PackedEntry) -> Result<Files, AllocError> {
    let hidden = entry.hidden();
    match entry.lend() {
        Named::Unknown => plain(alloc, None, None, &hidden),
        Named::Known(names) => plain(alloc, None, Some(names), &hidden),
        Named::Marked(names, text) => match parts_of(text, names.len(), hidden.len()) {
            Some(parts) => marked(alloc, &names, &hidden, parts),
            None => {
                let mut marks = Vec::new(alloc);
                marks.push(String::from_str(alloc, "unreadable")?)?;
                plain(alloc, Some(marks), Some(names), &hidden)
            }
        },
    }
}

fn plain(
    alloc: Global,
    marks: Option<Vec<String>>,
    names: Option<Iter<'_>>,
    hidden: &Iter<'_>,
) -> Result<Files, AllocError> {
    let explicit = match names {
        None => None,
        Some(names) => Some(all_of(alloc, &names, None)?),
    };
    Ok(Files {
        marks,
        inferred: None,
        explicit,
        hidden: all_of(alloc, hidden, None)?,
    })
}

fn marked(
    alloc: Global,
    names: &Iter<'_>,
    hidden: &Iter<'_>,
    parts: Parts<'_>,
) -> Result<Files, AllocError> {
    let mut marks = Vec::new(alloc);
    for mark in parts.files {
        marks.push(words_of(alloc, mark)?)?;
    }
    let mut of_source = parts.of_source;
    let inferred = match parts.source {
        None => None,
        Some(name) => Some(one_of(alloc, name, of_source.first())?),
    };
    Ok(Files {
        marks: Some(marks),
        inferred,
        explicit: Some(all_of(alloc, names, Some(parts.explicit))?),
        hidden: all_of(alloc, hidden, Some(parts.hidden))?,
    })
}

/// The names, each with its mark where there are marks.
fn all_of(
    alloc: Global,
    names: &Iter<'_>,
    marks: Option<Marks<'_>>,
) -> Result<Vec<File>, AllocError> {
    let mut all = Vec::new(alloc);
    let mut left = marks;
    for name in names.iter() {
        let mark = match &mut left {
            None => None,
            Some(marks) => marks.first(),
        };
        all.push(one_of(alloc, name, mark)?)?;
    }
    Ok(all)
}

fn one_of(alloc: Global, name: &[u8], mark: Option<Mark>) -> Result<File, AllocError> {
    let Shown { text, base64 } = show(alloc, name)?;
    let mark = match mark {
        None => None,
        Some(mark) => Some(words_of(alloc, mark)?),
    };
    Ok(File {
        name: text,
        name_base64: base64,
        mark,
    })
}

fn words_of(alloc: Global, mark: Mark) -> Result<String, AllocError> {
    let words = mark_text(mark);
    String::from_utf8_lossy(alloc, words.as_slice())
}
