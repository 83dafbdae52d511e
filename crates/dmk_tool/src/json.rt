//! A compilation database as JSON text (Clang, "JSON Compilation Database Format").

use serde::Serialize;
use st_answers::Compilation;
use std::alloc::{AllocError, Global};

/// One entry, with its keys in the order in which they are written.
#[derive(Drop, Serialize)]
struct Entry<'a> {
    directory: &'a str,
    command: &'a str,
    file: &'a str,
    output: &'a str,
}

/// The text, an entry a line, and the targets whose entries are left out: JSON is Unicode text, and no text stands for bytes that
/// aren't UTF-8.
pub fn database<'a>(
    alloc: Global,
    directory: &'a str,
    compilations: &[Compilation<'a>],
) -> Result<(Vec<u8>, Vec<&'a [u8]>), AllocError> {
    let mut text = Vec::from_slice(alloc, b"[")?;
    let mut left = Vec::new(alloc);
    let mut before: &[u8] = b"\n";
    for compilation in compilations {
        let Some(entry) = entry_of(directory, compilation) else {
            left.push(compilation.output)?;
            continue;
        };
        let Ok(entry) = serde_json::to_string(alloc, &entry) else {
            return Err(AllocError);
        };
        text.extend_from_slice(before)?;
        text.extend_from_slice(entry.as_bytes())?;
        before = b",\n";
    }
    text.extend_from_slice(b"\n]\n")?;
    Ok((text, left))
}

fn entry_of<'a>(directory: &'a str, compilation: &Compilation<'a>) -> Option<Entry<'a>> {
    let Ok(command) = std::str::from_utf8(compilation.command) else {
        return None;
    };
    let Ok(file) = std::str::from_utf8(compilation.file) else {
        return None;
    };
    let Ok(output) = std::str::from_utf8(compilation.output) else {
        return None;
    };
    Some(Entry {
        directory,
        command,
        file,
        output,
    })
}
