//! A graph in the language of dot (Graphviz, "DOT Language"; what stands in a label, "escString").

use mk_names::Names;
use st_answers::Edge;
use st_packed::PackedEntry;
use st_records::Phase;
use st_state::State;
use std::alloc::{AllocError, Global};

const HEX: &[u8; 16] = b"0123456789abcdef";

/// The whole text: a line for each name, and one for each edge.
pub fn text_of(
    alloc: Global,
    file: &str,
    state: &State,
    names: &Names,
    edges: &[Edge<'_>],
) -> Result<Vec<u8>, AllocError> {
    let mut text = Vec::from_slice(alloc, b"digraph ")?;
    append_quoted(&mut text, file.as_bytes())?;
    text.extend_from_slice(b" {\nrankdir=LR\nnode [shape=box]\n")?;
    for number in 0..names.len() {
        let name = names.name(number);
        append_node(&mut text, name, state.get(name))?;
    }
    for edge in edges {
        append_edge(&mut text, edge)?;
    }
    text.extend_from_slice(b"}\n")?;
    Ok(text)
}

fn append_node(
    text: &mut Vec<u8>,
    name: &[u8],
    known: Option<&PackedEntry>,
) -> Result<(), AllocError> {
    append_quoted(text, name)?;
    text.extend_from_slice(looks_of(known))?;
    append_label(text, name)?;
    text.extend_from_slice(b"\n")
}

/// What a name looks like, by how far its recipe came; one that is no target is round.
fn looks_of(known: Option<&PackedEntry>) -> &'static [u8] {
    let Some(entry) = known else {
        return b" [shape=ellipse]";
    };
    match entry.phase() {
        Phase::Done => b"",
        Phase::Begun => b" [color=orange]",
        Phase::Failed(_) => b" [color=red]",
    }
}

/// A label where the name itself would not be shown as it is quoted: there a backslash stands for itself only when it is doubled.
fn append_label(text: &mut Vec<u8>, name: &[u8]) -> Result<(), AllocError> {
    if is_plain(name) {
        return Ok(());
    }
    text.extend_from_slice(b" [label=\"")?;
    append_shown(text, name, b"\\\\x")?;
    text.extend_from_slice(b"\"]")
}

fn append_edge(text: &mut Vec<u8>, edge: &Edge<'_>) -> Result<(), AllocError> {
    append_quoted(text, edge.user)?;
    text.extend_from_slice(b" -> ")?;
    append_quoted(text, edge.prerequisite)?;
    if edge.hidden {
        text.extend_from_slice(b" [style=dashed]")?;
    }
    text.extend_from_slice(b"\n")
}

/// The name in quotes. No two names are quoted alike.
fn append_quoted(text: &mut Vec<u8>, name: &[u8]) -> Result<(), AllocError> {
    text.extend_from_slice(b"\"")?;
    append_shown(text, name, b"\\x")?;
    text.extend_from_slice(b"\"")
}

/// Nothing of the name is shown by its number.
fn is_plain(name: &[u8]) -> bool {
    std::str::from_utf8(name).is_ok() && !name.iter().any(|byte| is_control(*byte))
}

fn is_control(byte: u8) -> bool {
    byte < b' ' || byte == 0x7f
}

/// The name, with `mark` and a number in the place of control characters and of bytes that aren't UTF-8.
fn append_shown(text: &mut Vec<u8>, name: &[u8], mark: &[u8]) -> Result<(), AllocError> {
    for chunk in name.utf8_chunks() {
        for byte in chunk.valid().as_bytes() {
            append_byte(text, *byte, mark)?;
        }
        for byte in chunk.invalid() {
            append_number(text, *byte, mark)?;
        }
    }
    Ok(())
}

fn append_byte(text: &mut Vec<u8>, byte: u8, mark: &[u8]) -> Result<(), AllocError> {
    match byte {
        b'"' => text.extend_from_slice(b"\\\""),
        b'\\' => text.extend_from_slice(b"\\\\"),
        byte if is_control(byte) => append_number(text, byte, mark),
        byte => text.extend_from_slice(&[byte]),
    }
}

fn append_number(text: &mut Vec<u8>, byte: u8, mark: &[u8]) -> Result<(), AllocError> {
    text.extend_from_slice(mark)?;
    text.extend_from_slice(&[HEX[(byte / 16) as usize], HEX[(byte % 16) as usize]])
}
