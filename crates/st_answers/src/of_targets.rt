//! The targets of a state, and what is told of one.

ghost use Rattle.std.specs.Prelude.{◌≡◌, ◌++◌, IfOk, OnOk, length};
ghost use Rattle.st_answers.specs.Answers.{phase_word, target_row, targets_text, is_target_of, commands_text, hidden_text};

use crate::line_text::{append_lines, append_row};
use st_packed::PackedEntry;
use st_records::Phase;
use st_state::State;
use std::alloc::{AllocError, Global};

/// A line for each target of the state, in byte order of the names: `done`, `begun` or `failed`, a TAB and the name.
pub fn targets(alloc: Global, state: &State) -> Result<Vec<u8>, AllocError>
    ensures { IfOk result (λ text. text.items ≡ targets_text state.now) }
{
    let named = state.in_byte_order(alloc)?;
    let mut text = Vec::new(alloc);
    for place in 0..named.len() {
        let (name, entry) = named.at(place);
        append_target(&mut text, name, entry)?;
    }
    Ok(text)
}

/// The line of one target.
pub(crate) fn append_target(
    text: &mut Vec<u8>,
    name: &[u8],
    entry: &PackedEntry,
) -> Result<(), AllocError>
    ensures { OnOk result (text.new.items ≡ text.old.items ++ target_row (name.now, entry.now)) }
{
    append_row(text, phase_word(entry.phase()), name)
}

fn phase_word(phase: Phase) -> &'static [u8]
    ensures { result.now ≡ phase_word phase }
{
    match phase {
        Phase::Begun => b"begun",
        Phase::Done => b"done",
        Phase::Failed(_) => b"failed",
    }
}

/// Writes the commands that are recorded of a target behind a text, a line each, and answers whether the state knows the target.
pub fn commands(state: &State, name: &[u8], text: &mut Vec<u8>) -> Result<bool, AllocError>
    ensures known { IfOk result (λ known. known ≡ is_target_of state.now name.now) }
    ensures text { OnOk result (text.new.items ≡ text.old.items ++ commands_text state.now name.now) }
{
    match state.get(name) {
        None => Ok(false),
        Some(entry) => {
            append_lines(text, &entry.commands())?;
            Ok(true)
        }
    }
}

/// The same of its hidden prerequisites, as they were last reported.
pub fn hidden(state: &State, name: &[u8], text: &mut Vec<u8>) -> Result<bool, AllocError>
    ensures known { IfOk result (λ known. known ≡ is_target_of state.now name.now) }
    ensures text { OnOk result (text.new.items ≡ text.old.items ++ hidden_text state.now name.now) }
{
    match state.get(name) {
        None => Ok(false),
        Some(entry) => {
            append_lines(text, &entry.hidden())?;
            Ok(true)
        }
    }
}
