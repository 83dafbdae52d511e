//! The text of a whole state, made before any of it is written.

ghost use Rattle.std.specs.Prelude.{◌≡◌, ◌⊎◌, ◌↔◌, ◌<◌, ◌≤◌, ◌^◌, ◌++◌, length, IfOk, IfErr, OnOk, IsErrOf, MatchOption};
ghost use Rattle.std.specs.List.{AllByRecursion};
ghost use Rattle.st_records.specs.Limits.{IsGoodIn};
ghost use Rattle.st_state.specs.Keepable.{kept_records, kept_bytes_in, AllCanBeKeptIn};
ghost use Rattle.st_file.specs.Layout.{header_text_in};
ghost use Rattle.st_file.specs.Batch.{body_in};
ghost use Rattle.st_file.specs.Grown.{IsFullIn};
ghost use Rattle.st_file.specs.declared.commit_fault.CommitFault.TheVariants as faults;
ghost use Rattle.st_compaction.specs.Compacted.{one_batch_in, compacted_bytes_in};
ghost use Rattle.st_compaction.specs.Named.{records_of_names};

use st_file::{CommitFault, HEADER_BYTES, MAX_BODY_BYTES, new_header_in};
use st_packed::append_kept_in;
use st_records::Form;
use st_state::{Listed, State};
use std::alloc::{AllocError, Global};

/// The bytes of a batch beside its body: the gate and two lengths.
const BATCH_BYTES: usize = 9;

/// What stands behind the first gate of a side that holds just this state, in this form and this generation. The fault is
/// `Full`, or want of memory: for the names in order, or for the text, which grows once.
pub(crate) fn compacted_text(
    alloc: Global,
    form: Form,
    generation: u64,
    state: &State,
) -> Result<Vec<u8>, CommitFault>
    requires { AllCanBeKeptIn form state.now }
    ensures text { IfOk result (λ text. text.items ≡ compacted_bytes_in form generation state.now) }
    ensures short { OnOk result (kept_bytes_in form state.now ≤ 2 ^ 30) }
    ensures full { IsErrOf result faults.Full ↔ IsFullIn form HEADER_BYTES (kept_records state.now) }
    ensures causes { IfErr result (λ fault. (fault ≡ faults.Full) ⊎ (fault ≡ faults.OutOfMemory)) }
{
    let Some(body_length) = body_length(form, state) else {
        return Err(CommitFault::Full);
    };
    let text = text_of(alloc, form, generation, state, body_length)?;
    Ok(text)
}

/// The bytes of the one batch's body, none of a state without entries; None where they are more than a body may have.
fn body_length(form: Form, state: &State) -> Option<usize>
    ensures { MatchOption result (2 ^ 30 < kept_bytes_in form state.now)
        (λ n. (n ≡ kept_bytes_in form state.now) × (n ≤ 2 ^ 30)) }
{
    let left = state.room_after_kept_in(form, MAX_BODY_BYTES)?;
    Some(MAX_BODY_BYTES - left)
}

fn text_of(
    alloc: Global,
    form: Form,
    generation: u64,
    state: &State,
    body_length: usize,
) -> Result<Vec<u8>, AllocError>
    requires keepable { AllCanBeKeptIn form state.now }
    requires whole { body_length ≡ kept_bytes_in form state.now }
    requires short { body_length ≤ 2 ^ 30 }
    ensures { IfOk result (λ text. text.items ≡ compacted_bytes_in form generation state.now) }
{
    let named = state.in_byte_order(alloc)?;
    let text = Vec::with_capacity(alloc, HEADER_BYTES + BATCH_BYTES + body_length)?;
    let text = with_header(text, form, generation)?;
    let mut text = with_batch(text, form, &named, body_length)?;
    text.push(0)?;
    Ok(text)
}

/// The text with a header behind it, without the gate at either end.
fn with_header(text: Vec<u8>, form: Form, generation: u64) -> Result<Vec<u8>, AllocError>
    ensures { IfOk result (λ longer. longer.items ≡ text.items ++ header_text_in form generation) }
{
    let mut text = text;
    let header = new_header_in(form, generation);
    text.extend_from_slice(&header[..HEADER_BYTES - 1])?;
    Ok(text)
}

/// The text with one batch behind it: an open gate and a kept record for each name. Without names it stays as it is.
fn with_batch(
    text: Vec<u8>,
    form: Form,
    named: &Listed<'_>,
    body_length: usize,
) -> Result<Vec<u8>, AllocError>
    requires good { AllByRecursion (IsGoodIn form) (records_of_names named.now) }
    requires whole { body_length ≡ length (body_in form (records_of_names named.now)) }
    requires short { body_length ≤ 2 ^ 30 }
    ensures { IfOk result (λ longer. longer.items ≡ text.items ++ one_batch_in form (records_of_names named.now)) }
{
    if named.len() == 0 {
        return Ok(text);
    }
    let mut text = text;
    text.push(1)?;
    text.extend_from_slice(&(body_length as u32).to_le_bytes())?;
    text.extend_from_slice(&(named.len() as u32).to_le_bytes())?;
    let text = with_records(text, form, named)?;
    Ok(text)
}

/// The text with a kept record for each name behind it.
fn with_records(text: Vec<u8>, form: Form, named: &Listed<'_>) -> Result<Vec<u8>, AllocError>
    requires { AllByRecursion (IsGoodIn form) (records_of_names named.now) }
    ensures { IfOk result (λ longer. longer.items ≡ text.items ++ body_in form (records_of_names named.now)) }
{
    let mut text = text;
    for place in 0..named.len() {
        let (name, entry) = named.at(place);
        append_kept_in(&mut text, form, name, entry)?;
    }
    Ok(text)
}
