//! The text of a batch, made whole before any of it is written.

ghost use Rattle.std.specs.Prelude.{◌≡◌, ◌⊎◌, ◌↔◌, ◌+◌, ◌<◌, ◌≤◌, ◌^◌, ◌++◌, ◌∷◌, [], length, IsTrue, IfOk, IfErr, OnOk, IsErrOf, MatchOption};
ghost use Rattle.std.specs.List.{AllByRecursion};
ghost use Rattle.st_records.specs.Limits.{IsGoodIn};
ghost use Rattle.st_file.specs.declared.commit_fault.CommitFault.TheVariants as faults;
ghost use Rattle.st_file.specs.Batch.{body_in, framed_in};
ghost use Rattle.st_file.specs.Grown.{IsFullIn};

use crate::batch::MAX_BODY_BYTES;
use crate::commit_fault::CommitFault;
use st_records::{Form, Record};
use std::alloc::{AllocError, Global};

/// The bytes that a side may have up to its closed gate.
pub const MAX_SIDE_BYTES: usize = 1 << 40;

/// The bytes of a batch beside its body: the gate and two lengths.
const BATCH_BYTES: usize = 9;

/// The bytes of a batch's two lengths.
const FRAME_BYTES: usize = 8;

/// What stands behind a gate at `end` of a batch of these records, and the closed gate that follows it.
pub(crate) fn text_at(
    alloc: Global,
    form: Form,
    end: usize,
    records: &[Record],
) -> Result<Vec<u8>, CommitFault>
    requires { AllByRecursion (IsGoodIn form) records.now }
    ensures text { IfOk result (λ text. text.items ≡ framed_in form records.now ++ 0 ∷ []) }
    ensures short { OnOk result (length (body_in form records.now) ≤ 2 ^ 30) }
    ensures room { IfOk result (λ text. end + length text.items ≤ 2 ^ 40) }
    ensures full { IsErrOf result faults.Full ↔ IsFullIn form end records.now }
    ensures causes { IfErr result (λ fault. (fault ≡ faults.Full) ⊎ (fault ≡ faults.OutOfMemory)) }
{
    let Some(length) = body_length(form, records) else {
        return Err(CommitFault::Full);
    };
    if !has_room(end, length) {
        return Err(CommitFault::Full);
    }
    Ok(batch_text(alloc, form, records, length)?)
}

/// Whether a batch of so long a body fits behind a gate at `end`.
fn has_room(end: usize, body_length: usize) -> bool
    requires { body_length ≤ 2 ^ 30 }
    ensures { IsTrue result ↔ (end + (9 + body_length) ≤ 2 ^ 40) }
{
    match MAX_SIDE_BYTES.checked_sub(end) {
        None => false,
        Some(room) => BATCH_BYTES + body_length <= room,
    }
}

/// The bytes of a batch's body; None where they are more than a body may have. It takes no memory.
fn body_length(form: Form, records: &[Record]) -> Option<usize>
    ensures { MatchOption result (2 ^ 30 < length (body_in form records.now))
        (λ n. (n ≡ length (body_in form records.now)) × (n ≤ 2 ^ 30)) }
{
    let mut room = MAX_BODY_BYTES;
    for event in records {
        room = event.room_left_in(form, room)?;
    }
    Some(MAX_BODY_BYTES - room)
}

/// What stands behind the gate of a batch of so long a body, and the closed gate that follows it. It grows once.
fn batch_text(
    alloc: Global,
    form: Form,
    records: &[Record],
    body_length: usize,
) -> Result<Vec<u8>, AllocError>
    requires good { AllByRecursion (IsGoodIn form) records.now }
    requires whole { body_length ≡ length (body_in form records.now) }
    requires short { body_length ≤ 2 ^ 30 }
    ensures { IfOk result (λ text. text.items ≡ framed_in form records.now ++ 0 ∷ []) }
{
    let mut text = Vec::with_capacity(alloc, FRAME_BYTES + body_length + 1)?;
    text.extend_from_slice(&(body_length as u32).to_le_bytes())?;
    text.extend_from_slice(&(records.len() as u32).to_le_bytes())?;
    for event in records {
        event.append_in(&mut text, form)?;
    }
    text.push(0)?;
    Ok(text)
}
