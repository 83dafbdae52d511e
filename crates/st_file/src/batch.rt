//! One batch behind its gate: the body's length, the number of records, and the records.

ghost use Rattle.std.specs.Prelude.{◌≡◌, ◌≢◌, ◌↔◌, ℕ, ◌<◌, ◌≤◌, ◌^◌, List, ◌++◌, length, IsTrue, IfSome, IfNone, IfOk, OnErr, MatchBool, MatchOption};
ghost use Rattle.st_records.specs.declared.record.Record.{Record};
ghost use Rattle.st_records.specs.declared.fault.DecodeFault.TheVariants as decode_faults;
ghost use Rattle.st_records.specs.Encoding.{encoding_in, number};
ghost use Rattle.st_records.specs.Limits.{IsGoodIn};
ghost use Rattle.st_records.specs.Faults.{HasWholeTarget};
ghost use Rattle.st_file.specs.Sink.{AddsRecords};
ghost use Rattle.st_file.specs.Batch.{may_stand, framed_in, FillBatchIn, IsBodyIn, IsFramed, ComesToTargetIn};
ghost use Rattle.st_file.specs.Window.{IsEnough};

use crate::layout::u32_of;
use crate::sink::RecordSink;
use st_packed::{PackedRecord, decode_in};
use st_records::{DecodeFault, Form};
use std::alloc::{AllocError, Global};

/// The bytes that the body of a batch may have.
pub const MAX_BODY_BYTES: usize = 1 << 30;

/// The bytes of a batch before its body: its gate and two numbers.
pub(crate) const FRAME_BYTES: usize = 9;

/// The number of records, the body and what is behind it. None where they aren't all there or the body is too long.
fn frame_of(bytes: &[u8]) -> Option<(u32, &[u8], &[u8])>
    ensures found { IfSome result (λ f. (f.0 < 2 ^ 32) × (length f.1.now ≤ 2 ^ 30)
        × (bytes.now ≡ number (length f.1.now) ++ (number f.0 ++ (f.1.now ++ f.2.now)))) }
    ensures none { IfNone result ((count : ℕ) (body rest : List ℕ) → length body ≤ 2 ^ 30 → bytes.now
        ≢ number (length body) ++ (number count ++ (body ++ rest))) }
{
    let (length, rest) = u32_of(bytes)?;
    let (count, rest) = u32_of(rest)?;
    let length = length as usize;
    if length > MAX_BODY_BYTES || length > rest.len() {
        return None;
    }
    let (body, rest) = rest.split_at(length);
    Some((count, body, rest))
}

/// Whether a decoder ran out of memory.
fn is_want_of_memory(fault: &DecodeFault) -> bool
    ensures { IsTrue result ↔ (fault.now ≡ decode_faults.OutOfMemory) }
{
    matches!(fault, DecodeFault::OutOfMemory)
}

/// The record of this form at the front, and the bytes behind it. None where no good record begins the bytes.
fn record_of(
    alloc: Global,
    form: Form,
    bytes: &[u8],
) -> Result<Option<(PackedRecord, &[u8])>, AllocError>
    ensures found { IfOk result (λ o. IfSome o (λ f. IsGoodIn form f.0
        × (bytes.now ≡ encoding_in form f.0 ++ f.1.now))) }
    ensures none { IfOk result (λ o. IfNone o ((r : Record) (rest : List ℕ) → IsGoodIn form r
        → bytes.now ≢ encoding_in form r ++ rest)) }
    ensures memory { OnErr result (HasWholeTarget bytes.now) }
{
    match decode_in(alloc, form, bytes) {
        Ok((record, length)) => {
            let (_text, rest) = bytes.split_at(length);
            Ok(Some((record, rest)))
        }
        Err(fault) => {
            if is_want_of_memory(&fault) {
                return Err(AllocError);
            }
            Ok(None)
        }
    }
}

/// Whether this record may stand in a batch, a side's first or a later one.
fn is_allowed(first: bool, event: &PackedRecord) -> bool
    ensures { result ≡ may_stand first event.now }
{
    first || !event.is_kept()
}

/// Reads all of a body and hands its records on. False where the body isn't just so many records that may stand there.
fn read_body<S: RecordSink>(
    alloc: Global,
    form: Form,
    first: bool,
    count: u32,
    body: &[u8],
    sink: &mut S,
) -> Result<bool, AllocError>
    ensures whole { IfOk result (λ whole. MatchBool whole
        ((rs : List Record) × IsBodyIn form first count rs body.now × AddsRecords S.has_taken sink.old sink.new rs)
        ((rs : List Record) → IsBodyIn form first count rs body.now → ⊥)) }
    ensures memory { OnErr result (ComesToTargetIn form first count body.now) }
{
    let mut rest = body;
    for _ in 0..count {
        let Some((record, behind)) = record_of(alloc, form, rest)? else {
            return Ok(false);
        };
        if !is_allowed(first, &record) {
            return Ok(false);
        }
        sink.take(alloc, record)?;
        rest = behind;
    }
    Ok(rest.is_empty())
}

/// Reads the batch whose gate stands before these bytes, hands its records on and answers the bytes behind it. None
/// where no batch goes on so.
pub(crate) fn read_batch<'a, S: RecordSink>(
    alloc: Global,
    form: Form,
    first: bool,
    bytes: &'a [u8],
    sink: &mut S,
) -> Result<Option<&'a [u8]>, AllocError>
    ensures found { IfOk result (λ o. IfSome o (λ rest. (rs : List Record) × FillBatchIn form first rs
        × (bytes.now ≡ framed_in form rs ++ rest.now) × AddsRecords S.has_taken sink.old sink.new rs)) }
    ensures none { IfOk result (λ o. IfNone o ((rs : List Record) (rest : List ℕ) → FillBatchIn form first rs
        → bytes.now ≢ framed_in form rs ++ rest)) }
    ensures memory { OnErr result ((frame : IsFramed bytes.now) × ComesToTargetIn form first frame.count frame.text) }
{
    let Some((count, body, rest)) = frame_of(bytes) else {
        return Ok(None);
    };
    if count == 0 {
        return Ok(None);
    }
    if !read_body(alloc, form, first, count, body, sink)? {
        return Ok(None);
    }
    Ok(Some(rest))
}

/// How many bytes, of so many that are left of a side, have to be in memory for the batch that these begin with: all of it, as
/// far as its length can be believed, else its gate.
pub(crate) fn batch_len(front: &[u8], left: usize) -> usize
    requires some { 0 < left }
    requires within { length front.now ≤ left }
    ensures some { 0 < result }
    ensures within { result ≤ left }
    ensures enough { IsEnough front.now left result }
{
    if front.is_empty() {
        return 1;
    }
    let (_gate, frame) = front.split_at(1);
    let Some((length, _count)) = u32_of(frame) else {
        return 1;
    };
    let length = length as usize;
    if length > MAX_BODY_BYTES || length + FRAME_BYTES > left {
        return 1;
    }
    length + FRAME_BYTES
}

// A record of an empty text has as many.
const LEAST_RECORD_BYTES: usize = 5;

// The record of a recipe that begins starts with it.
const BEGUN_BYTE: u8 = 1;

/// About how many names so many records of these batches have: half as many where the first is that of a recipe that begins, which leaves
/// another as it ends, and else one each, as where names were kept.
fn names_of(batches: &[u8], records: usize) -> usize {
    if batches.get(FRAME_BYTES) == Some(&BEGUN_BYTE) {
        records / 2
    } else {
        records
    }
}

// By the numbers of records alone a damaged file would take what memory it likes. Room for a name for each record of a log, which
// mostly has two for a target, was 0.5 MB too much at 49,000 targets (27 November 2026).
/// About how many names the batches have, as far as their bodies bear out the records that they say they have. It only
/// decides how much memory is taken at once.
pub(crate) fn names_in(batches: &[u8]) -> usize {
    let mut records: usize = 0;
    let mut rest = batches;
    while !rest.is_empty() && rest[0] != 0 {
        let (_gate, behind) = rest.split_at(1);
        let Some((count, body, after)) = frame_of(behind) else {
            break;
        };
        records = records.saturating_add((count as usize).min(body.len() / LEAST_RECORD_BYTES));
        rest = after;
    }
    names_of(batches, records)
}

/// About how many names so many bytes of batches have, by the first of them. It only decides how much memory is taken at
/// once.
pub(crate) fn names_about(batches: &[u8], left: usize) -> usize {
    let mut records: usize = 0;
    let mut bytes: usize = 0;
    let mut rest = batches;
    while rest.len() >= FRAME_BYTES && rest[0] != 0 {
        let length = u32::from_le_bytes([rest[1], rest[2], rest[3], rest[4]]) as usize;
        let count = u32::from_le_bytes([rest[5], rest[6], rest[7], rest[8]]) as usize;
        records = records.saturating_add(count.min(length / LEAST_RECORD_BYTES));
        bytes = bytes.saturating_add(length + FRAME_BYTES);
        if length + FRAME_BYTES > rest.len() {
            break;
        }
        rest = &rest[length + FRAME_BYTES..];
    }
    if bytes == 0 {
        return 0;
    }
    let about = (records.saturating_mul(left) / bytes).min(left / LEAST_RECORD_BYTES);
    names_of(batches, about.saturating_add(about / 64))
}
