//! From bytes to the record at their front, field by field from the left.

ghost use Rattle.std.specs.Prelude.{◌≡◌, ◌≤◌, ◌⊎◌, ℕ, false, List, length, take, IsTrue, IfOk, IfErr, IsOk, IsErrOf, Ok, Err};
ghost use Rattle.st_records.specs.declared.fault.DecodeFault.{DecodeFault};
ghost use Rattle.st_records.specs.declared.fault.DecodeFault.TheVariants as faults;
ghost use Rattle.st_records.specs.declared.record.Record.{Record};
ghost use Rattle.st_records.specs.declared.record.Record.TheVariants as records;
ghost use Rattle.st_records.specs.declared.record.Explicit.TheVariants as explicits;
ghost use Rattle.st_records.specs.Limits.{Encodes, EncodesIn};
ghost use Rattle.st_records.specs.Faults.{HasFault, HasFaultIn, HasWholeTarget};
ghost use Rattle.st_records.specs.Clean.{is_unclean, AreClean, IsCleanEntry, IsClean};
ghost use Rattle.st_records.specs.Parts.{names_known, explicit_from};
ghost use Rattle.st_records.specs.Reading.{Gives, Fails, made_at, then_at, lists_at, target_at, number_at, string_at, items_at, strings_at, no_status_at, status_at, phase_at, marked_at, done_explicit_at, kept_explicit_at, entry_at, record_at, good_at};

use crate::packed::PackedEntry;
use crate::packed_record::{Event, PackedRecord};
use byte_strings::{ByteString, Iter};
use st_records::{DecodeFault, Form, Named, Phase, Version, still_clean};
use std::alloc::Global;

/// The record at the front of the bytes of a file of this version, and how many bytes it has.
///
/// Fields are read from the left, and the check by the version's limits comes last. A length or a count is compared with
/// the bytes that are there before memory is taken for it.
pub fn decode(
    alloc: Global,
    version: Version,
    bytes: &[u8],
) -> Result<(PackedRecord, usize), DecodeFault>
    // What is read stands there.
    ensures found { IfOk result (λ x. (x.1 ≤ length bytes.now) × Encodes version x.0 (take x.1 bytes.now)) }
    // What stands there is read, unless memory runs out.
    ensures only { (r : Record) (n : ℕ) → n ≤ length bytes.now → Encodes version r (take n bytes.now) → Gives (λ x. x) result (Ok (r, n)) }
    // Nothing is read only where memory runs out or the bytes have that fault, and a fault that they have is answered.
    ensures cause { IfErr result (λ f. (f ≡ faults.OutOfMemory) ⊎ HasFault version f bytes.now) }
    ensures refused { (f : DecodeFault) → HasFault version f bytes.now → Gives (λ x. x) result (Err f) }
    // Memory may run out only where the first text is whole.
    ensures memory { IsErrOf result faults.OutOfMemory → HasWholeTarget bytes.now }
{
    decode_in(alloc, version.form(), bytes)
}

/// The same of the bytes of a file whose records have this form.
pub fn decode_in(
    alloc: Global,
    form: Form,
    bytes: &[u8],
) -> Result<(PackedRecord, usize), DecodeFault>
    ensures found { IfOk result (λ x. (x.1 ≤ length bytes.now) × EncodesIn form x.0 (take x.1 bytes.now)) }
    ensures only { (r : Record) (n : ℕ) → n ≤ length bytes.now → EncodesIn form r (take n bytes.now) → Gives (λ x. x) result (Ok (r, n)) }
    ensures cause { IfErr result (λ f. (f ≡ faults.OutOfMemory) ⊎ HasFaultIn form f bytes.now) }
    ensures refused { (f : DecodeFault) → HasFaultIn form f bytes.now → Gives (λ x. x) result (Err f) }
    ensures memory { IsErrOf result faults.OutOfMemory → HasWholeTarget bytes.now }
{
    let (record, rest) = good_of(alloc, form, bytes)?;
    Ok((record, bytes.len() - rest.len()))
}

#[tactic(auto, unfolding(st_records::specs::Reading::good_at))]
fn good_of(alloc: Global, form: Form, bytes: &[u8]) -> Result<(PackedRecord, &[u8]), DecodeFault>
    ensures gives { Gives (λ x. (x.0, x.1.now)) result (good_at form bytes.now) }
    ensures memory { IsErrOf result faults.OutOfMemory → IsOk (target_at bytes.now) }
{
    let mut clean = true;
    let (record, rest) = record_of(alloc, form, &mut clean, bytes)?;
    match record.fault_within(alloc, form, clean, bytes.len() - rest.len())? {
        None => Ok((record, rest)),
        Some(fault) => Err(DecodeFault::Check(fault)),
    }
}

#[tactic(auto, unfolding(st_records::specs::Reading::record_at, st_records::specs::Reading::target_at))]
fn record_of<'a>(
    alloc: Global,
    form: Form,
    clean: &mut bool,
    bytes: &'a [u8],
) -> Result<(PackedRecord, &'a [u8]), DecodeFault>
    ensures gives { Gives (λ x. (x.0, x.1.now)) result (record_at form bytes.now) }
    ensures clean { IfOk result (λ x. IsTrue clean.new → IsTrue clean.old × IsClean form x.0) }
    ensures memory { IsErrOf result faults.OutOfMemory → IsOk (target_at bytes.now) }
{
    match bytes {
        [] => Err(DecodeFault::Short),
        [1, rest @ ..] => begun_of(alloc, form, clean, rest),
        [2, rest @ ..] => done_of(alloc, form, clean, rest),
        [3, rest @ ..] => failed_of(alloc, form, clean, rest),
        [4, rest @ ..] => kept_of(alloc, form, clean, rest),
        [_, ..] => Err(DecodeFault::BadKind),
    }
}

fn begun_of<'a>(
    alloc: Global,
    form: Form,
    clean: &mut bool,
    bytes: &'a [u8],
) -> Result<(PackedRecord, &'a [u8]), DecodeFault>
    ensures gives { Gives (λ x. (x.0, x.1.now)) result (made_at records.Begun string_at bytes.now) }
    ensures clean { IfOk result (λ x. IsTrue clean.new → IsTrue clean.old × IsClean form x.0) }
    ensures memory { IsErrOf result faults.OutOfMemory → IsOk (string_at bytes.now) }
{
    let (target, rest) = string_of(alloc, form, clean, bytes)?;
    Ok((PackedRecord::new(target, Event::Begun), rest))
}

fn done_of<'a>(
    alloc: Global,
    form: Form,
    clean: &mut bool,
    bytes: &'a [u8],
) -> Result<(PackedRecord, &'a [u8]), DecodeFault>
    ensures gives { Gives (λ x. (x.0, x.1.now)) result (made_at (λ x. records.Done x.0 x.1.0 x.1.1.0 x.1.1.1) (then_at string_at (lists_at (done_explicit_at form))) bytes.now) }
    ensures clean { IfOk result (λ x. IsTrue clean.new → IsTrue clean.old × IsClean form x.0) }
    ensures memory { IsErrOf result faults.OutOfMemory → IsOk (string_at bytes.now) }
{
    let (target, rest) = string_of(alloc, form, clean, bytes)?;
    let (commands, rest) = strings_of(form, clean, rest)?;
    let (hidden, rest) = strings_of(form, clean, rest)?;
    let (explicit, rest) = done_explicit_of(form, clean, rest)?;
    let entry = PackedEntry::pack(alloc, Phase::Done, commands, hidden, explicit)?;
    Ok((PackedRecord::new(target, Event::Done(entry)), rest))
}

fn failed_of<'a>(
    alloc: Global,
    form: Form,
    clean: &mut bool,
    bytes: &'a [u8],
) -> Result<(PackedRecord, &'a [u8]), DecodeFault>
    ensures gives { Gives (λ x. (x.0, x.1.now)) result (made_at (λ x. records.Failed x.0 x.1) (then_at string_at status_at) bytes.now) }
    ensures clean { IfOk result (λ x. IsTrue clean.new → IsTrue clean.old × IsClean form x.0) }
    ensures memory { IsErrOf result faults.OutOfMemory → IsOk (string_at bytes.now) }
{
    let (target, rest) = string_of(alloc, form, clean, bytes)?;
    let (status, rest) = status_of(rest)?;
    Ok((PackedRecord::new(target, Event::Failed(status)), rest))
}

fn kept_of<'a>(
    alloc: Global,
    form: Form,
    clean: &mut bool,
    bytes: &'a [u8],
) -> Result<(PackedRecord, &'a [u8]), DecodeFault>
    ensures gives { Gives (λ x. (x.0, x.1.now)) result (made_at (λ x. records.Kept x.0 x.1) (then_at string_at (entry_at form)) bytes.now) }
    ensures clean { IfOk result (λ x. IsTrue clean.new → IsTrue clean.old × IsClean form x.0) }
    ensures memory { IsErrOf result faults.OutOfMemory → IsOk (string_at bytes.now) }
{
    let (target, rest) = string_of(alloc, form, clean, bytes)?;
    let (entry, rest) = entry_of(alloc, form, clean, rest)?;
    Ok((PackedRecord::new(target, Event::Kept(entry)), rest))
}

#[tactic(auto, unfolding(st_records::specs::Reading::entry_at))]
fn entry_of<'a>(
    alloc: Global,
    form: Form,
    clean: &mut bool,
    bytes: &'a [u8],
) -> Result<(PackedEntry, &'a [u8]), DecodeFault>
    ensures gives { Gives (λ x. (x.0, x.1.now)) result (entry_at form bytes.now) }
    ensures clean { IfOk result (λ x. IsTrue clean.new → IsTrue clean.old × IsCleanEntry form x.0) }
{
    let (phase, rest) = phase_of(bytes)?;
    let (commands, rest) = strings_of(form, clean, rest)?;
    let (hidden, rest) = strings_of(form, clean, rest)?;
    let (explicit, rest) = kept_explicit_of(form, clean, rest)?;
    let entry = PackedEntry::pack(alloc, phase, commands, hidden, explicit)?;
    Ok((entry, rest))
}

#[tactic(auto, unfolding(st_records::specs::Reading::done_explicit_at))]
fn done_explicit_of<'a>(
    form: Form,
    clean: &mut bool,
    bytes: &'a [u8],
) -> Result<(Named<'a>, &'a [u8]), DecodeFault>
    ensures gives { Gives (λ x. (explicit_from x.0, x.1.now)) result (done_explicit_at form bytes.now) }
    ensures clean { IfOk result (λ x. IsTrue clean.new → IsTrue clean.old × AreClean form (names_known (explicit_from x.0))) }
{
    match form {
        Form::Old => Ok((Named::Unknown, bytes)),
        Form::Plain => known_of(form, clean, bytes),
        Form::Marked => match bytes {
            [] => Err(DecodeFault::Short),
            [2, rest @ ..] => marked_of(form, clean, rest),
            [_, ..] => Err(DecodeFault::BadKind),
        },
    }
}

#[tactic(auto, unfolding(st_records::specs::Reading::kept_explicit_at))]
fn kept_explicit_of<'a>(
    form: Form,
    clean: &mut bool,
    bytes: &'a [u8],
) -> Result<(Named<'a>, &'a [u8]), DecodeFault>
    ensures gives { Gives (λ x. (explicit_from x.0, x.1.now)) result (kept_explicit_at form bytes.now) }
    ensures clean { IfOk result (λ x. IsTrue clean.new → IsTrue clean.old × AreClean form (names_known (explicit_from x.0))) }
{
    match form {
        Form::Old => Ok((Named::Unknown, bytes)),
        Form::Plain => match bytes {
            [] => Err(DecodeFault::Short),
            [0, rest @ ..] => Ok((Named::Unknown, rest)),
            [1, rest @ ..] => known_of(form, clean, rest),
            [_, ..] => Err(DecodeFault::BadKind),
        },
        Form::Marked => match bytes {
            [] => Err(DecodeFault::Short),
            [0, rest @ ..] => Ok((Named::Unknown, rest)),
            [1, rest @ ..] => known_of(form, clean, rest),
            [2, rest @ ..] => marked_of(form, clean, rest),
            [_, ..] => Err(DecodeFault::BadKind),
        },
    }
}

/// Explicit names.
fn known_of<'a>(
    form: Form,
    clean: &mut bool,
    bytes: &'a [u8],
) -> Result<(Named<'a>, &'a [u8]), DecodeFault>
    ensures gives { Gives (λ x. (explicit_from x.0, x.1.now)) result (made_at explicits.Known strings_at bytes.now) }
    ensures clean { IfOk result (λ x. IsTrue clean.new → IsTrue clean.old × AreClean form (names_known (explicit_from x.0))) }
{
    let (names, rest) = strings_of(form, clean, bytes)?;
    Ok((Named::Known(names), rest))
}

/// Explicit names and the text of their marks. Its low bytes say nothing of whether all else is clean.
fn marked_of<'a>(
    form: Form,
    clean: &mut bool,
    bytes: &'a [u8],
) -> Result<(Named<'a>, &'a [u8]), DecodeFault>
    ensures gives { Gives (λ x. (explicit_from x.0, x.1.now)) result (marked_at bytes.now) }
    ensures clean { IfOk result (λ x. IsTrue clean.new → IsTrue clean.old × AreClean form (names_known (explicit_from x.0))) }
{
    let (names, rest) = strings_of(form, clean, bytes)?;
    let (marks, rest) = text_of(rest)?;
    Ok((Named::Marked(names, marks), rest))
}

#[tactic(auto, unfolding(st_records::specs::Reading::phase_at))]
fn phase_of(bytes: &[u8]) -> Result<(Phase, &[u8]), DecodeFault>
    ensures { Gives (λ x. (x.0, x.1.now)) result (phase_at bytes.now) }
{
    match bytes {
        [] => Err(DecodeFault::Short),
        [1, rest @ ..] => Ok((Phase::Begun, no_status_of(rest)?)),
        [2, rest @ ..] => Ok((Phase::Done, no_status_of(rest)?)),
        [3, rest @ ..] => {
            let (status, rest) = status_of(rest)?;
            Ok((Phase::Failed(status), rest))
        }
        [_, ..] => Err(DecodeFault::BadKind),
    }
}

/// The status of what did not fail.
#[tactic(auto, unfolding(st_records::specs::Reading::no_status_at))]
fn no_status_of(bytes: &[u8]) -> Result<&[u8], DecodeFault>
    ensures { Gives (λ rest. (0, rest.now)) result (no_status_at bytes.now) }
{
    let (status, rest) = number_of(bytes)?;
    if status != 0 {
        return Err(DecodeFault::BadKind);
    }
    Ok(rest)
}

#[tactic(auto, unfolding(st_records::specs::Reading::status_at))]
fn status_of(bytes: &[u8]) -> Result<(u32, &[u8]), DecodeFault>
    ensures { Gives (λ x. (x.0, x.1.now)) result (status_at bytes.now) }
{
    let (status, rest) = number_of(bytes)?;
    if status > 256 {
        return Err(DecodeFault::BadKind);
    }
    Ok((status, rest))
}

#[tactic(auto, unfolding(st_records::specs::Reading::strings_at, st_records::specs::Reading::items_at))]
fn strings_of<'a>(
    form: Form,
    clean: &mut bool,
    bytes: &'a [u8],
) -> Result<(Iter<'a>, &'a [u8]), DecodeFault>
    ensures gives { Gives (λ x. (x.0, x.1.now)) result (strings_at bytes.now) }
    ensures clean { IfOk result (λ x. IsTrue clean.new → IsTrue clean.old × AreClean form x.0) }
{
    let (count, rest) = number_of(bytes)?;
    if count == 0 {
        return Ok((Iter::empty(), rest));
    }
    items_of(form, clean, count, rest)
}

/// So many strings, as they lie in the bytes.
fn items_of<'a>(
    form: Form,
    clean: &mut bool,
    count: u32,
    bytes: &'a [u8],
) -> Result<(Iter<'a>, &'a [u8]), DecodeFault>
    ensures gives { Gives (λ x. (x.0, x.1.now)) result (items_at count bytes.now) }
    ensures clean { IfOk result (λ x. IsTrue clean.new → IsTrue clean.old × AreClean form x.0) }
{
    let (found, behind) = behind_items(form, *clean, count, bytes)?;
    let (items, rest) = bytes.split_at(bytes.len() - behind.len());
    *clean = found;
    Ok((Iter::of_texts(count as usize, items), rest))
}

/// The bytes behind so many strings, and whether all is clean with them.
fn behind_items(
    form: Form,
    clean: bool,
    count: u32,
    bytes: &[u8],
) -> Result<(bool, &[u8]), DecodeFault>
    ensures items { IfOk result (λ x. (items : List (List ℕ)) × (items_at count bytes.now ≡ Ok (items, x.1.now))
        × (IsTrue x.0 → IsTrue clean × AreClean form items)) }
    ensures fault { IfErr result (λ fault. Fails fault (items_at count bytes.now)) }
{
    let mut found = clean;
    let mut rest = bytes;
    for _ in 0..count {
        let (item, after) = text_of(rest)?;
        found = still_clean(found, form, item);
        rest = after;
    }
    Ok((found, rest))
}

#[tactic(auto, unfolding(st_records::specs::Reading::string_at))]
fn string_of<'a>(
    alloc: Global,
    form: Form,
    clean: &mut bool,
    bytes: &'a [u8],
) -> Result<(ByteString, &'a [u8]), DecodeFault>
    ensures gives { Gives (λ x. (x.0, x.1.now)) result (string_at bytes.now) }
    ensures clean { IfOk result (λ x. IsTrue clean.new → IsTrue clean.old × (is_unclean form x.0 ≡ false)) }
    ensures memory { IsErrOf result faults.OutOfMemory → IsOk (string_at bytes.now) }
{
    let (text, rest) = text_of(bytes)?;
    *clean = still_clean(*clean, form, text);
    Ok((ByteString::from_slice(alloc, text)?, rest))
}

#[tactic(auto, unfolding(st_records::specs::Reading::string_at))]
fn text_of(bytes: &[u8]) -> Result<(&[u8], &[u8]), DecodeFault>
    ensures gives { Gives (λ x. (x.0.now, x.1.now)) result (string_at bytes.now) }
    ensures memory { IfErr result (λ f. f ≡ faults.Short) }
{
    let (len, rest) = number_of(bytes)?;
    let len = len as usize;
    if rest.len() < len {
        return Err(DecodeFault::Short);
    }
    Ok(rest.split_at(len))
}

fn number_of(bytes: &[u8]) -> Result<(u32, &[u8]), DecodeFault>
    ensures gives { Gives (λ x. (x.0, x.1.now)) result (number_at bytes.now) }
    ensures memory { IfErr result (λ f. f ≡ faults.Short) }
{
    if bytes.len() < 4 {
        return Err(DecodeFault::Short);
    }
    let (front, rest) = bytes.split_at(4);
    let number = u32::from_le_bytes([front[0], front[1], front[2], front[3]]);
    Ok((number, rest))
}
