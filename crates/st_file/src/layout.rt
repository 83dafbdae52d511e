//! The header of a side, and the numbers of the format: little endian, at the front of some bytes.

ghost use Rattle.std.specs.Prelude.{◌≡◌, ◌≢◌, ◌↔◌, ℕ, ◌<◌, ◌^◌, List, [], ◌∷◌, ◌++◌, length, IsTrue, IfSome, IfNone, IfOk, IfErr};
ghost use Rattle.std.specs.Int.{w16, w32, w64, to_le_bytes};
ghost use Rattle.st_records.specs.declared.version.Version.TheVariants as versions;
ghost use Rattle.st_file.specs.Layout.{magic, version_number_in, header_text, header_text_in, IsReadIn, IsUnknownVersionIn, IsNamed, HasHeaderIn};
ghost use Rattle.st_file.specs.Side.{IsVoid, IsForeign, LacksHeaderIn};

use crate::fault::OpenFault;
use st_disk::Which;
use st_records::Form;

/// The bytes of a header, its gate among them.
pub const HEADER_BYTES: usize = 19;

const VERSION_PLACE: u64 = 9;

const GENERATION_PLACE: u64 = 11;

/// The two bytes at the front as a number, and the bytes after them.
fn u16_of(bytes: &[u8]) -> Option<(u16, &[u8])>
    ensures found { IfSome result (λ r. (r.0 < 2 ^ 16) × (bytes.now ≡ to_le_bytes w16 r.0 ++ r.1.now)) }
    ensures none { IfNone result (length bytes.now < 2) }
{
    if bytes.len() < 2 {
        return None;
    }
    let (front, rest) = bytes.split_at(2);
    Some((u16::from_le_bytes([front[0], front[1]]), rest))
}

/// The four bytes at the front as a number, and the bytes after them.
pub(crate) fn u32_of(bytes: &[u8]) -> Option<(u32, &[u8])>
    ensures found { IfSome result (λ r. (r.0 < 2 ^ 32) × (bytes.now ≡ to_le_bytes w32 r.0 ++ r.1.now)) }
    ensures none { IfNone result (length bytes.now < 4) }
{
    if bytes.len() < 4 {
        return None;
    }
    let (front, rest) = bytes.split_at(4);
    let number = u32::from_le_bytes([front[0], front[1], front[2], front[3]]);
    Some((number, rest))
}

/// The eight bytes at the front as a number, and the bytes after them.
fn u64_of(bytes: &[u8]) -> Option<(u64, &[u8])>
    ensures found { IfSome result (λ r. (r.0 < 2 ^ 64) × (bytes.now ≡ to_le_bytes w64 r.0 ++ r.1.now)) }
    ensures none { IfNone result (length bytes.now < 8) }
{
    if bytes.len() < 8 {
        return None;
    }
    let (front, rest) = bytes.split_at(8);
    let number = u64::from_le_bytes([
        front[0], front[1], front[2], front[3], front[4], front[5], front[6], front[7],
    ]);
    Some((number, rest))
}

/// The bytes behind the name that a state file begins with, after its gate.
fn after_name(bytes: &[u8]) -> Option<&[u8]>
    ensures found { IfSome result (λ rest. bytes.now ≡ magic ++ rest.now) }
    ensures none { IfNone result ((rest : List ℕ) → bytes.now ≢ magic ++ rest) }
{
    match bytes {
        [b'D', b'M', b'K', b'S', b'T', b'A', b'T', b'E', rest @ ..] => Some(rest),
        _ => None,
    }
}

/// Whether the side holds nothing yet.
pub(crate) fn is_void(bytes: &[u8]) -> bool
    ensures { IsTrue result ↔ IsVoid bytes.now }
{
    matches!(bytes, [] | [_] | [0, ..])
}

/// The bytes behind the name of a state file that isn't void.
fn opened(bytes: &[u8]) -> Option<&[u8]>
    requires { IsVoid bytes.now → ⊥ }
    ensures found { IfSome result (λ rest. IsNamed bytes.now rest.now) }
    ensures none { IfNone result (IsForeign bytes.now) }
{
    let (_gate, behind) = bytes.split_at(1);
    after_name(behind)
}

/// The number of the version whose records have this form.
fn version_number(form: Form) -> u16
    ensures { result ≡ version_number_in form }
{
    match form {
        Form::Old => 1,
        Form::Plain => 2,
        Form::Marked => 4,
    }
}

/// The form of the version that has this number, where that one is read.
fn form_of_number(newest: Form, number: u16) -> Option<Form>
    ensures found { IfSome result (λ form. IsReadIn newest form × (number ≡ version_number_in form)) }
    ensures none { IfNone result (IsUnknownVersionIn newest number) }
{
    if number > version_number(newest) {
        return None;
    }
    match number {
        1 => Some(Form::Old),
        2 => Some(Form::Plain),
        4 => Some(Form::Marked),
        _ => None,
    }
}

/// The form and the generation of a side that isn't void, and the bytes behind its header.
pub(crate) fn header_of(
    newest: Form,
    side: Which,
    bytes: &[u8],
) -> Result<(Form, u64, &[u8]), OpenFault>
    requires { IsVoid bytes.now → ⊥ }
    ensures whole { IfOk result (λ h. IsReadIn newest h.0 × HasHeaderIn bytes.now h.0 h.1 h.2.now) }
    ensures refused { IfErr result (LacksHeaderIn newest side bytes.now) }
{
    let Some(rest) = opened(bytes) else {
        return Err(OpenFault::NotState(side));
    };
    let Some((number, rest)) = u16_of(rest) else {
        return Err(OpenFault::Damaged(side, VERSION_PLACE));
    };
    let Some(form) = form_of_number(newest, number) else {
        return Err(OpenFault::UnknownVersion(side, number));
    };
    let Some((generation, rest)) = u64_of(rest) else {
        return Err(OpenFault::Damaged(side, GENERATION_PLACE));
    };
    if generation == 0 {
        return Err(OpenFault::Damaged(side, GENERATION_PLACE));
    }
    Ok((form, generation, rest))
}

/// What stands behind the gate of a side of version 2 that holds no records: the header, and the closed gate of its first
/// batch.
pub fn new_header(generation: u64) -> [u8; HEADER_BYTES]
    ensures { result ≡ header_text versions.Two generation ++ 0 ∷ [] }
{
    new_header_in(Form::Plain, generation)
}

/// The same of the version whose records have this form.
pub fn new_header_in(form: Form, generation: u64) -> [u8; HEADER_BYTES]
    ensures { result ≡ header_text_in form generation ++ 0 ∷ [] }
{
    let v = version_number(form).to_le_bytes();
    let g = generation.to_le_bytes();
    [
        b'D', b'M', b'K', b'S', b'T', b'A', b'T', b'E', v[0], v[1], g[0], g[1], g[2], g[3], g[4],
        g[5], g[6], g[7], 0,
    ]
}
