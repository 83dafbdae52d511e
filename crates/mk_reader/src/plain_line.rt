//! Rule lines that hold no sign but one colon, as most lines of large makefiles do: each is looked at once.
ghost use Rattle.std.specs.Prelude.{◌≡◌, false, None, Ok, IfOk, IfSome};
ghost use Rattle.std.specs.List.{list_all};
ghost use Rattle.byte_strings.specs.Blanks.{first_word};
ghost use Rattle.mk_reader.specs.Form.{include_kind, statement_form};
ghost use Rattle.mk_reader.specs.Plain.{is_sign, is_quiet, may_include, IsPlainLine, IsPlainRule};
ghost use Rattle.mk_reader.specs.declared.form.Form.TheVariants as form;

use crate::item::{Recipe, Rule};
use crate::line_place::LinePlace;
use crate::statement::include_kind;
use byte_strings::{ByteString, first_word, trim};
use memchr::memchr;
use mk_lines::{around, begins_with, is_plain};
use mk_profile::Profile;
use std::alloc::AllocError;

fn is_sign(byte: u8) -> bool
    ensures { result ≡ is_sign byte }
{
    (byte == b'#')
        | (byte == b'$')
        | (byte == b':')
        | (byte == b';')
        | (byte == b'=')
        | (byte == b'\\')
}

/// Whether the byte stands for itself wherever it stands in a line.
fn is_quiet(byte: u8) -> bool
    ensures { result ≡ is_quiet byte }
{
    is_plain(byte) & !is_sign(byte)
}

fn has_quiet_bytes_alone(bytes: &[u8]) -> bool
    ensures { result ≡ list_all is_quiet bytes.now }
{
    // No byte ends the loop, so that many can be looked at at once.
    let mut is_alone = true;
    let mut at = 0;
    while at < bytes.len() {
        is_alone &= is_quiet(bytes[at]);
        at += 1;
    }
    is_alone
}

/// What stands around the colon of a line that holds no other sign.
fn around_colon(line: &[u8]) -> Option<(&[u8], &[u8])>
    ensures { IfSome result (λ parts. IsPlainLine line.now parts.0.now parts.1.now) }
{
    let at = memchr(b':', line)?;
    let (left, right) = around(line, at);
    if has_quiet_bytes_alone(left) && has_quiet_bytes_alone(right) {
        return Some((left, right));
    }
    None
}

/// Whether the line may be an include line, by its first byte alone.
fn may_include(line: &[u8]) -> bool
    ensures { result ≡ may_include line.now }
{
    match line.first() {
        Some(byte) => *byte == b'i' || *byte == b'-' || *byte == b's',
        None => false,
    }
}

/// Whether the line is an include line. Of few lines the whole first word has to be known.
#[tactic(auto, using(crate::proofs::PlainLemmas::not_opened))]
fn is_include(profile: Profile, line: &[u8]) -> bool
    ensures { result ≡ false → include_kind profile (first_word line.now) ≡ None }
{
    if !may_include(line) {
        return false;
    }
    match include_kind(profile, first_word(line)) {
        Some(_) => true,
        None => false,
    }
}

/// The targets and the prerequisites on such a line. Special rules and include lines are left to be read sign by sign.
#[tactic(auto, using(crate::proofs::PlainLemmas::plain_is))]
fn plain_parts(profile: Profile, text: &[u8]) -> Option<(&[u8], &[u8])>
    ensures { IfSome result (λ parts. IsPlainRule profile text.now parts.0.now parts.1.now) }
{
    let line = trim(text);
    let (left, right) = around_colon(line)?;
    let targets = trim(left);
    if targets.is_empty() || begins_with(targets, b'.') || is_include(profile, line) {
        return None;
    }
    Some((targets, trim(right)))
}

/// The rule on a line of this text, if it is such a line.
pub fn plain_rule(place: LinePlace<'_>, text: &[u8]) -> Result<Option<Rule>, AllocError>
    ensures { IfOk result (λ found. IfSome found (λ rule.
        statement_form place.entry.profile place.entry.file.now place.entry.number text.now
        ≡ Ok (form.Rule (record { special = None; rule = rule })))) }
{
    let Some((targets, prerequisites)) = plain_parts(place.profile, text) else {
        return Ok(None);
    };
    Ok(Some(Rule {
        file: place.file.share()?,
        line: place.number,
        is_double: false,
        targets: ByteString::from_slice(place.alloc, targets)?,
        prerequisites: ByteString::from_slice(place.alloc, prerequisites)?,
        recipe: Recipe::new(place.alloc),
    }))
}
