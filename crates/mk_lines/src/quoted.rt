//! Colons that a backslash quotes, which part no line.
ghost use Rattle.std.specs.Prelude.{◌≡◌, ◌<◌, length, IfSome, MatchOption};
ghost use Rattle.std.specs.List.{list_any};
ghost use Rattle.mk_lines.specs.References.{first_outside, Without};
ghost use Rattle.mk_lines.specs.Quoted.{IsColonCut, seen, quotes, without_quoted, signs_in};
ghost use Rattle.mk_lines.specs.Text.{is_backslash};
ghost use Rattle.mk_lines.specs.declared.reference.Place.TheVariants.{Outside};

use crate::lines::around;
use crate::reference::{Place, first_outside, is_found, next_place};
use mk_profile::Profile;

/// The byte as it is seen by who looks for signs.
pub fn seen(is_quoted: bool, byte: u8) -> u8
    ensures { result ≡ seen is_quoted byte }
{
    if is_quoted && byte == b':' {
        b'_'
    } else {
        byte
    }
}

/// Whether the byte quotes the next one.
pub fn quotes(is_quoted: bool, byte: u8) -> bool
    ensures { result ≡ quotes is_quoted byte }
{
    byte == b'\\' && !is_quoted
}

fn has_backslash(bytes: &[u8]) -> bool
    ensures { result ≡ list_any is_backslash bytes.now }
{
    bytes.contains(&b'\\')
}

/// The first place of one of two bytes outside references that is no quoted colon.
fn first_seen(bytes: &[u8], one: u8, other: u8) -> Option<usize>
    ensures found { result ≡ first_outside one other Outside (without_quoted bytes.now) }
    ensures within { IfSome result (λ at. at < length bytes.now) }
{
    let mut place = Place::Outside;
    let mut is_quoted = false;
    let mut at = 0;
    let mut rest = bytes;
    while let Some((byte, after)) = rest.split_first() {
        let byte_seen = seen(is_quoted, *byte);
        if is_found(place, byte_seen, one, other) {
            return Some(at);
        }
        place = next_place(place, byte_seen);
        is_quoted = quotes(is_quoted, *byte);
        at += 1;
        rest = after;
    }
    None
}

/// The same, where most texts have nothing that quotes.
#[tactic(auto, using(crate::proofs::QuotedLemmas::all_seen))]
fn first_unquoted(bytes: &[u8], one: u8, other: u8) -> Option<usize>
    ensures found { result ≡ first_outside one other Outside (without_quoted bytes.now) }
    ensures within { IfSome result (λ at. at < length bytes.now) }
{
    if has_backslash(bytes) {
        return first_seen(bytes, one, other);
    }
    first_outside(bytes, one, other)
}

/// The first place of a `=` or `:` outside references, in the wide profile of one that isn't quoted.
pub fn first_sign(profile: Profile, bytes: &[u8]) -> Option<usize>
    ensures found { result ≡ first_outside 61 58 Outside (signs_in profile bytes.now) }
    ensures within { IfSome result (λ at. at < length bytes.now) }
{
    if profile.is_wide() {
        return first_unquoted(bytes, b'=', b':');
    }
    first_outside(bytes, b'=', b':')
}

/// What stands before the first `:` outside references that isn't quoted, and what stands behind it.
pub fn split_at_colon(text: &[u8]) -> Option<(&[u8], &[u8])>
    ensures { MatchOption result (Without 58 58 (without_quoted text.now)) (λ parts. IsColonCut text.now parts.0.now parts.1.now) }
{
    match first_unquoted(text, b':', b':') {
        Some(at) => Some(around(text, at)),
        None => None,
    }
}
