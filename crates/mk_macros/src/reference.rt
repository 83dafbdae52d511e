// The forms that a text is made of: plain bytes and references.
ghost use Rattle.std.specs.Prelude.{◌≡◌, ◌+◌, ◌<◌, ◌≤◌, ◌^◌, false, length, Some, IfSome};
ghost use Rattle.mk_profile.specs.Profile.{is_wide};
ghost use Rattle.mk_macros.specs.Reference.{reference, named, front, in_brackets, behind_dollar, next_depth, closing_from, closing, closed_at, character_len};
ghost use Rattle.mk_macros.specs.Words.{place_of};
ghost use Rattle.mk_macros.specs.Shown.{shown_front, shown_piece, shown_use, inner_len};

use crate::substitution::{Pattern, WordChange, place_of};
use bstr::decode_utf8;
use mk_profile::Profile;

/// What a reference takes of its macro's value.
#[derive(Clone, Copy)]
pub(crate) enum Use<'a> {
    Whole,
    Words(WordChange<'a>),
}

/// One form of a text.
#[derive(Clone, Copy)]
pub(crate) enum Piece<'a> {
    Plain(&'a [u8]),
    Reference(&'a [u8], Use<'a>),
    Unclosed,
    /// Brackets that hold a `$`.
    Nested(&'a [u8]),
}

/// The first piece of a text, and what stands behind it.
pub(crate) fn next_piece(profile: Profile, text: &[u8]) -> Option<(Piece<'_>, &[u8])>
    ensures front { shown_front result ≡ front (is_wide profile) text.now }
    ensures shorter { IfSome result (λ found. inner_len (shown_piece found.0) + length found.1.now < length text.now) }
{
    let (first, behind) = text.split_first()?;
    if *first == b'$' {
        return Some(after_dollar(profile, behind));
    }
    match place_of(text, b'$') {
        None => Some((Piece::Plain(text), &[])),
        Some(end) => Some((Piece::Plain(&text[..end]), &text[end..])),
    }
}

fn after_dollar(profile: Profile, text: &[u8]) -> (Piece<'_>, &[u8])
    ensures front { shown_front (Some result) ≡ behind_dollar (is_wide profile) text.now }
    ensures shorter { inner_len (shown_piece result.0) + length result.1.now ≤ length text.now }
{
    let Some((first, behind)) = text.split_first() else {
        return (Piece::Plain(b"$"), text);
    };
    match *first {
        b'$' => (Piece::Plain(b"$"), behind),
        b'(' => bracketed(behind, closing(profile, behind, b'(', b')')),
        b'{' => bracketed(behind, closing(profile, behind, b'{', b'}')),
        _ => {
            let end = character_len(text);
            (Piece::Reference(&text[..end], Use::Whole), &text[end..])
        }
    }
}

/// How many bytes the first character takes. What is no UTF-8 is taken byte by byte.
fn character_len(text: &[u8]) -> usize
    requires { 0 < length text.now }
    ensures value { result ≡ character_len text.now }
    ensures within { result ≤ length text.now }
{
    match decode_utf8(text) {
        (Some(_), size) => size,
        (None, _) => 1,
    }
}

/// Within how many references in the same brackets the byte behind this one stands.
fn next_depth(opening: u8, close: u8, depth: usize, is_behind_dollar: bool, byte: u8) -> usize
    requires { depth + 1 < 2 ^ 64 }
    ensures { result ≡ next_depth opening close depth is_behind_dollar byte }
{
    if is_behind_dollar {
        if byte == opening { depth + 1 } else { depth }
    } else if byte == close {
        depth.saturating_sub(1)
    } else {
        depth
    }
}

/// The first closing byte outside the references in the same brackets. Counting takes no memory, however deep they are.
fn closing_outside(text: &[u8], opening: u8, close: u8) -> Option<usize>
    ensures value { result ≡ closing_from opening close 0 false text.now }
    ensures within { IfSome result (λ place. place < length text.now) }
{
    let mut depth = 0;
    let mut is_behind_dollar = false;
    let mut at = 0;
    while at < text.len() {
        let byte = text[at];
        if !is_behind_dollar && byte == close && depth == 0 {
            return Some(at);
        }
        depth = next_depth(opening, close, depth, is_behind_dollar, byte);
        is_behind_dollar = !is_behind_dollar && byte == b'$';
        at += 1;
    }
    None
}

/// Where brackets are closed, of which the text stands behind the opening one.
fn closing(profile: Profile, text: &[u8], opening: u8, close: u8) -> Option<usize>
    ensures value { result ≡ closing (is_wide profile) opening close text.now }
    ensures within { IfSome result (λ place. place < length text.now) }
{
    match profile {
        Profile::Strict => place_of(text, close),
        Profile::Posix => closing_outside(text, opening, close),
    }
}

/// A reference behind its opening bracket, which is closed at this place.
fn bracketed(text: &[u8], close: Option<usize>) -> (Piece<'_>, &[u8])
    requires { IfSome close (λ place. place < length text.now) }
    ensures front { shown_front (Some result) ≡ closed_at text.now close }
    ensures shorter { inner_len (shown_piece result.0) + length result.1.now ≤ length text.now + 1 }
{
    match close {
        None => (Piece::Unclosed, &[]),
        Some(end) => (in_brackets(&text[..end]), &text[end + 1..]),
    }
}

/// What stands in the brackets of a reference.
fn in_brackets(inner: &[u8]) -> Piece<'_>
    ensures shown { shown_piece result ≡ in_brackets inner.now }
    ensures within { inner_len (shown_piece result) ≤ length inner.now + 2 }
{
    if place_of(inner, b'$').is_some() {
        return Piece::Nested(inner);
    }
    let (name, use_of) = named(inner);
    Piece::Reference(name, use_of)
}

/// NAME, or NAME:old=new.
pub(crate) fn named(inner: &[u8]) -> (&[u8], Use<'_>)
    ensures { reference result.0.now (shown_use result.1) ≡ named inner.now }
{
    let Some(colon) = place_of(inner, b':') else {
        return (inner, Use::Whole);
    };
    let change = &inner[colon + 1..];
    match place_of(change, b'=') {
        None => (inner, Use::Whole),
        Some(equals) => {
            let pattern = Pattern::new(&change[..equals], &change[equals + 1..]);
            (&inner[..colon], Use::Words(WordChange::ByPattern(pattern)))
        }
    }
}
