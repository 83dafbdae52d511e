//! What stands at the front of a text.
ghost use Rattle.std.specs.Prelude.{◌≡◌, ◌+◌, ◌<◌, ◌≤◌, length, Some, IfSome, position};
ghost use Rattle.mk_words.specs.Words.{is_space, behind_spaces};
ghost use Rattle.mk_pieces.specs.Brackets.{place_of, closing};
ghost use Rattle.mk_pieces.specs.Piece.{reference, named, call_at, computed_at, reference_at, bracketed, behind_dollar, front};
ghost use Rattle.mk_pieces.specs.Shown.{use_of, piece_of, front_of};

use crate::arguments::Arguments;
use crate::brackets::{Brackets, place_of};
use crate::function::{Function, function_named};
use mk_words::{behind_spaces, is_space};

/// What a reference takes of its variable's value: all of it, or its words, changed.
#[derive(Clone, Copy)]
pub enum Use<'a> {
    Whole,
    Substituted(&'a [u8], &'a [u8]),
}

#[derive(Drop)]
pub enum Piece<'a> {
    /// Bytes that stand for themselves.
    Plain(&'a [u8]),
    Reference(&'a [u8], Use<'a>),
    /// Brackets that aren't closed.
    Unclosed,
    /// A reference whose name is what this comes to.
    Computed(&'a [u8]),
    Call(Function, Arguments<'a>),
}

/// The first piece of a text, and what stands behind it.
pub fn next_piece(text: &[u8]) -> Option<(Piece<'_>, &[u8])>
    ensures front { front_of result ≡ front text.now }
    ensures shorter { IfSome result (λ found. length found.1.now < length text.now) }
{
    let (first, behind) = text.split_first()?;
    if *first == b'$' {
        return Some(after_dollar(behind));
    }
    match place_of(behind, b'$') {
        None => Some((Piece::Plain(text), &[])),
        Some(end) => Some((Piece::Plain(&text[..end + 1]), &behind[end..])),
    }
}

fn after_dollar(text: &[u8]) -> (Piece<'_>, &[u8])
    ensures front { front_of (Some result) ≡ behind_dollar text.now }
    ensures shorter { length result.1.now ≤ length text.now }
{
    let Some((first, behind)) = text.split_first() else {
        return (Piece::Plain(b"$"), text);
    };
    match *first {
        b'$' => (Piece::Plain(b"$"), behind),
        b'(' => bracketed(
            Brackets {
                opening: b'(',
                close: b')',
            },
            behind,
        ),
        b'{' => bracketed(
            Brackets {
                opening: b'{',
                close: b'}',
            },
            behind,
        ),
        _ => (Piece::Reference(&text[..1], Use::Whole), behind),
    }
}

fn first_space(text: &[u8]) -> Option<usize>
    ensures value { result ≡ position is_space text.now }
    ensures within { IfSome result (λ place. place < length text.now) }
{
    text.iter().position(|byte| is_space(*byte))
}

/// What stands behind an opening bracket.
fn bracketed(brackets: Brackets, text: &[u8]) -> (Piece<'_>, &[u8])
    ensures front { front_of (Some result) ≡ bracketed brackets.opening brackets.close text.now }
    ensures shorter { length result.1.now ≤ length text.now }
{
    let Some(space) = first_space(text) else {
        return reference(brackets, text);
    };
    match function_named(&text[..space]) {
        None => reference(brackets, text),
        Some(function) => called(brackets, function, behind_spaces(&text[space..])),
    }
}

/// A call, of which this stands behind the function's name.
fn called(brackets: Brackets, function: Function, text: &[u8]) -> (Piece<'_>, &[u8])
    ensures front { front_of (Some result) ≡ call_at brackets.opening brackets.close function text.now (closing brackets.opening brackets.close text.now) }
    ensures shorter { length result.1.now ≤ length text.now }
{
    match brackets.place_outside(text, brackets.close) {
        None => (Piece::Unclosed, &[]),
        Some(end) => {
            let arguments = Arguments::new(brackets, function.most(), &text[..end]);
            (Piece::Call(function, arguments), &text[end + 1..])
        }
    }
}

fn reference(brackets: Brackets, text: &[u8]) -> (Piece<'_>, &[u8])
    ensures front { front_of (Some result) ≡ reference_at brackets.opening brackets.close text.now (place_of brackets.close text.now) }
    ensures shorter { length result.1.now ≤ length text.now }
{
    let Some(end) = place_of(text, brackets.close) else {
        return (Piece::Unclosed, &[]);
    };
    if place_of(&text[..end], b'$').is_some() {
        return computed(brackets, text);
    }
    let (name, use_of) = named(&text[..end]);
    (Piece::Reference(name, use_of), &text[end + 1..])
}

/// A reference whose name holds references.
fn computed(brackets: Brackets, text: &[u8]) -> (Piece<'_>, &[u8])
    ensures front { front_of (Some result) ≡ computed_at text.now (closing brackets.opening brackets.close text.now) }
    ensures shorter { length result.1.now ≤ length text.now }
{
    match brackets.place_outside(text, brackets.close) {
        None => (Piece::Unclosed, &[]),
        Some(end) => (Piece::Computed(&text[..end]), &text[end + 1..]),
    }
}

/// NAME, or NAME:FROM=TO.
pub fn named(inner: &[u8]) -> (&[u8], Use<'_>)
    ensures { reference result.0.now (use_of result.1) ≡ named inner.now }
{
    let Some(colon) = place_of(inner, b':') else {
        return (inner, Use::Whole);
    };
    let change = &inner[colon + 1..];
    match place_of(change, b'=') {
        None => (inner, Use::Whole),
        Some(equals) => (
            &inner[..colon],
            Use::Substituted(&change[..equals], &change[equals + 1..]),
        ),
    }
}
