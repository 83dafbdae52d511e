//! Finds bytes that stand outside references.
ghost use Rattle.std.specs.Prelude.{◌≡◌, ◌+◌, ◌<◌, ◌==◌, ◌&&◌, ◌||◌, ◌∷◌, ◌++◌, false, length, IfSome, MatchOption};
ghost use Rattle.mk_lines.specs.References.{next_place, is_outside, first_outside, Whole, Without};
ghost use Rattle.mk_lines.specs.declared.reference.Place.TheVariants.{Outside};

use crate::lines::around;
use memchr::memchr3;

/// Whether a byte stands outside references.
#[derive(Clone, Copy)]
pub enum Place {
    Outside,
    /// Directly behind the `$` of a reference.
    Dollar,
    /// Before this closing bracket of a reference.
    Within(u8),
}

#[tactic(auto, unfolding(crate::specs::References::next_place))]
pub fn next_place(place: Place, byte: u8) -> Place
    ensures { result ≡ next_place place byte }
{
    match place {
        Place::Outside => {
            if byte == b'$' {
                Place::Dollar
            } else {
                Place::Outside
            }
        }
        Place::Dollar => match byte {
            b'(' => Place::Within(b')'),
            b'{' => Place::Within(b'}'),
            _ => Place::Outside,
        },
        Place::Within(close) => {
            if byte == close {
                Place::Outside
            } else {
                Place::Within(close)
            }
        }
    }
}

pub fn is_outside(place: Place) -> bool
    ensures { result ≡ is_outside place }
{
    matches!(place, Place::Outside)
}

/// Whether one of two bytes stands there outside references.
pub fn is_found(place: Place, byte: u8, one: u8, other: u8) -> bool
    ensures { result ≡ (is_outside place && (byte == one || byte == other)) }
{
    is_outside(place) && (byte == one || byte == other)
}

/// The first place of one of two bytes outside references, found byte by byte.
fn outside_references(bytes: &[u8], one: u8, other: u8) -> Option<usize>
    ensures found { result ≡ first_outside one other Outside bytes.now }
    ensures within { IfSome result (λ at. at < length bytes.now) }
{
    let mut place = Place::Outside;
    let mut at = 0;
    while at < bytes.len() {
        let byte = bytes[at];
        if is_found(place, byte, one, other) {
            return Some(at);
        }
        place = next_place(place, byte);
        at += 1;
    }
    None
}

/// The first place of one of two bytes outside references. A reference that isn't closed reaches to the end.
pub fn first_outside(bytes: &[u8], one: u8, other: u8) -> Option<usize>
    ensures found { result ≡ first_outside one other Outside bytes.now }
    ensures within { IfSome result (λ at. at < length bytes.now) }
{
    match memchr3(one, other, b'$', bytes) {
        None => None,
        Some(at) => {
            // Before most such bytes stands no reference.
            if bytes[at] == b'$' {
                return outside_references(bytes, one, other);
            }
            Some(at)
        }
    }
}

/// What stands before the first such byte outside references, and what stands behind it. References begin with `$`.
pub fn split_outside(text: &[u8], byte: u8) -> Option<(&[u8], &[u8])>
    requires { (36 == byte) ≡ false }
    ensures { MatchOption result (Without byte byte text.now)
        (λ parts. (text.now ≡ parts.0.now ++ byte ∷ parts.1.now) × Whole byte byte parts.0.now) }
{
    match first_outside(text, byte, byte) {
        Some(at) => Some(around(text, at)),
        None => None,
    }
}
