//! The words of a line that isn't expanded yet.
ghost use Rattle.std.specs.Prelude.{◌≡◌, ◌+◌, ◌<◌, ◌≤◌, ◌^◌, ◌∷◌, length, None, Some, MatchOption, IfSome};
ghost use Rattle.mk_target_lines.specs.Words.{depth_of, sign_size, ends_word, ends_at, begins_quoted, behind_backslash, in_brackets, behind_dollar, place_behind, behind_word, behind_first, behind_sign, next_word};

use mk_words::{behind_spaces, is_space};

/// Where a byte of a word stands.
#[derive(Clone, Copy)]
pub(crate) enum Place {
    Outside,
    /// Behind a `$`.
    Dollar,
    Quoted,
    /// In a reference with these brackets, and in so many inner ones of their kind.
    Within(u8, u8, usize),
}

fn ends_word(byte: u8, behind: &[u8]) -> bool
    ensures { result ≡ ends_word byte behind.now }
{
    is_space(byte)
        || byte == b':'
        || byte == b'='
        || ((byte == b'+' || byte == b'?') && behind.starts_with(b"="))
        || (byte == b'&' && behind.starts_with(b":"))
}

fn begins_quoted(text: &[u8]) -> bool
    ensures { result ≡ begins_quoted text.now }
{
    match text.split_first() {
        None => false,
        Some((byte, _)) => *byte == b':' || *byte == b';' || *byte == b'=' || *byte == b'\\',
    }
}

fn behind_backslash(behind: &[u8]) -> Place
    ensures { result ≡ behind_backslash behind.now }
{
    if begins_quoted(behind) {
        Place::Quoted
    } else {
        Place::Outside
    }
}

fn behind_dollar(byte: u8) -> Place
    ensures value { result ≡ behind_dollar byte }
    ensures small { depth_of result ≡ 0 }
{
    match byte {
        b'(' => Place::Within(b'(', b')', 0),
        b'{' => Place::Within(b'{', b'}', 0),
        _ => Place::Outside,
    }
}

fn in_brackets(opening: u8, closing: u8, depth: usize, byte: u8) -> Place
    requires { depth + 1 < 2 ^ 64 }
    ensures value { result ≡ in_brackets opening closing depth byte }
    ensures small { depth_of result ≤ depth + 1 }
{
    if byte == opening {
        return Place::Within(opening, closing, depth + 1);
    }
    if byte != closing {
        return Place::Within(opening, closing, depth);
    }
    if depth == 0 {
        Place::Outside
    } else {
        Place::Within(opening, closing, depth - 1)
    }
}

impl Place {
    fn ends_at(self, byte: u8, behind: &[u8]) -> bool
        ensures { result ≡ ends_at self byte behind.now }
    {
        match self {
            Place::Outside => ends_word(byte, behind),
            Place::Dollar | Place::Quoted | Place::Within(_, _, _) => false,
        }
    }

    /// The place of the byte behind this one.
    fn behind(self, byte: u8, behind: &[u8]) -> Place
        requires { depth_of self + 1 < 2 ^ 64 }
        ensures value { result ≡ place_behind self byte behind.now }
        ensures small { depth_of result ≤ depth_of self + 1 }
    {
        match self {
            Place::Outside => match byte {
                b'$' => Place::Dollar,
                b'\\' => behind_backslash(behind),
                _ => Place::Outside,
            },
            Place::Dollar => behind_dollar(byte),
            Place::Quoted => Place::Outside,
            Place::Within(opening, closing, depth) => in_brackets(opening, closing, depth, byte),
        }
    }
}

/// What stands behind a word of which the next byte stands here.
fn behind_word(start: Place, text: &[u8]) -> &[u8]
    requires { depth_of start + length text.now < 2 ^ 64 }
    ensures value { result.now ≡ behind_word start text.now }
    ensures within { length result.now ≤ length text.now }
{
    let mut place = start;
    let mut rest = text;
    while let Some((byte, behind)) = rest.split_first() {
        if place.ends_at(*byte, behind) {
            return rest;
        }
        place = place.behind(*byte, behind);
        rest = behind;
    }
    rest
}

fn sign_size(text: &[u8]) -> usize
    ensures { result ≡ sign_size text.now }
{
    if text.starts_with(b"&::") {
        return 3;
    }
    if text.starts_with(b"::")
        || text.starts_with(b"&:")
        || text.starts_with(b"+=")
        || text.starts_with(b"?=")
        || text.starts_with(b"!=")
    {
        return 2;
    }
    if text.starts_with(b":") || text.starts_with(b"=") {
        1
    } else {
        0
    }
}

/// What stands behind the word that a text begins with, of which this is the first byte.
fn behind_first(byte: u8, behind: &[u8], size: usize) -> &[u8]
    ensures value { result.now ≡ behind_sign size (byte ∷ behind.now) }
    ensures within { length result.now ≤ length behind.now }
{
    if size == 0 {
        return behind_word(Place::Outside.behind(byte, behind), behind);
    }
    behind.get(size - 1..).unwrap_or(b"".as_slice())
}

/// The first word of a line, and what stands behind it. A sign is a word of its own.
#[tactic(auto, unfolding(crate::specs::Words::next_word), using(crate::proofs::LineLemmas::spaces_within))]
pub(crate) fn next_word(text: &[u8]) -> Option<(&[u8], &[u8])>
    ensures word { MatchOption result (next_word text.now ≡ None) (λ found. next_word text.now ≡ Some (found.0.now, found.1.now)) }
    ensures shorter { IfSome result (λ found. length found.1.now < length text.now) }
{
    let line = behind_spaces(text);
    let (byte, behind) = line.split_first()?;
    let rest = behind_first(*byte, behind, sign_size(line));
    let word = line.split_at(line.len().saturating_sub(rest.len())).0;
    Some((word, rest))
}
