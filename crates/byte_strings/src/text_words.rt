//! The words of a text, one after the other.
ghost use Rattle.std.specs.Prelude.{◌≡◌, ◌<◌, ℕ, List, [], ◌∷◌, ◌++◌, length, IfSome, MatchOption};
ghost use Rattle.std.specs.Iterator.{YieldsFirstRef, item_count};
ghost use Rattle.byte_strings.specs.Blanks.{trimmed_start, words};

use crate::blanks::{trim_start, word_len};
use std::marker::Model;

/// The first word of a text, and what stands behind it: nothing, or what begins with the blank that ends the word.
pub fn next_word(text: &[u8]) -> Option<(&[u8], &[u8])>
    ensures word { MatchOption result (words text.now ≡ []) (λ found. words text.now ≡ found.0.now ∷ words found.1.now) }
    ensures behind { IfSome result (λ found. trimmed_start text.now ≡ found.0.now ++ found.1.now) }
    ensures shorter { IfSome result (λ found. length found.1.now < length text.now) }
{
    let text = trim_start(text);
    if text.is_empty() {
        return None;
    }
    Some(text.split_at(word_len(text)))
}

/// The words of what is left of a text, in their order. Contracts see them as the list of these.
#[derive(Drop)]
pub struct Words<'a> {
    text: &'a [u8],
}

impl<'a> Model for Words<'a> {
    ghost Value = { List (List ℕ) };

    ghost view = { λ s. words s.text.now };
}

impl<'a> Words<'a> {
    pub fn new(text: &'a [u8]) -> Words<'a>
        ensures { result ≡ words text.now }
    {
        Words { text }
    }
}

impl<'a> Iterator for Words<'a> {
    type Item = &'a [u8];

    ghost next_gives = { YieldsFirstRef (λ s. s) };

    ghost remaining = { item_count (λ s. s) };

    fn next(&mut self) -> Option<&'a [u8]> {
        let (word, rest) = next_word(self.text)?;
        self.text = rest;
        Some(word)
    }
}
