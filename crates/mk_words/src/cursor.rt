//! The words of a text, one after the other.
ghost use Rattle.std.specs.Prelude.{◌≡◌, ◌+◌, ◌<◌, ◌≤◌, ℕ, List, [], ◌∷◌, length, IfSome, MatchOption};
ghost use Rattle.std.specs.Iterator.{YieldsFirstRef, item_count};
ghost use Rattle.std.specs.List.{prefix_len, suffix_len, position_or_len};
ghost use Rattle.mk_words.specs.Words.{is_space, behind_spaces, before_spaces, behind_word, words_of};

use std::marker::Model;

pub fn is_space(byte: u8) -> bool
    ensures { result ≡ is_space byte }
{
    byte == b' ' || b'\t' <= byte && byte <= b'\r'
}

fn leading_spaces(text: &[u8]) -> usize
    ensures value { result ≡ prefix_len is_space text.now }
    ensures within { result ≤ length text.now }
{
    let mut count = 0;
    while count < text.len() && is_space(text[count]) {
        count += 1;
    }
    count
}

#[tactic(auto, unfolding(crate::specs::Words::behind_spaces))]
pub fn behind_spaces(text: &[u8]) -> &[u8]
    ensures { result.now ≡ behind_spaces text.now }
{
    text.split_at(leading_spaces(text)).1
}

/// How many bytes are left without the spaces at the end.
fn end_of_text(text: &[u8]) -> usize
    ensures { result + suffix_len is_space text.now ≡ length text.now }
{
    let mut end = text.len();
    while end > 0 && is_space(text[end - 1]) {
        end -= 1;
    }
    end
}

#[tactic(auto, unfolding(crate::specs::Words::before_spaces))]
pub fn before_spaces(text: &[u8]) -> &[u8]
    ensures { result.now ≡ before_spaces text.now }
{
    text.split_at(end_of_text(text)).0
}

/// How many bytes stand before the first space.
fn word_len(text: &[u8]) -> usize
    ensures value { result ≡ position_or_len is_space text.now }
    ensures within { result ≤ length text.now }
{
    let mut count = 0;
    while count < text.len() && !is_space(text[count]) {
        count += 1;
    }
    count
}

/// The first word of a text, and what stands behind it.
pub fn next_word(text: &[u8]) -> Option<(&[u8], &[u8])>
    ensures word { MatchOption result (words_of text.now ≡ []) (λ found. words_of text.now ≡ found.0.now ∷ words_of found.1.now) }
    ensures behind { MatchOption result (behind_word text.now ≡ []) (λ found. behind_word text.now ≡ found.1.now) }
    ensures shorter { IfSome result (λ found. length found.1.now < length text.now) }
{
    let text = behind_spaces(text);
    if text.is_empty() {
        return None;
    }
    Some(text.split_at(word_len(text)))
}

/// The words of what is left of a text, in their order. Contracts see them as the list of these.
#[derive(Drop)]
pub(crate) struct Words<'a> {
    text: &'a [u8],
}

impl<'a> Model for Words<'a> {
    ghost Value = { List (List ℕ) };

    ghost view = { λ s. words_of s.text.now };
}

impl<'a> Words<'a> {
    pub(crate) fn new(text: &'a [u8]) -> Words<'a>
        ensures { result ≡ words_of text.now }
    {
        Words { text }
    }
}

impl<'a> Iterator for Words<'a> {
    type Item = &'a [u8];

    ghost next_gives = { YieldsFirstRef (λ s. s) };

    ghost remaining = { item_count (λ s. s) };

    fn next(&mut self) -> Option<&'a [u8]> {
        let (word, rest) = next_word(self.text)?;
        self.text = rest;
        Some(word)
    }
}
