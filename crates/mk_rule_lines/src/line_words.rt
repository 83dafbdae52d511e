//! The words of what a text of a rule line expands to.
ghost use Rattle.std.specs.Prelude.{◌≡◌, ◌↔◌, ◌==◌, [], length, slice_get, option_copied, false, IfOk, IsTrue};
ghost use Rattle.std.specs.List.{list_all, list_any};
ghost use Rattle.byte_strings.specs.Blanks.{is_blank, words};
ghost use Rattle.mk_rule_lines.specs.Rules.{has};
ghost use Rattle.mk_rule_lines.specs.Signs.{is_sign};

use byte_strings::{ByteString, ByteStrings, Words, is_blank};
use std::alloc::{AllocError, Global};
use std::marker::Model;

/// The words of a text, which is all that is kept of them: a list of words takes twice the room. Contracts see the list.
pub struct LineWords {
    text: ByteString,
    /// Whether no sign stands in the text, as in most: told once, since each line is asked for its signs several times.
    is_plain: bool,
}

impl Model for LineWords {
    ghost use Rattle.std.specs.Prelude.{◌≡◌, ℕ, List, true, false};
    ghost use Rattle.std.specs.List.{list_any};
    ghost use Rattle.byte_strings.specs.Blanks.{words};
    ghost use Rattle.mk_rule_lines.specs.Signs.{is_sign};

    ghost Value = { List (List ℕ) };

    ghost view = { λ w. words w.text };

    ghost invariant = { λ w. w.is_plain ≡ true → list_any is_sign w.text ≡ false };
}

impl Drop for LineWords {
    fn drop(self) {
        let LineWords {
            text: _,
            is_plain: _,
        } = self;
    }
}

/// Whether the byte may mean something of its own in a text of a rule line.
fn is_sign(byte: u8) -> bool
    ensures { result ≡ is_sign byte }
{
    matches!(byte, b'$' | b'%' | b'(' | b'+' | b'|')
}

pub(crate) fn any_is_sign(text: &[u8]) -> bool
    ensures { result ≡ list_any is_sign text.now }
{
    text.iter().any(|byte| is_sign(*byte))
}

fn all_are_blank(text: &[u8]) -> bool
    ensures { result ≡ list_all is_blank text.now }
{
    text.iter().all(|b| is_blank(*b))
}

impl LineWords {
    /// The words of this text, which takes no memory.
    pub fn new(text: ByteString) -> LineWords
        ensures { result ≡ words text }
    {
        let is_plain = !any_is_sign(text.as_slice());
        LineWords { text, is_plain }
    }

    /// The words of a text in which no sign stands.
    pub(crate) fn plain(text: ByteString) -> LineWords
        requires { list_any is_sign text ≡ false }
        ensures { result ≡ words text }
    {
        LineWords {
            text,
            is_plain: true,
        }
    }

    /// How many bytes the text has.
    pub fn text_len(&self) -> usize {
        self.text.as_slice().len()
    }

    /// No strings, with room for about as many as these words: about four bytes a word.
    pub(crate) fn room(&self, alloc: Global) -> Result<ByteStrings, AllocError>
        ensures { IfOk result (λ strings. strings ≡ []) }
    {
        let bytes = self.text_len();
        ByteStrings::with_capacity(alloc, bytes / 4, bytes)
    }

    /// The words in their order.
    pub fn iter(&self) -> Words<'_>
        ensures { result ≡ self.now }
    {
        Words::new(self.text.as_slice())
    }

    pub fn first(&self) -> Option<&[u8]>
        ensures { option_copied result ≡ slice_get self.now 0 }
    {
        self.iter().next()
    }

    pub fn is_empty(&self) -> bool
        ensures { IsTrue result ↔ (self.now ≡ []) }
    {
        all_are_blank(self.text.as_slice())
    }

    /// Whether there is just one word.
    pub fn is_one(&self) -> bool
        ensures { result ≡ (length self.now == 1) }
    {
        let mut left = self.iter();
        match left.next() {
            Some(_) => left.next().is_none(),
            None => false,
        }
    }

    /// Whether one of the words has this byte, which is no blank: told without cutting the text into words.
    pub fn has_byte(&self, byte: u8) -> bool
        requires { is_blank byte ≡ false }
        ensures { result ≡ list_any (list_any (λ b. b == byte)) self.now }
    {
        if self.is_plain && is_sign(byte) {
            return false;
        }
        self.text.as_slice().contains(&byte)
    }

    /// Whether one of the words has a `+`, a `(` or a `%`, told in the same way. Only where it is so something of them may be refused.
    pub fn may_have_sign(&self) -> bool
        ensures plus { result ≡ false → list_any (list_any (λ b. b == 43)) self.now ≡ false }
        ensures bracket { result ≡ false → list_any (list_any (λ b. b == 40)) self.now ≡ false }
        ensures percent { result ≡ false → list_any (list_any (λ b. b == 37)) self.now ≡ false }
    {
        !self.is_plain
    }

    /// Whether the name is one of the words.
    pub fn has(&self, name: &[u8]) -> bool
        ensures { result ≡ has name.now self.now }
    {
        self.iter().any(|word| name == word)
    }
}
