//! Strings that lie in some bytes, one behind the other and each behind its length, without a copy of them.
ghost use Rattle.std.specs.Prelude.{◌≡◌, ℕ, ◌≤◌, List, [], length, IfOk, drop, nat_eq};
ghost use Rattle.std.specs.Cmp.Lexicographic.{pointwise};
ghost use Rattle.std.specs.Iterator.{YieldsFirstRef, item_count};
ghost use Rattle.byte_strings.specs.Texts.{size_of, first_text, behind_first, texts, AreTexts};

use crate::byte_strings::ByteStrings;
use std::alloc::{AllocError, Global};
use std::marker::Model;

/// So many bytes in front of a string have its length.
pub(crate) const LENGTH_BYTES: usize = 4;

/// The strings that are left. Contracts see them as the list of these.
#[derive(Drop)]
pub struct Iter<'a> {
    bytes: &'a [u8],
    count: usize,
}

impl<'a> Model for Iter<'a> {
    ghost Value = { List (List ℕ) };

    ghost view = { λ s. texts s.count s.bytes.now };

    ghost invariant = { λ s. AreTexts s.count s.bytes.now };
}

impl<'a> Iter<'a> {
    /// No strings.
    pub fn empty() -> Iter<'a>
        ensures { result ≡ [] }
    {
        Iter {
            bytes: &[],
            count: 0,
        }
    }

    /// So many strings, which are all that the bytes hold, each behind its length, the lowest byte first.
    pub fn of_texts(count: usize, bytes: &'a [u8]) -> Iter<'a>
        requires { AreTexts count bytes.now }
        ensures { result ≡ texts count bytes.now }
    {
        Iter { bytes, count }
    }

    /// How many strings are left, and the bytes in which they lie.
    pub fn texts(&self) -> (usize, &'a [u8])
        ensures same { texts result.0 result.1.now ≡ self.now }
        ensures lie { AreTexts result.0 result.1.now }
    {
        (self.count, self.bytes)
    }

    /// The same strings once more.
    pub fn iter(&self) -> Iter<'a>
        ensures { result ≡ self.now }
    {
        Iter {
            bytes: self.bytes,
            count: self.count,
        }
    }

    /// How many strings are left.
    pub fn len(&self) -> usize
        ensures { result ≡ length self.now }
    {
        self.count
    }

    /// Whether both have the same strings left.
    pub fn are(self, others: Iter<'_>) -> bool
        ensures { result ≡ pointwise (pointwise nat_eq) self.entry others.entry }
    {
        let mut left = others;
        for string in self {
            match left.next() {
                None => return false,
                Some(other) => {
                    if string != other {
                        return false;
                    }
                }
            }
        }
        left.next().is_none()
    }

    /// The strings that are left as a list of their own.
    pub fn copy(&self, alloc: Global) -> Result<ByteStrings, AllocError>
        ensures { IfOk result (λ copied. copied ≡ self.now) }
    {
        ByteStrings::of_texts(alloc, self.count, self.bytes)
    }
}

impl<'a> Iterator for Iter<'a> {
    type Item = &'a [u8];

    ghost next_gives = { YieldsFirstRef (λ s. s) };

    ghost remaining = { item_count (λ s. s) };

    fn next(&mut self) -> Option<&'a [u8]> {
        if self.count == 0 {
            return None;
        }
        let (string, bytes) = first_text(self.bytes);
        self.bytes = bytes;
        self.count -= 1;
        Some(string)
    }
}

/// The string that stands first, behind its length, and what follows it.
fn first_text(bytes: &[u8]) -> (&[u8], &[u8])
    requires length { 4 ≤ length bytes.now }
    requires string { size_of bytes.now ≤ length (drop 4 bytes.now) }
    ensures string { result.0.now ≡ first_text bytes.now }
    ensures behind { result.1.now ≡ behind_first bytes.now }
{
    let (front, rest) = bytes.split_at(LENGTH_BYTES);
    let len = u32::from_le_bytes([front[0], front[1], front[2], front[3]]);
    rest.split_at(len as usize)
}
