//! A list of byte strings in one piece of memory, however many strings it has.
ghost use Rattle.std.specs.Prelude.{◌≡◌, ℕ, List, [], ◌∷◌, ◌++◌, length, IfOk, OnOk, OnErr, IsTrue, ◌↔◌, slice_get, option_copied};
ghost use Rattle.byte_strings.specs.Texts.{texts, AreTexts};

use crate::iter::{Iter, LENGTH_BYTES};
use bstr::ByteSlice;
use std::alloc::{AllocError, Global};
use std::fmt;
use std::marker::Model;

/// Byte strings in their order, as the names or the commands of a target. They are one allocation, in which each stands behind
/// its length.
///
/// So lists lie in a state file, and are taken from there by one copy. A vector for each string took twelve times the size of
/// the file (22 November 2026). The ends of the strings in a vector of their own would be a second allocation for each list.
pub struct ByteStrings {
    bytes: Vec<u8>,
    count: usize,
}

impl Model for ByteStrings {
    ghost Value = { List (List ℕ) };

    ghost view = { λ s. texts s.count s.bytes.items };

    ghost invariant = { λ s. AreTexts s.count s.bytes.items };
}

impl Drop for ByteStrings {
    fn drop(self) {
        let ByteStrings { bytes: _, count: _ } = self;
    }
}

impl ByteStrings {
    /// No strings, which takes no memory.
    pub fn empty(alloc: Global) -> ByteStrings
        ensures { result ≡ [] }
    {
        ByteStrings {
            bytes: Vec::new(alloc),
            count: 0,
        }
    }

    /// No strings, with room for so many of so many bytes in all, which saves time; no clause says that pushes then succeed.
    pub fn with_capacity(
        alloc: Global,
        strings: usize,
        bytes: usize,
    ) -> Result<ByteStrings, AllocError>
        ensures { IfOk result (λ s. s ≡ []) }
    {
        let room = strings.saturating_mul(LENGTH_BYTES).saturating_add(bytes);
        Ok(ByteStrings {
            bytes: Vec::with_capacity(alloc, room)?,
            count: 0,
        })
    }

    /// So many strings, which lie in these bytes, each behind its length, the lowest byte first: taken in by one copy.
    pub fn of_texts(alloc: Global, count: usize, bytes: &[u8]) -> Result<ByteStrings, AllocError>
        requires { AreTexts count bytes.now }
        ensures { IfOk result (λ s. s ≡ texts count bytes.now) }
    {
        Ok(ByteStrings {
            bytes: Vec::from_slice(alloc, bytes)?,
            count,
        })
    }

    /// Adds a copy of the string at the end. There is no memory for one of 2^32 bytes or more.
    pub fn push(&mut self, string: &[u8]) -> Result<(), AllocError>
        ensures ok { OnOk result (self.new ≡ self.old ++ string.now ∷ []) }
        ensures err { OnErr result (self.new ≡ self.old) }
    {
        let Ok(len) = u32::try_from(string.len()) else {
            return Err(AllocError);
        };
        self.bytes.reserve(LENGTH_BYTES + string.len())?;
        self.bytes.extend_from_slice(&len.to_le_bytes()).unwrap();
        self.bytes.extend_from_slice(string).unwrap();
        self.count += 1;
        Ok(())
    }

    pub fn len(&self) -> usize
        ensures { result ≡ length self.now }
    {
        self.count
    }

    pub fn is_empty(&self) -> bool
        ensures { IsTrue result ↔ (self.now ≡ []) }
    {
        self.count == 0
    }

    /// The string at this place, counted from 0.
    pub fn get(&self, index: usize) -> Option<&[u8]>
        ensures { option_copied result ≡ slice_get self.now index }
    {
        let mut left = self.iter();
        for _ in 0..index {
            let _passed = left.next()?;
        }
        left.next()
    }

    /// The strings in their order.
    pub fn iter(&self) -> Iter<'_>
        ensures { result ≡ self.now }
    {
        Iter::of_texts(self.count, self.bytes.as_slice())
    }

    pub fn copy(&self, alloc: Global) -> Result<ByteStrings, AllocError>
        ensures { IfOk result (λ s. s ≡ self.now) }
    {
        self.iter().copy(alloc)
    }
}

impl fmt::Debug for ByteStrings {
    fn fmt<W: fmt::Write>(&self, f: &mut fmt::Formatter<W>) -> fmt::Result {
        f.debug_list()
            .entries(self.iter().map(|string| string.as_bstr()))
            .finish()
    }
}

impl PartialEq for ByteStrings {
    ghost use Rattle.std.specs.Prelude.{nat_eq};
    ghost use Rattle.std.specs.Cmp.Lexicographic.{pointwise, lists_equiv, nat_list_eq_equiv};
    ghost use Rattle.std.specs.Cmp.{partial_equiv_from_equiv};

    ghost eq = { pointwise (pointwise nat_eq) };

    ghost laws = { partial_equiv_from_equiv (lists_equiv nat_list_eq_equiv) };

    fn eq(&self, other: &ByteStrings) -> bool {
        self.iter().are(other.iter())
    }
}

impl Eq for ByteStrings {
    ghost use Rattle.std.specs.Cmp.Lexicographic.{lists_equiv, nat_list_eq_equiv};

    ghost laws = { lists_equiv nat_list_eq_equiv };
}

impl<'a> IntoIterator for &'a ByteStrings {
    type Item = &'a [u8];

    type IntoIter = Iter<'a>;

    ghost into_iter_gives = { λ strings left. left ≡ strings.now };

    fn into_iter(self) -> Iter<'a> {
        self.iter()
    }
}
