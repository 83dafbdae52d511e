//! Byte strings one behind the other, each of which is found by its place at once.

ghost use Rattle.std.specs.Prelude.{◌≡◌, ◌<◌, ◌≤◌, [], ◌∷◌, ◌++◌, length, OnOk, OnErr, slice_index, slice_index_or};

use crate::room::{make_room, with_room};
use std::alloc::{AllocError, Global};
use std::marker::Model;

/// Byte strings in their order. The bytes of all of them are one allocation, and their ends another.
pub(crate) struct Texts {
    bytes: Vec<u8>,
    ends: Vec<u32>,
}

impl Model for Texts {
    ghost use Rattle.std.specs.Prelude.{ℕ, List, length};
    ghost use Rattle.byte_strings.specs.Pieces.{pieces, AreEnds};

    ghost Value = { List (List ℕ) };

    ghost view = { λ s. pieces s.bytes.items 0 s.ends.items };

    ghost invariant = { λ s. AreEnds (length s.bytes.items) 0 s.ends.items };
}

impl Drop for Texts {
    fn drop(self) {
        let Texts { bytes: _, ends: _ } = self;
    }
}

/// Where the string at this place begins: at the end of the one before it.
fn start_of(ends: &[u32], index: usize) -> usize
    requires { index ≤ length ends.now }
    ensures { result ≡ slice_index (0 ∷ ends.now) index }
{
    if index == 0 {
        0
    } else {
        ends[index - 1] as usize
    }
}

impl Texts {
    /// No strings, which takes no memory.
    pub(crate) fn empty(alloc: Global) -> Texts
        ensures { result ≡ [] }
    {
        Texts {
            bytes: Vec::new(alloc),
            ends: Vec::new(alloc),
        }
    }

    /// No strings, with room for as many of so many bytes in all, where there is memory for it.
    pub(crate) fn with_room(alloc: Global, strings: usize, bytes: usize) -> Texts
        ensures { result ≡ [] }
    {
        Texts {
            bytes: with_room(alloc, bytes),
            ends: with_room(alloc, strings),
        }
    }

    /// Adds a copy of the string at the end. There is no memory for 2^32 bytes or more.
    pub(crate) fn push(&mut self, string: &[u8]) -> Result<(), AllocError>
        ensures ok { OnOk result (self.new ≡ self.old ++ string.now ∷ []) }
        ensures err { OnErr result (self.new ≡ self.old) }
    {
        let Ok(end) = u32::try_from(self.bytes.len() + string.len()) else {
            return Err(AllocError);
        };
        make_room(&mut self.ends, 1)?;
        self.bytes.extend_from_slice(string)?;
        self.ends.push_reserved(end);
        Ok(())
    }

    pub(crate) fn len(&self) -> usize
        ensures { result ≡ length self.now }
    {
        self.ends.len()
    }

    /// The string at this place, counted from 0.
    #[inline(always)]
    pub(crate) fn text(&self, index: usize) -> &[u8]
        requires { index < length self.now }
        ensures { result.now ≡ slice_index_or self.now index [] }
    {
        let end = self.ends[index] as usize;
        let start = start_of(&self.ends, index);
        &self.bytes[start..end]
    }
}
