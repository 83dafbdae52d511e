//! Names in the order in which they came, which nobody looks for.
ghost use Rattle.std.specs.Prelude.{◌≡◌, ◌<◌, ◌≤◌, ◌+◌, [], ◌∷◌, ◌++◌, length, OnOk, OnErr, slice_index, slice_index_or, vec_len, vec_capacity};

use mk_names::with_room;
use std::alloc::{AllocError, Global};
use std::marker::Model;

// Room is taken for names of so many bytes.
const USUAL_BYTES: usize = 16;

/// The bytes of all names are one allocation, and their ends another.
pub(crate) struct Listed {
    bytes: Vec<u8>,
    ends: Vec<u32>,
}

impl Model for Listed {
    ghost use Rattle.std.specs.Prelude.{ℕ, List, length};
    ghost use Rattle.byte_strings.specs.Pieces.{pieces, AreEnds};

    ghost Value = { List (List ℕ) };

    ghost view = { λ s. pieces s.bytes.items 0 s.ends.items };

    ghost invariant = { λ s. AreEnds (length s.bytes.items) 0 s.ends.items };
}

impl Drop for Listed {
    fn drop(self) {
        let Listed { bytes: _, ends: _ } = self;
    }
}

/// Takes room for one more item where there is none: mostly no function is called.
#[inline(always)]
pub(crate) fn make_room<T>(items: &mut Vec<T>) -> Result<(), AllocError>
    ensures items { items.new.items ≡ items.old.items }
    ensures len { vec_len items.new ≡ vec_len items.old }
    ensures room { OnOk result (vec_len items.new + 1 ≤ vec_capacity items.new) }
{
    if items.capacity() - items.len() == 0 {
        return items.reserve(1);
    }
    Ok(())
}

/// Where the name at this place begins: at the end of the one before it.
fn start_of(ends: &[u32], index: usize) -> usize
    requires { index ≤ length ends.now }
    ensures { result ≡ slice_index (0 ∷ ends.now) index }
{
    if index == 0 {
        0
    } else {
        ends[index - 1] as usize
    }
}

impl Listed {
    /// No names, which takes no memory.
    pub(crate) fn empty(alloc: Global) -> Listed
        ensures { result ≡ [] }
    {
        Listed {
            bytes: Vec::new(alloc),
            ends: Vec::new(alloc),
        }
    }

    /// No names, with room for as many, where there is memory for it.
    pub(crate) fn with_room(alloc: Global, names: usize) -> Listed
        ensures { result ≡ [] }
    {
        Listed {
            bytes: with_room(alloc, names.saturating_mul(USUAL_BYTES)),
            ends: with_room(alloc, names),
        }
    }

    /// Adds a copy of the name at the end. There is no memory for 2^32 bytes or more.
    pub(crate) fn push(&mut self, name: &[u8]) -> Result<(), AllocError>
        ensures ok { OnOk result (self.new ≡ self.old ++ name.now ∷ []) }
        ensures err { OnErr result (self.new ≡ self.old) }
    {
        let Ok(end) = u32::try_from(self.bytes.len() + name.len()) else {
            return Err(AllocError);
        };
        make_room(&mut self.ends)?;
        self.bytes.extend_from_slice(name)?;
        self.ends.push_reserved(end);
        Ok(())
    }

    pub(crate) fn len(&self) -> usize
        ensures { result ≡ length self.now }
    {
        self.ends.len()
    }

    /// The name at this place, counted from 0.
    pub(crate) fn name(&self, index: usize) -> &[u8]
        requires { index < length self.now }
        ensures { result.now ≡ slice_index_or self.now index [] }
    {
        let end = self.ends[index] as usize;
        let start = start_of(&self.ends, index);
        &self.bytes[start..end]
    }
}
