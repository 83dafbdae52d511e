//! One side of a disk in memory.
ghost use Rattle.std.specs.Prelude.{◌≡◌, ◌+◌, ◌≤◌, [], min, max, take, vec_len, vec_capacity, length, IsOk, OnOk};
ghost use Rattle.st_disk.specs.Crash.{overwritten};

use std::alloc::{AllocError, Global};

/// The bytes of a side, and its least and its greatest length since the last sync.
#[derive(Drop)]
pub(crate) struct MemSide {
    pub(crate) bytes: Vec<u8>,
    pub(crate) least: usize,
    pub(crate) greatest: usize,
}

impl MemSide {
    pub(crate) fn new(alloc: Global) -> MemSide
        ensures bytes { result.bytes.items ≡ [] }
        ensures least { result.least ≡ 0 }
        ensures greatest { result.greatest ≡ 0 }
    {
        MemSide {
            bytes: Vec::new(alloc),
            least: 0,
            greatest: 0,
        }
    }

    /// Makes the room for a write, and changes nothing else.
    pub(crate) fn make_room(&mut self, at: usize, len: usize) -> Result<(), AllocError>
        requires { at ≤ vec_len self.old.bytes }
        ensures bytes { self.new.bytes.items ≡ self.old.bytes.items }
        ensures least { self.new.least ≡ self.old.least }
        ensures greatest { self.new.greatest ≡ self.old.greatest }
        ensures room { OnOk result (at + len ≤ vec_capacity self.new.bytes) }
        ensures capacity { vec_capacity self.old.bytes ≤ vec_capacity self.new.bytes }
        ensures succeeds { at + len ≤ vec_capacity self.old.bytes → IsOk result }
    {
        let behind = self.bytes.len() - at;
        if behind < len {
            self.bytes.reserve(len - behind)?;
        }
        Ok(())
    }

    pub(crate) fn write(&mut self, at: usize, bytes: &[u8])
        requires within { at ≤ vec_len self.old.bytes }
        requires room { at + length bytes.now ≤ vec_capacity self.old.bytes }
        ensures bytes { self.new.bytes.items ≡ overwritten self.old.bytes.items at bytes.now }
        ensures least { self.new.least ≡ self.old.least }
        ensures greatest { self.new.greatest ≡ max self.old.greatest (at + length bytes.now) }
        ensures capacity { vec_capacity self.old.bytes ≤ vec_capacity self.new.bytes }
    {
        overwrite(&mut self.bytes, at, bytes);
        self.greatest = self.greatest.max(at + bytes.len());
    }

    pub(crate) fn cut(&mut self, len: usize)
        ensures bytes { self.new.bytes.items ≡ take len self.old.bytes.items }
        ensures least { self.new.least ≡ min self.old.least len }
        ensures greatest { self.new.greatest ≡ self.old.greatest }
        ensures capacity { vec_capacity self.old.bytes ≤ vec_capacity self.new.bytes }
    {
        self.bytes.truncate(len);
        self.least = self.least.min(len);
    }

    pub(crate) fn sync(&mut self)
        ensures bytes { self.new.bytes.items ≡ self.old.bytes.items }
        ensures least { self.new.least ≡ length self.old.bytes.items }
        ensures greatest { self.new.greatest ≡ length self.old.bytes.items }
        ensures capacity { vec_capacity self.new.bytes ≡ vec_capacity self.old.bytes }
    {
        self.least = self.bytes.len();
        self.greatest = self.bytes.len();
    }
}

/// Writes over what stands from an offset on, and past the end.
pub(crate) fn overwrite(held: &mut Vec<u8>, at: usize, bytes: &[u8])
    requires within { at ≤ vec_len held.old }
    requires room { at + length bytes.now ≤ vec_capacity held.old }
    ensures bytes { held.new.items ≡ overwritten held.old.items at bytes.now }
    ensures capacity { vec_capacity held.old ≤ vec_capacity held.new }
{
    let over = bytes.len().min(held.len() - at);
    held[at..at + over].copy_from_slice(&bytes[..over]);
    held.extend_from_slice(&bytes[over..]).unwrap();
}
