//! A disk in memory. It keeps every call that it made, so what a crash may have left is known for every moment.
//! The bytes now stand beside the calls and all that they wrote, so that a sync copies nothing and only `power_cut` makes the
//! calls once more. Memory grows with what was written.
ghost use Rattle.std.specs.Prelude.{◌≡◌, ◌+◌, ◌<◌, ◌≤◌, ◌++◌, ◌∷◌, ℕ, [], length, take, slice_range, vec_len, vec_capacity, IsOk, IfOk, OnOk, OnErr};
ghost use Rattle.st_memory.specs.declared.call.Call.TheVariants.{Write};
ghost use Rattle.st_memory.specs.PowerCut.{IsPowerCut, MayHaveLength};
ghost use Rattle.st_disk.specs.Crash.{writes_of, settled, overwritten, other};
ghost use Rattle.st_disk.specs.Faults.{CountsFaults};
ghost use Rattle.st_disk.specs.Which.{pick};
ghost use Rattle.st_memory.specs.Memory.{IsReplayed};
ghost use Rattle.st_disk.specs.Moments.{now, after_write, after_cut, after_sync, Passes, MayPass};

use crate::call::Call;
use crate::mem_side::MemSide;
use crate::power_cut::cut_bytes;
use crate::replay::Replay;
use st_disk::{DeviceFault, Disk, Which, count_fault};
use std::alloc::{AllocError, Global};

/// Two sides in memory. A call for which it finds no memory fails.
#[derive(Drop)]
pub struct MemDisk {
    a: MemSide,
    b: MemSide,
    calls: Vec<Call>,
    written: Vec<u8>,
    faults: u64,
    ghost replayed: { IsReplayed calls.items written.items (pick a b) },
}

impl MemDisk {
    ghost use Rattle.st_memory.specs.MemDisk.{memory_bytes, memory_moments, memory_faults, HasRoom, UsesRoom};

    /// Two empty sides.
    pub fn new(alloc: Global) -> MemDisk
        ensures a { memory_bytes result Which.A ≡ [] }
        ensures b { memory_bytes result Which.B ≡ [] }
        ensures settled { now (memory_moments result) ≡ record { a = settled []; b = settled [] } }
        ensures faults { memory_faults result ≡ 0 }
    {
        MemDisk {
            a: MemSide::new(alloc),
            b: MemSide::new(alloc),
            calls: Vec::new(alloc),
            written: Vec::new(alloc),
            faults: 0,
        }
    }

    /// Two sides that hold these bytes, all of them on the disk.
    pub fn holding(alloc: Global, a: &[u8], b: &[u8]) -> Result<MemDisk, AllocError>
        ensures a { IfOk result (λ disk. memory_bytes disk Which.A ≡ a.now) }
        ensures b { IfOk result (λ disk. memory_bytes disk Which.B ≡ b.now) }
        ensures settled { IfOk result (λ disk.
            now (memory_moments disk) ≡ record { a = settled a.now; b = settled b.now }) }
        ensures faults { IfOk result (λ disk. memory_faults disk ≡ 0) }
    {
        let mut disk = MemDisk::new(alloc);
        disk.write(Which::A, 0, a)?;
        disk.settle(Which::A)?;
        disk.write(Which::B, 0, b)?;
        disk.settle(Which::B)?;
        Ok(disk)
    }

    /// The bytes of a side, as reads give them.
    pub fn bytes(&self, side: Which) -> &[u8]
        ensures { result.now ≡ memory_bytes self.now side }
    {
        match side {
            Which::A => &self.a.bytes,
            Which::B => &self.b.bytes,
        }
    }

    /// The least and the greatest length that a crash may leave of a side.
    pub fn extreme_lengths(&self, side: Which) -> (usize, usize)
        ensures least { result.0 ≡ (writes_of side (now (memory_moments self.now))).least }
        ensures greatest { result.1 ≡ (writes_of side (now (memory_moments self.now))).greatest }
    {
        match side {
            Which::A => (self.a.least, self.a.greatest),
            Which::B => (self.b.least, self.b.greatest),
        }
    }

    /// How many calls failed.
    pub fn fault_count(&self) -> u64
        ensures { result ≡ memory_faults self.now }
    {
        self.faults
    }

    /// Takes the room for so many more calls, which write so many bytes in all, so that they take no memory.
    pub fn reserve(&mut self, calls: usize, bytes: usize) -> Result<(), AllocError>
        ensures room { OnOk result (HasRoom self.new calls bytes) }
        ensures bytes { memory_bytes self.new ≡ memory_bytes self.old }
        ensures moments { memory_moments self.new ≡ memory_moments self.old }
        ensures faults { memory_faults self.new ≡ memory_faults self.old }
    {
        self.calls.reserve(calls)?;
        self.written.reserve(bytes)?;
        self.a.bytes.reserve(bytes)?;
        self.b.bytes.reserve(bytes)?;
        Ok(())
    }

    /// The disk after a power cut now, which leaves the sides with these lengths. Where a crash may leave any bytes of
    /// a side, there are those of `fill` in order, again from its start where it is used up, and zeros where it is empty.
    pub fn power_cut(
        &self,
        alloc: Global,
        len_a: usize,
        len_b: usize,
        fill: &[u8],
    ) -> Result<MemDisk, AllocError>
        requires a_may { MayHaveLength (writes_of Which.A (now (memory_moments self.now))) len_a }
        requires b_may { MayHaveLength (writes_of Which.B (now (memory_moments self.now))) len_b }
        ensures a { IfOk result (λ disk.
            IsPowerCut (writes_of Which.A (now (memory_moments self.now)))
            fill.now len_a (memory_bytes disk Which.A)) }
        ensures b { IfOk result (λ disk.
            IsPowerCut (writes_of Which.B (now (memory_moments self.now)))
            fill.now len_b (memory_bytes disk Which.B)) }
        ensures settled { IfOk result (λ disk. now (memory_moments disk)
            ≡ record { a = settled (memory_bytes disk Which.A); b = settled (memory_bytes disk Which.B) }) }
        ensures faults { IfOk result (λ disk. memory_faults disk ≡ 0) }
    {
        let a = self.cut_side(alloc, Which::A, len_a, fill)?;
        let b = self.cut_side(alloc, Which::B, len_b, fill)?;
        MemDisk::holding(alloc, &a, &b)
    }

    fn cut_side(
        &self,
        alloc: Global,
        side: Which,
        len: usize,
        fill: &[u8],
    ) -> Result<Vec<u8>, AllocError>
        requires { MayHaveLength (writes_of side (now (memory_moments self.now))) len }
        ensures { IfOk result (λ bytes.
            IsPowerCut (writes_of side (now (memory_moments self.now))) fill.now len bytes.items) }
    {
        let (least, _) = self.extreme_lengths(side);
        let replay = Replay::of(alloc, side, &self.calls, &self.written)?;
        let kept = &replay.synced[..least.min(replay.synced.len())];
        let bytes = cut_bytes(alloc, kept, &replay.ranges, len, fill)?;
        Ok(bytes)
    }

    fn write(&mut self, side: Which, at: usize, bytes: &[u8]) -> Result<(), AllocError>
        requires { at ≤ length (memory_bytes self.old side) }
        ensures bytes { OnOk result
            (memory_bytes self.new side ≡ overwritten (memory_bytes self.old side) at bytes.now) }
        ensures other { memory_bytes self.new (other side) ≡ memory_bytes self.old (other side) }
        ensures passes { OnOk result (Passes
            (after_write side at (length bytes.now) (memory_moments self.old))
            (memory_moments self.old) (memory_moments self.new)) }
        ensures err { OnErr result (memory_moments self.new ≡ memory_moments self.old) }
        ensures faults { self.new.faults ≡ self.old.faults }
        ensures room { UsesRoom (length bytes.now) result self.old self.new }
    {
        let len = bytes.len();
        self.calls.reserve(1)?;
        self.written.reserve(len)?;
        match side {
            Which::A => {
                self.a.make_room(at, len)?;
                self.a.write(at, bytes);
                keep_write(&mut self.calls, &mut self.written, side, at, bytes);
            }
            Which::B => {
                self.b.make_room(at, len)?;
                self.b.write(at, bytes);
                keep_write(&mut self.calls, &mut self.written, side, at, bytes);
            }
        }
        Ok(())
    }

    fn shorten(&mut self, side: Which, len: usize) -> Result<(), AllocError>
        requires { len ≤ length (memory_bytes self.old side) }
        ensures bytes { OnOk result (memory_bytes self.new side ≡ take len (memory_bytes self.old side)) }
        ensures other { memory_bytes self.new (other side) ≡ memory_bytes self.old (other side) }
        ensures passes { OnOk result (Passes
            (after_cut side len (memory_moments self.old))
            (memory_moments self.old) (memory_moments self.new)) }
        ensures err { OnErr result (memory_moments self.new ≡ memory_moments self.old) }
        ensures faults { self.new.faults ≡ self.old.faults }
        ensures room { UsesRoom 0 result self.old self.new }
    {
        self.calls.reserve(1)?;
        self.calls.push_reserved(Call::Cut { side, len });
        match side {
            Which::A => self.a.cut(len),
            Which::B => self.b.cut(len),
        }
        Ok(())
    }

    fn settle(&mut self, side: Which) -> Result<(), AllocError>
        ensures bytes { memory_bytes self.new ≡ memory_bytes self.old }
        ensures passes { OnOk result (Passes
            (after_sync side (memory_bytes self.old side) (memory_moments self.old))
            (memory_moments self.old) (memory_moments self.new)) }
        ensures err { OnErr result (memory_moments self.new ≡ memory_moments self.old) }
        ensures faults { self.new.faults ≡ self.old.faults }
        ensures room { UsesRoom 0 result self.old self.new }
    {
        self.calls.reserve(1)?;
        self.calls.push_reserved(Call::Sync { side });
        match side {
            Which::A => self.a.sync(),
            Which::B => self.b.sync(),
        }
        Ok(())
    }
}

fn keep_write(calls: &mut Vec<Call>, written: &mut Vec<u8>, side: Which, at: usize, bytes: &[u8])
    requires call_room { vec_len calls.old < vec_capacity calls.old }
    requires bytes_room { vec_len written.old + length bytes.now ≤ vec_capacity written.old }
    ensures calls { calls.new.items ≡ calls.old.items ++ Write side at (length bytes.now) ∷ [] }
    ensures written { written.new.items ≡ written.old.items ++ bytes.now }
    ensures call_capacity { vec_capacity calls.old ≤ vec_capacity calls.new }
    ensures bytes_capacity { vec_capacity written.old ≤ vec_capacity written.new }
{
    written.extend_from_slice(bytes).unwrap();
    calls.push_reserved(Call::Write {
        side,
        at,
        len: bytes.len(),
    });
}

impl Disk for MemDisk {
    ghost use Rattle.st_memory.specs.MemDisk.{memory_bytes, memory_moments, memory_faults, UsesRoom, KeepsRoom};
    ghost use Rattle.st_memory.specs.MemoryImage.{memory_image};

    ghost honest = { Unit {0} };

    ghost seen = { memory_bytes };

    ghost moments = { memory_moments };

    ghost faults = { λ disk. disk.faults };

    ghost seen_is_image = { λ disk _ side. memory_image disk.replayed side };

    fn len(&mut self, side: Which) -> Result<usize, DeviceFault>
        ensures len { result ≡ Ok (length (memory_bytes self.old side)) }
        ensures seen { memory_bytes self.new ≡ memory_bytes self.old }
        ensures moments { memory_moments self.new ≡ memory_moments self.old }
        ensures faults { CountsFaults result (memory_faults self.old) (memory_faults self.new) }
        ensures room { KeepsRoom self.old self.new }
    {
        match side {
            Which::A => Ok(self.a.bytes.len()),
            Which::B => Ok(self.b.bytes.len()),
        }
    }

    fn read(&mut self, side: Which, at: usize, buf: &mut [u8]) -> Result<(), DeviceFault>
        requires { at + length buf.old ≤ length (memory_bytes self.old side) }
        ensures ok { IsOk result }
        ensures bytes { buf.new ≡ slice_range (memory_bytes self.old side) at (at + length buf.old) }
        ensures seen { memory_bytes self.new ≡ memory_bytes self.old }
        ensures moments { memory_moments self.new ≡ memory_moments self.old }
        ensures faults { CountsFaults result (memory_faults self.old) (memory_faults self.new) }
        ensures room { KeepsRoom self.old self.new }
    {
        let end = at + buf.len();
        match side {
            Which::A => buf.copy_from_slice(&self.a.bytes[at..end]),
            Which::B => buf.copy_from_slice(&self.b.bytes[at..end]),
        }
        Ok(())
    }

    fn write_at(&mut self, side: Which, at: usize, bytes: &[u8]) -> Result<(), DeviceFault>
        requires { at ≤ length (memory_bytes self.old side) }
        ensures written { OnOk result
            (memory_bytes self.new side ≡ overwritten (memory_bytes self.old side) at bytes.now) }
        ensures other { memory_bytes self.new (other side) ≡ memory_bytes self.old (other side) }
        ensures passes { OnOk result (Passes
            (after_write side at (length bytes.now) (memory_moments self.old))
            (memory_moments self.old) (memory_moments self.new)) }
        ensures err { OnErr result (memory_moments self.new ≡ memory_moments self.old) }
        ensures moments { MayPass
            (after_write side at (length bytes.now) (memory_moments self.old))
            (memory_moments self.old) (memory_moments self.new) }
        ensures faults { CountsFaults result (memory_faults self.old) (memory_faults self.new) }
        ensures room { UsesRoom (length bytes.now) result self.old self.new }
    {
        match self.write(side, at, bytes) {
            Ok(()) => Ok(()),
            Err(_) => Err(count_fault(&mut self.faults)),
        }
    }

    fn cut(&mut self, side: Which, len: usize) -> Result<(), DeviceFault>
        requires { len ≤ length (memory_bytes self.old side) }
        ensures cut { OnOk result (memory_bytes self.new side ≡ take len (memory_bytes self.old side)) }
        ensures other { memory_bytes self.new (other side) ≡ memory_bytes self.old (other side) }
        ensures passes { OnOk result (Passes
            (after_cut side len (memory_moments self.old))
            (memory_moments self.old) (memory_moments self.new)) }
        ensures err { OnErr result (memory_moments self.new ≡ memory_moments self.old) }
        ensures moments { MayPass
            (after_cut side len (memory_moments self.old)) (memory_moments self.old) (memory_moments self.new) }
        ensures faults { CountsFaults result (memory_faults self.old) (memory_faults self.new) }
        ensures room { UsesRoom 0 result self.old self.new }
    {
        match self.shorten(side, len) {
            Ok(()) => Ok(()),
            Err(_) => Err(count_fault(&mut self.faults)),
        }
    }

    fn sync(&mut self, side: Which) -> Result<(), DeviceFault>
        ensures seen { memory_bytes self.new ≡ memory_bytes self.old }
        ensures passes { OnOk result (Passes
            (after_sync side (memory_bytes self.old side) (memory_moments self.old))
            (memory_moments self.old) (memory_moments self.new)) }
        ensures failed { OnErr result (memory_moments self.new ≡ memory_moments self.old) }
        ensures moments { MayPass
            (after_sync side (memory_bytes self.old side) (memory_moments self.old))
            (memory_moments self.old) (memory_moments self.new) }
        ensures faults { CountsFaults result (memory_faults self.old) (memory_faults self.new) }
        ensures room { UsesRoom 0 result self.old self.new }
    {
        match self.settle(side) {
            Ok(()) => Ok(()),
            Err(_) => Err(count_fault(&mut self.faults)),
        }
    }
}
