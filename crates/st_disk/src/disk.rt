//! A disk of two sides: what a read gives, what a crash may leave now and at every moment so far, and how often a call
//! has failed. What is said of bytes, lengths and crashes is said of an honest disk.
ghost use Rattle.std.specs.Prelude.{◌≡◌, ◌+◌, ◌<◌, ◌≤◌, ℕ, List, length, take, slice_range, IfOk, OnOk, OnErr};
ghost use Rattle.st_disk.specs.Crash.{IsCrashImage, writes_of, other, overwritten};
ghost use Rattle.st_disk.specs.Moments.{Moments, now, after_write, after_cut, after_sync, Passes, MayPass};
ghost use Rattle.st_disk.specs.Faults.{CountsFaults};
ghost use Rattle.st_disk.specs.declared.which.Which.{Which as Side};

use crate::{DeviceFault, Which};

pub trait Disk {
    /// The disk keeps its model. It does so always or never, so no call has to keep it.
    ghost honest: { Type 0 };

    /// The bytes of a side, as reads give them.
    ghost seen: { Self → Side → List ℕ };

    /// What a crash may leave, now and at every moment so far.
    ghost moments: { Self → Moments };

    /// How many calls have failed.
    ghost faults: { Self → ℕ };

    /// The length of a side in bytes.
    fn len(&mut self, side: Which) -> Result<usize, DeviceFault>
        ensures len { honest → IfOk result (λ n. n ≡ length (seen self.old side)) }
        ensures seen { honest → seen self.new ≡ seen self.old }
        ensures moments { honest → moments self.new ≡ moments self.old }
        ensures faults { CountsFaults result (faults self.old) (faults self.new) };

    /// Fills the buffer with the bytes from `at` on.
    fn read(&mut self, side: Which, at: usize, buf: &mut [u8]) -> Result<(), DeviceFault>
        requires { honest → at + length buf.old ≤ length (seen self.old side) }
        ensures bytes { honest →
            OnOk result (buf.new ≡ slice_range (seen self.old side) at (at + length buf.old)) }
        ensures seen { honest → seen self.new ≡ seen self.old }
        ensures moments { honest → moments self.new ≡ moments self.old }
        ensures faults { CountsFaults result (faults self.old) (faults self.new) };

    /// Writes over what stands from `at` on, and past the end. Until a sync a crash may leave any bytes there; so it
    /// may after a write that failed.
    fn write_at(&mut self, side: Which, at: usize, bytes: &[u8]) -> Result<(), DeviceFault>
        requires { honest → at ≤ length (seen self.old side) }
        ensures written { honest →
            OnOk result (seen self.new side ≡ overwritten (seen self.old side) at bytes.now) }
        ensures other { honest → seen self.new (other side) ≡ seen self.old (other side) }
        ensures passes { honest → OnOk result (Passes
            (after_write side at (length bytes.now) (moments self.old)) (moments self.old) (moments self.new)) }
        ensures moments { honest → MayPass
            (after_write side at (length bytes.now) (moments self.old)) (moments self.old) (moments self.new) }
        ensures faults { CountsFaults result (faults self.old) (faults self.new) };

    /// Cuts a side to a length. Until a sync a crash may leave it longer, with any bytes there; so it may after a cut
    /// that failed. A cut to the length now may make no call of the device.
    fn cut(&mut self, side: Which, len: usize) -> Result<(), DeviceFault>
        requires { honest → len ≤ length (seen self.old side) }
        ensures cut { honest → OnOk result (seen self.new side ≡ take len (seen self.old side)) }
        ensures other { honest → seen self.new (other side) ≡ seen self.old (other side) }
        ensures passes { honest → len < length (seen self.old side) → OnOk result (Passes
            (after_cut side len (moments self.old)) (moments self.old) (moments self.new)) }
        ensures moments { honest → MayPass
            (after_cut side len (moments self.old)) (moments self.old) (moments self.new) }
        ensures faults { CountsFaults result (faults self.old) (faults self.new) };

    /// After it a crash leaves on that side just what reads give. A sync that failed changes nothing.
    fn sync(&mut self, side: Which) -> Result<(), DeviceFault>
        ensures seen { honest → seen self.new ≡ seen self.old }
        ensures passes { honest → OnOk result (Passes
            (after_sync side (seen self.old side) (moments self.old)) (moments self.old) (moments self.new)) }
        ensures failed { honest → OnErr result (moments self.new ≡ moments self.old) }
        ensures moments { honest → MayPass
            (after_sync side (seen self.old side) (moments self.old)) (moments self.old) (moments self.new) }
        ensures faults { CountsFaults result (faults self.old) (faults self.new) };

    /// What reads give is a crash image.
    ghost seen_is_image: { (disk : Self) →
        honest → (side : Side) → IsCrashImage (writes_of side (now (moments disk))) (seen disk side) };
}
