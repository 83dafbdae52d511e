//! One open side of a disk, to which batches are added.

ghost use Rattle.std.specs.Prelude.{◌≡◌, ◌≢◌, ◌↔◌, ◌+◌, ◌<◌, ◌≤◌, ◌^◌, ◌++◌, ◌∷◌, [], List, length, take, true, false, IfOk, IfErr, IsOk, OnOk, OnErr, IsErrOf};
ghost use Rattle.std.specs.List.{AllByRecursion};
ghost use Rattle.st_disk.specs.Crash.{writes_of, other, SideHas};
ghost use Rattle.st_disk.specs.Moments.{now, Throughout};
ghost use Rattle.st_disk.specs.Faults.{CountsFaults, Rises};
ghost use Rattle.st_records.specs.declared.version.Version.TheVariants as versions;
ghost use Rattle.st_records.specs.declared.record.Record.{Record};
ghost use Rattle.st_records.specs.Limits.{IsGood};
ghost use Rattle.st_file.specs.declared.commit_fault.CommitFault.TheVariants as faults;
ghost use Rattle.st_file.specs.Batch.{framed, may_stand, FillBatch};
ghost use Rattle.st_file.specs.Side.{HoldsUpTo};
ghost use Rattle.st_file.specs.Grown.{IsFull, HoldsWithOrWithout};
ghost use Rattle.st_file.specs.Gated.{IsReady, IsClosedOrOpen, IsOpened, EndsClosed};

use crate::batch_writer::text_at;
use crate::commit_fault::CommitFault;
use crate::gated::append_gated;
use st_disk::{DeviceFault, Disk, Which};
use st_records::{Form, Record, Version};
use std::alloc::Global;

/// One open side of a disk that it owns: the version and the generation of its header, and `end`, where the closed gate
/// stands behind its batches. After a failed call of the device it is dead, and adds nothing more.
#[derive(Drop)]
pub struct Log<D: Disk + Drop> {
    pub disk: D,
    pub side: Which,
    pub version: Version,
    pub generation: u64,
    pub end: usize,
    pub dead: bool,
    /// All of the side is on the disk, and at `end` it has a closed gate.
    pub ghost ready: { D.honest → dead ≡ false → IsReady (D.seen disk side) (writes_of side (now (D.moments disk))) end },
}

impl<D: Disk + Drop> Log<D> {
    /// Puts a text behind the closed gate and opens it. The text ends in a closed gate, which is the next one. A fault
    /// leaves the log dead.
    pub fn append(&mut self, text: &[u8]) -> Result<(), DeviceFault>
        requires alive { self.old.dead ≡ false }
        requires gate { EndsClosed text.now }
        requires room { self.old.end + length text.now ≤ 2 ^ 40 }
        ensures any_moment { D.honest → Throughout (D.moments self.old.disk) (D.moments self.new.disk)
            (SideHas self.old.side (writes_of (other self.old.side) (now (D.moments self.old.disk)))
            (IsClosedOrOpen (take self.old.end (D.seen self.old.disk self.old.side)) text.now)) }
        ensures opened { D.honest → OnOk result (IsOpened (take self.old.end (D.seen self.old.disk self.old.side)) text.now
            (D.seen self.new.disk self.old.side) (writes_of self.old.side (now (D.moments self.new.disk)))) }
        ensures calls { D.honest → (D.moments self.new.disk).newest ≤ (D.moments self.old.disk).newest + 4 }
        ensures faults { CountsFaults result (D.faults self.old.disk) (D.faults self.new.disk) }
        ensures ok { OnOk result ((self.new.end ≡ self.old.end + length text.now) × (self.new.dead ≡ false)) }
        ensures err { OnErr result ((self.new.end ≡ self.old.end) × (self.new.dead ≡ true)) }
        ensures side { self.new.side ≡ self.old.side }
        ensures version { self.new.version ≡ self.old.version }
        ensures generation { self.new.generation ≡ self.old.generation }
    {
        match append_gated(&mut self.disk, self.side, self.end, text) {
            Ok(()) => {
                self.end += text.len();
                Ok(())
            }
            Err(fault) => {
                self.dead = true;
                Err(fault)
            }
        }
    }

    /// The text for `append` of a batch of these records, which holds all that a commit takes memory for. It looks at no
    /// device.
    pub fn batch(&self, alloc: Global, records: &[Record]) -> Result<Vec<u8>, CommitFault>
        requires some { 0 < length records.now }
        requires good { AllByRecursion (IsGood versions.Two) records.now }
        requires later { AllByRecursion (λ r. may_stand false r ≡ true) records.now }
        ensures text { IfOk result (λ text. text.items ≡ framed versions.Two records.now ++ 0 ∷ []) }
        ensures fills { OnOk result (FillBatch versions.Two false records.now) }
        ensures alive { OnOk result (self.now.dead ≡ false) }
        ensures version { OnOk result (self.now.version ≡ versions.Two) }
        ensures room { IfOk result (λ text. self.now.end + length text.items ≤ 2 ^ 40) }
        ensures dead { IsErrOf result faults.Dead ↔ (self.now.dead ≡ true) }
        ensures old_version { IsErrOf result faults.OldVersion ↔ ((self.now.dead ≡ false) × (self.now.version ≡ versions.One)) }
        ensures full { IsErrOf result faults.Full ↔
            ((self.now.dead ≡ false) × ((self.now.version ≡ versions.Two) × IsFull self.now.end records.now)) }
        ensures device { IsErrOf result faults.Device → ⊥ }
        ensures spent { IsErrOf result faults.GenerationsSpent → ⊥ }
    {
        if self.dead {
            return Err(CommitFault::Dead);
        }
        match self.version {
            Version::One => return Err(CommitFault::OldVersion),
            Version::Two => {}
        }
        text_at(alloc, Form::Plain, self.end, records)
    }

    /// Adds a batch of records, all of it or none whatever power cut comes: the batch's text is put behind the closed
    /// gate. A list of no records calls no device. Only a device fault changes the log, and leaves it dead.
    pub fn commit(&mut self, alloc: Global, records: &[Record]) -> Result<(), CommitFault>
        requires good { AllByRecursion (IsGood versions.Two) records.now }
        requires later { AllByRecursion (λ r. may_stand false r ≡ true) records.now }
        // At every moment each image of the side holds the records before, or those and the whole batch.
        ensures any_moment { D.honest → self.old.dead ≡ false → (held : List Record)
            → HoldsUpTo (D.seen self.old.disk self.old.side) self.old.version self.old.generation held self.old.end
            → Throughout (D.moments self.old.disk) (D.moments self.new.disk)
            (SideHas self.old.side (writes_of (other self.old.side) (now (D.moments self.old.disk)))
            (HoldsWithOrWithout self.old.version self.old.generation held records.now)) }
        ensures done { D.honest → (held : List Record)
            → HoldsUpTo (D.seen self.old.disk self.old.side) self.old.version self.old.generation held self.old.end
            → OnOk result (HoldsUpTo (D.seen self.new.disk self.old.side) self.old.version self.old.generation
            (held ++ records.now) self.new.end) }
        // At most four calls change what a crash may leave, and an Ok has met no fault.
        ensures calls { D.honest → (D.moments self.new.disk).newest ≤ (D.moments self.old.disk).newest + 4 }
        ensures success { OnOk result (D.faults self.new.disk ≡ D.faults self.old.disk) }
        ensures alive { OnOk result ((self.old.dead ≡ false) × (self.new.dead ≡ false)) }
        ensures device { IsErrOf result faults.Device → (self.new.dead ≡ true) × Rises (D.faults self.old.disk) (D.faults self.new.disk) }
        ensures unchanged { IfErr result (λ fault. fault ≢ faults.Device → self.new ≡ self.old) }
        ensures none { length records.now ≡ 0 → (self.new ≡ self.old) × (self.old.dead ≡ false → IsOk result) }
        ensures dead { IsErrOf result faults.Dead ↔ (self.old.dead ≡ true) }
        ensures old_version { IsErrOf result faults.OldVersion
            ↔ ((self.old.dead ≡ false) × ((0 < length records.now) × (self.old.version ≡ versions.One))) }
        ensures full { IsErrOf result faults.Full ↔ ((self.old.dead ≡ false) × ((0 < length records.now)
            × ((self.old.version ≡ versions.Two) × IsFull self.old.end records.now))) }
        ensures spent { IsErrOf result faults.GenerationsSpent → ⊥ }
        ensures side { self.new.side ≡ self.old.side }
        ensures version { self.new.version ≡ self.old.version }
        ensures generation { self.new.generation ≡ self.old.generation }
    {
        if self.dead {
            return Err(CommitFault::Dead);
        }
        if records.is_empty() {
            return Ok(());
        }
        let text = self.batch(alloc, records)?;
        self.append(&text)?;
        Ok(())
    }
}
