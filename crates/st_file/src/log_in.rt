//! One open side of a disk whose records have some form, to which batches are added.

ghost use Rattle.std.specs.Prelude.{◌≡◌, ◌≢◌, ◌↔◌, ◌+◌, ◌<◌, ◌≤◌, ◌^◌, ◌++◌, ◌∷◌, [], List, length, take, true, false, IfOk, IfErr, IsOk, OnOk, OnErr, IsErrOf};
ghost use Rattle.std.specs.List.{AllByRecursion};
ghost use Rattle.st_disk.specs.Crash.{writes_of, other, SideHas};
ghost use Rattle.st_disk.specs.Moments.{now, Throughout};
ghost use Rattle.st_disk.specs.Faults.{CountsFaults, Rises};
ghost use Rattle.st_records.specs.declared.record.Record.{Record};
ghost use Rattle.st_records.specs.Limits.{IsGoodIn};
ghost use Rattle.st_file.specs.declared.commit_fault.CommitFault.TheVariants as faults;
ghost use Rattle.st_file.specs.Batch.{framed_in, may_stand, FillBatchIn};
ghost use Rattle.st_file.specs.Side.{HoldsUpToIn};
ghost use Rattle.st_file.specs.Grown.{IsFullIn, HoldsWithOrWithoutIn};
ghost use Rattle.st_file.specs.Gated.{IsReady, IsClosedOrOpen, IsOpened, EndsClosed};

use crate::batch_writer::text_at;
use crate::commit_fault::CommitFault;
use crate::gated::append_gated;
use st_disk::{DeviceFault, Disk, Which};
use st_records::{Form, Record};
use std::alloc::Global;

/// A `Log` of a side whose records have this form.
#[derive(Drop)]
pub struct LogIn<D: Disk + Drop> {
    pub disk: D,
    pub side: Which,
    pub form: Form,
    pub generation: u64,
    pub end: usize,
    pub dead: bool,
    pub ghost ready: { D.honest → dead ≡ false → IsReady (D.seen disk side) (writes_of side (now (D.moments disk))) end },
}

impl<D: Disk + Drop> LogIn<D> {
    /// As `Log::append`.
    pub fn append(&mut self, text: &[u8]) -> Result<(), DeviceFault>
        requires alive { self.old.dead ≡ false }
        requires gate { EndsClosed text.now }
        requires room { self.old.end + length text.now ≤ 2 ^ 40 }
        ensures any_moment { D.honest → Throughout (D.moments self.old.disk) (D.moments self.new.disk)
            (SideHas self.old.side (writes_of (other self.old.side) (now (D.moments self.old.disk)))
            (IsClosedOrOpen (take self.old.end (D.seen self.old.disk self.old.side)) text.now)) }
        ensures opened { D.honest → OnOk result (IsOpened (take self.old.end (D.seen self.old.disk self.old.side)) text.now
            (D.seen self.new.disk self.old.side) (writes_of self.old.side (now (D.moments self.new.disk)))) }
        ensures calls { D.honest → (D.moments self.new.disk).newest ≤ (D.moments self.old.disk).newest + 4 }
        ensures faults { CountsFaults result (D.faults self.old.disk) (D.faults self.new.disk) }
        ensures ok { OnOk result ((self.new.end ≡ self.old.end + length text.now) × (self.new.dead ≡ false)) }
        ensures err { OnErr result ((self.new.end ≡ self.old.end) × (self.new.dead ≡ true)) }
        ensures side { self.new.side ≡ self.old.side }
        ensures form { self.new.form ≡ self.old.form }
        ensures generation { self.new.generation ≡ self.old.generation }
    {
        match append_gated(&mut self.disk, self.side, self.end, text) {
            Ok(()) => {
                self.end += text.len();
                Ok(())
            }
            Err(fault) => {
                self.dead = true;
                Err(fault)
            }
        }
    }

    /// As `Log::batch`, of records of a form: to a side of another form no batch is added.
    pub fn batch(
        &self,
        alloc: Global,
        form: Form,
        records: &[Record],
    ) -> Result<Vec<u8>, CommitFault>
        requires some { 0 < length records.now }
        requires good { AllByRecursion (IsGoodIn form) records.now }
        requires later { AllByRecursion (λ r. may_stand false r ≡ true) records.now }
        ensures text { IfOk result (λ text. text.items ≡ framed_in form records.now ++ 0 ∷ []) }
        ensures fills { OnOk result (FillBatchIn form false records.now) }
        ensures alive { OnOk result (self.now.dead ≡ false) }
        ensures form { OnOk result (self.now.form ≡ form) }
        ensures room { IfOk result (λ text. self.now.end + length text.items ≤ 2 ^ 40) }
        ensures dead { IsErrOf result faults.Dead ↔ (self.now.dead ≡ true) }
        ensures old_version { IsErrOf result faults.OldVersion ↔ ((self.now.dead ≡ false) × (self.now.form ≢ form)) }
        ensures full { IsErrOf result faults.Full ↔
            ((self.now.dead ≡ false) × ((self.now.form ≡ form) × IsFullIn form self.now.end records.now)) }
        ensures device { IsErrOf result faults.Device → ⊥ }
        ensures spent { IsErrOf result faults.GenerationsSpent → ⊥ }
    {
        if self.dead {
            return Err(CommitFault::Dead);
        }
        if self.form != form {
            return Err(CommitFault::OldVersion);
        }
        text_at(alloc, form, self.end, records)
    }

    /// As `Log::commit`, of records of a form.
    pub fn commit(
        &mut self,
        alloc: Global,
        form: Form,
        records: &[Record],
    ) -> Result<(), CommitFault>
        requires good { AllByRecursion (IsGoodIn form) records.now }
        requires later { AllByRecursion (λ r. may_stand false r ≡ true) records.now }
        ensures any_moment { D.honest → self.old.dead ≡ false → (held : List Record)
            → HoldsUpToIn (D.seen self.old.disk self.old.side) self.old.form self.old.generation held self.old.end
            → Throughout (D.moments self.old.disk) (D.moments self.new.disk)
            (SideHas self.old.side (writes_of (other self.old.side) (now (D.moments self.old.disk)))
            (HoldsWithOrWithoutIn self.old.form self.old.generation held records.now)) }
        ensures done { D.honest → (held : List Record)
            → HoldsUpToIn (D.seen self.old.disk self.old.side) self.old.form self.old.generation held self.old.end
            → OnOk result (HoldsUpToIn (D.seen self.new.disk self.old.side) self.old.form self.old.generation
            (held ++ records.now) self.new.end) }
        ensures calls { D.honest → (D.moments self.new.disk).newest ≤ (D.moments self.old.disk).newest + 4 }
        ensures success { OnOk result (D.faults self.new.disk ≡ D.faults self.old.disk) }
        ensures alive { OnOk result ((self.old.dead ≡ false) × (self.new.dead ≡ false)) }
        ensures device { IsErrOf result faults.Device → (self.new.dead ≡ true) × Rises (D.faults self.old.disk) (D.faults self.new.disk) }
        ensures unchanged { IfErr result (λ fault. fault ≢ faults.Device → self.new ≡ self.old) }
        ensures none { length records.now ≡ 0 → (self.new ≡ self.old) × (self.old.dead ≡ false → IsOk result) }
        ensures dead { IsErrOf result faults.Dead ↔ (self.old.dead ≡ true) }
        ensures old_version { IsErrOf result faults.OldVersion
            ↔ ((self.old.dead ≡ false) × ((0 < length records.now) × (self.old.form ≢ form))) }
        ensures full { IsErrOf result faults.Full ↔ ((self.old.dead ≡ false) × ((0 < length records.now)
            × ((self.old.form ≡ form) × IsFullIn form self.old.end records.now))) }
        ensures spent { IsErrOf result faults.GenerationsSpent → ⊥ }
        ensures side { self.new.side ≡ self.old.side }
        ensures form { self.new.form ≡ self.old.form }
        ensures generation { self.new.generation ≡ self.old.generation }
    {
        if self.dead {
            return Err(CommitFault::Dead);
        }
        if records.is_empty() {
            return Ok(());
        }
        let text = self.batch(alloc, form, records)?;
        self.append(&text)?;
        Ok(())
    }
}
