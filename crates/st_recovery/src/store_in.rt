//! A store whose side has some form.

ghost use Rattle.std.specs.Prelude.{◌≡◌, ◌≢◌, ◌↔◌, ◌+◌, ◌<◌, ◌≤◌, ◌++◌, List, length, true, false, IfOk, IfErr, IsOk, OnOk, OnErr, IsErrOf};
ghost use Rattle.std.specs.List.{AllByRecursion};
ghost use Rattle.st_disk.specs.Moments.{now, Throughout};
ghost use Rattle.st_disk.specs.Faults.{Rises};
ghost use Rattle.st_records.specs.declared.version.Form.TheVariants.{Plain};
ghost use Rattle.st_records.specs.Forms.{form_of};
ghost use Rattle.st_records.specs.declared.record.Record.{Record};
ghost use Rattle.st_records.specs.Limits.{IsGoodIn};
ghost use Rattle.st_state.specs.State.{replay};
ghost use Rattle.st_file.specs.Layout.{IsReadIn};
ghost use Rattle.st_file.specs.Batch.{may_stand};
ghost use Rattle.st_file.specs.Side.{HoldsUpToIn};
ghost use Rattle.st_file.specs.Grown.{IsFullIn};
ghost use Rattle.st_file.specs.declared.commit_fault.CommitFault.TheVariants as faults;
ghost use Rattle.st_recovery.specs.Recovers.{IsMadeOf};
ghost use Rattle.st_recovery.specs.Stored.{IsStoredOnIn, AllRecoverIn, AllRecoverEitherIn};

use crate::store::{Store, stage_beside};
use st_disk::Disk;
use st_file::{CommitFault, Log, LogIn, version_of};
use st_records::{Form, Record};
use st_state::State;
use std::alloc::Global;

/// A `Store` of a side of this form, where `newest` is the form that is written, of the newest version that is read.
#[derive(Drop)]
pub struct StoreIn<D: Disk + Drop> {
    pub log: LogIn<D>,
    pub state: State,
    pub newest: Form,
    /// The open side holds records that make the state, and the other side gives way.
    pub ghost stored: { D.honest → log.dead ≡ false → IsStoredOnIn newest (D.seen log.disk) (now (D.moments log.disk)) log.side
        log.form log.generation log.end state },
    pub ghost is_read: { IsReadIn newest log.form },
    /// Whatever disk it is, good records of the side's form made the state.
    pub ghost made: { ∥ IsMadeOf log.form state ∥₁ },
}

impl<D: Disk + Drop> StoreIn<D> {
    /// As `Store::is_dead`.
    pub fn is_dead(&self) -> bool
        ensures dead { result ≡ self.now.log.dead }
        ensures recovers { D.honest → result ≡ false → AllRecoverIn self.now.newest self.now.state (now (D.moments self.now.log.disk)) }
    {
        self.log.dead
    }

    pub fn state(&self) -> &State
        ensures { result.now ≡ self.now.state }
    {
        &self.state
    }

    /// As `Store::commit`, of records of the form that is written: to a side of an older one no batch is added.
    pub fn commit(&mut self, alloc: Global, records: &[Record]) -> Result<(), CommitFault>
        requires good { AllByRecursion (IsGoodIn self.old.newest) records.now }
        requires later { AllByRecursion (λ r. may_stand false r ≡ true) records.now }
        ensures any_moment { D.honest → self.old.log.dead ≡ false
            → Throughout (D.moments self.old.log.disk) (D.moments self.new.log.disk)
            (AllRecoverEitherIn self.old.newest self.old.state (replay self.old.state records.now)) }
        ensures done { D.honest → OnOk result (AllRecoverIn self.old.newest self.new.state (now (D.moments self.new.log.disk))) }
        ensures held { D.honest → (held : List Record)
            → HoldsUpToIn (D.seen self.old.log.disk self.old.log.side) self.old.log.form self.old.log.generation held self.old.log.end
            → OnOk result (HoldsUpToIn (D.seen self.new.log.disk self.old.log.side) self.old.log.form self.old.log.generation
            (held ++ records.now) self.new.log.end) }
        ensures ok { OnOk result (self.new.state ≡ replay self.old.state records.now) }
        ensures alive { OnOk result ((self.old.log.dead ≡ false) × (self.new.log.dead ≡ false)) }
        ensures calls { D.honest → (D.moments self.new.log.disk).newest ≤ (D.moments self.old.log.disk).newest + 4 }
        ensures success { OnOk result (D.faults self.new.log.disk ≡ D.faults self.old.log.disk) }
        ensures err { OnErr result (self.new.state ≡ self.old.state) }
        ensures device { IsErrOf result faults.Device
            → (self.new.log.dead ≡ true) × Rises (D.faults self.old.log.disk) (D.faults self.new.log.disk) }
        ensures unchanged { IfErr result (λ fault. fault ≢ faults.Device → self.new.log ≡ self.old.log) }
        ensures none { length records.now ≡ 0 → (self.new.log ≡ self.old.log) × (self.old.log.dead ≡ false → IsOk result) }
        ensures dead { IsErrOf result faults.Dead ↔ (self.old.log.dead ≡ true) }
        ensures old_version { IsErrOf result faults.OldVersion ↔ ((self.old.log.dead ≡ false)
            × ((0 < length records.now) × (self.old.log.form ≢ self.old.newest))) }
        ensures full { IsErrOf result faults.Full ↔ ((self.old.log.dead ≡ false) × ((0 < length records.now)
            × ((self.old.log.form ≡ self.old.newest) × IsFullIn self.old.newest self.old.log.end records.now))) }
        ensures spent { IsErrOf result faults.GenerationsSpent → ⊥ }
        ensures side { self.new.log.side ≡ self.old.log.side }
        ensures newest { self.new.newest ≡ self.old.newest }
        ensures form { self.new.log.form ≡ self.old.log.form }
        ensures generation { self.new.log.generation ≡ self.old.log.generation }
    {
        if self.log.dead {
            return Err(CommitFault::Dead);
        }
        if records.is_empty() {
            return Ok(());
        }
        commit_parts(alloc, self.newest, &mut self.log, &mut self.state, records)
    }

    /// The same by its version, where it is 1 or 2.
    pub(crate) fn by_version(self) -> Store<D>
        requires { self.newest ≡ Plain }
        ensures disk { result.log.disk ≡ self.log.disk }
        ensures side { result.log.side ≡ self.log.side }
        ensures form { form_of result.log.version ≡ self.log.form }
        ensures generation { result.log.generation ≡ self.log.generation }
        ensures end { result.log.end ≡ self.log.end }
        ensures dead { result.log.dead ≡ self.log.dead }
        ensures state { result.state ≡ self.state }
    {
        let StoreIn { log, state, .. } = self;
        let LogIn {
            disk,
            side,
            form,
            generation,
            end,
            dead,
        } = log;
        let version = version_of(form);
        let log = Log {
            disk,
            side,
            version,
            generation,
            end,
            dead,
        };
        Store { log, state }
    }
}

/// As that of `Store`.
fn commit_parts<D: Disk + Drop>(
    alloc: Global,
    newest: Form,
    log: &mut LogIn<D>,
    state: &mut State,
    records: &[Record],
) -> Result<(), CommitFault>
    requires some { 0 < length records.now }
    requires good { AllByRecursion (IsGoodIn newest) records.now }
    requires later { AllByRecursion (λ r. may_stand false r ≡ true) records.now }
    requires stored { D.honest → log.old.dead ≡ false → IsStoredOnIn newest (D.seen log.old.disk) (now (D.moments log.old.disk)) log.old.side
        log.old.form log.old.generation log.old.end state.old }
    ensures stored { D.honest → log.new.dead ≡ false → IsStoredOnIn newest (D.seen log.new.disk) (now (D.moments log.new.disk)) log.new.side
        log.new.form log.new.generation log.new.end state.new }
    ensures any_moment { D.honest → log.old.dead ≡ false → Throughout (D.moments log.old.disk) (D.moments log.new.disk)
        (AllRecoverEitherIn newest state.old (replay state.old records.now)) }
    ensures held { D.honest → (held : List Record)
        → HoldsUpToIn (D.seen log.old.disk log.old.side) log.old.form log.old.generation held log.old.end
        → OnOk result (HoldsUpToIn (D.seen log.new.disk log.old.side) log.old.form log.old.generation
        (held ++ records.now) log.new.end) }
    ensures ok { OnOk result (state.new ≡ replay state.old records.now) }
    ensures own { OnOk result (log.old.form ≡ newest) }
    ensures alive { OnOk result ((log.old.dead ≡ false) × (log.new.dead ≡ false)) }
    ensures calls { D.honest → (D.moments log.new.disk).newest ≤ (D.moments log.old.disk).newest + 4 }
    ensures success { OnOk result (D.faults log.new.disk ≡ D.faults log.old.disk) }
    ensures err { OnErr result (state.new ≡ state.old) }
    ensures device { IsErrOf result faults.Device → (log.new.dead ≡ true) × Rises (D.faults log.old.disk) (D.faults log.new.disk) }
    ensures unchanged { IfErr result (λ fault. fault ≢ faults.Device → log.new ≡ log.old) }
    ensures dead { IsErrOf result faults.Dead ↔ (log.old.dead ≡ true) }
    ensures old_version { IsErrOf result faults.OldVersion ↔ ((log.old.dead ≡ false) × (log.old.form ≢ newest)) }
    ensures full { IsErrOf result faults.Full ↔ ((log.old.dead ≡ false)
        × ((log.old.form ≡ newest) × IsFullIn newest log.old.end records.now)) }
    ensures spent { IsErrOf result faults.GenerationsSpent → ⊥ }
    ensures side { log.new.side ≡ log.old.side }
    ensures form { log.new.form ≡ log.old.form }
    ensures generation { log.new.generation ≡ log.old.generation }
{
    let text = log.batch(alloc, newest, records)?;
    let staged = stage_beside(alloc, state, records)?;
    match log.append(&text) {
        Ok(()) => {
            *state = staged.finish();
            Ok(())
        }
        Err(_) => {
            *state = staged.discard();
            Err(CommitFault::Device)
        }
    }
}
