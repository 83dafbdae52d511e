//! A store: the side of a disk that counts, and the state that its records make.

ghost use Rattle.std.specs.Prelude.{◌≡◌, ◌≢◌, ◌↔◌, ◌+◌, ◌<◌, ◌≤◌, ◌++◌, List, length, true, false, IfOk, IfErr, IsOk, OnOk, OnErr, IsErrOf};
ghost use Rattle.std.specs.List.{AllByRecursion};
ghost use Rattle.st_disk.specs.Moments.{now, Throughout};
ghost use Rattle.st_disk.specs.Faults.{Rises};
ghost use Rattle.st_records.specs.declared.version.Version.TheVariants as versions;
ghost use Rattle.st_records.specs.declared.record.Record.{Record};
ghost use Rattle.st_state.specs.Keepable.{AllCanBeKept};
ghost use Rattle.st_records.specs.Limits.{IsGood};
ghost use Rattle.st_state.specs.State.{replay};
ghost use Rattle.st_state.specs.Staged.{staged_state, staged_records};
ghost use Rattle.st_file.specs.Batch.{may_stand};
ghost use Rattle.st_file.specs.Side.{HoldsUpTo};
ghost use Rattle.st_file.specs.Grown.{IsFull};
ghost use Rattle.st_file.specs.declared.commit_fault.CommitFault.TheVariants as faults;
ghost use Rattle.st_recovery.specs.Stored.{IsStoredOn, AllRecover, AllRecoverEither};
ghost use Rattle.st_state.proofs.OneProofLemmas.{AllCanBeKept-prop};

use st_disk::Disk;
use st_file::{CommitFault, Log};
use st_records::Record;
use st_state::{Staged, State};
use std::alloc::Global;
use std::mem;

/// The open side of a disk that it owns, and the state that every pair of crash images recovers until a call of the
/// device fails.
#[derive(Drop)]
pub struct Store<D: Disk + Drop> {
    pub log: Log<D>,
    pub state: State,
    /// The open side holds records that make the state, and the other side gives way.
    pub ghost stored: { D.honest → log.dead ≡ false → IsStoredOn (D.seen log.disk) (now (D.moments log.disk)) log.side
        log.version log.generation log.end state },
    /// Each entry of the state can be written as a kept record.
    pub ghost keepable: { AllCanBeKept state } by { AllCanBeKept-prop state },
}

impl<D: Disk + Drop> Store<D> {
    /// Whether a call of the device has failed. While none has, every pair of crash images recovers the state.
    pub fn is_dead(&self) -> bool
        ensures dead { result ≡ self.now.log.dead }
        ensures recovers { D.honest → result ≡ false → AllRecover self.now.state (now (D.moments self.now.log.disk)) }
    {
        self.log.dead
    }

    pub fn state(&self) -> &State
        ensures { result.now ≡ self.now.state }
    {
        &self.state
    }

    /// Adds a batch of records and takes them into the state, all of them or none whatever power cut comes. Its cost is
    /// that of the batch: the state isn't copied. A list of no records calls no device. Only a device fault changes the
    /// store, and leaves it dead, its state as it was.
    pub fn commit(&mut self, alloc: Global, records: &[Record]) -> Result<(), CommitFault>
        requires good { AllByRecursion (IsGood versions.Two) records.now }
        requires later { AllByRecursion (λ r. may_stand false r ≡ true) records.now }
        // At every moment each pair recovers the state before, or the state after the whole batch.
        ensures any_moment { D.honest → self.old.log.dead ≡ false
            → Throughout (D.moments self.old.log.disk) (D.moments self.new.log.disk)
            (AllRecoverEither self.old.state (replay self.old.state records.now)) }
        ensures done { D.honest → OnOk result (AllRecover self.new.state (now (D.moments self.new.log.disk))) }
        ensures held { D.honest → (held : List Record)
            → HoldsUpTo (D.seen self.old.log.disk self.old.log.side) self.old.log.version self.old.log.generation held self.old.log.end
            → OnOk result (HoldsUpTo (D.seen self.new.log.disk self.old.log.side) self.old.log.version self.old.log.generation
            (held ++ records.now) self.new.log.end) }
        ensures ok { OnOk result (self.new.state ≡ replay self.old.state records.now) }
        ensures alive { OnOk result ((self.old.log.dead ≡ false) × (self.new.log.dead ≡ false)) }
        // At most four calls change what a crash may leave, and an Ok has met no fault.
        ensures calls { D.honest → (D.moments self.new.log.disk).newest ≤ (D.moments self.old.log.disk).newest + 4 }
        ensures success { OnOk result (D.faults self.new.log.disk ≡ D.faults self.old.log.disk) }
        ensures err { OnErr result (self.new.state ≡ self.old.state) }
        ensures device { IsErrOf result faults.Device
            → (self.new.log.dead ≡ true) × Rises (D.faults self.old.log.disk) (D.faults self.new.log.disk) }
        ensures unchanged { IfErr result (λ fault. fault ≢ faults.Device → self.new.log ≡ self.old.log) }
        ensures none { length records.now ≡ 0 → (self.new.log ≡ self.old.log) × (self.old.log.dead ≡ false → IsOk result) }
        ensures dead { IsErrOf result faults.Dead ↔ (self.old.log.dead ≡ true) }
        ensures old_version { IsErrOf result faults.OldVersion ↔ ((self.old.log.dead ≡ false)
            × ((0 < length records.now) × (self.old.log.version ≡ versions.One))) }
        ensures full { IsErrOf result faults.Full ↔ ((self.old.log.dead ≡ false) × ((0 < length records.now)
            × ((self.old.log.version ≡ versions.Two) × IsFull self.old.log.end records.now))) }
        ensures spent { IsErrOf result faults.GenerationsSpent → ⊥ }
        ensures side { self.new.log.side ≡ self.old.log.side }
        ensures version { self.new.log.version ≡ self.old.log.version }
        ensures generation { self.new.log.generation ≡ self.old.log.generation }
    {
        if self.log.dead {
            return Err(CommitFault::Dead);
        }
        if records.is_empty() {
            return Ok(());
        }
        commit_parts(alloc, &mut self.log, &mut self.state, records)
    }
}

/// Commits some records to the parts of a store. All that is taken into the state is grown before the first call of the
/// device, and after the last one nothing can fail.
fn commit_parts<D: Disk + Drop>(
    alloc: Global,
    log: &mut Log<D>,
    state: &mut State,
    records: &[Record],
) -> Result<(), CommitFault>
    requires some { 0 < length records.now }
    requires good { AllByRecursion (IsGood versions.Two) records.now }
    requires later { AllByRecursion (λ r. may_stand false r ≡ true) records.now }
    requires stored { D.honest → log.old.dead ≡ false → IsStoredOn (D.seen log.old.disk) (now (D.moments log.old.disk)) log.old.side
        log.old.version log.old.generation log.old.end state.old }
    ensures stored { D.honest → log.new.dead ≡ false → IsStoredOn (D.seen log.new.disk) (now (D.moments log.new.disk)) log.new.side
        log.new.version log.new.generation log.new.end state.new }
    ensures any_moment { D.honest → log.old.dead ≡ false → Throughout (D.moments log.old.disk) (D.moments log.new.disk)
        (AllRecoverEither state.old (replay state.old records.now)) }
    ensures held { D.honest → (held : List Record)
        → HoldsUpTo (D.seen log.old.disk log.old.side) log.old.version log.old.generation held log.old.end
        → OnOk result (HoldsUpTo (D.seen log.new.disk log.old.side) log.old.version log.old.generation
        (held ++ records.now) log.new.end) }
    ensures ok { OnOk result (state.new ≡ replay state.old records.now) }
    ensures alive { OnOk result ((log.old.dead ≡ false) × (log.new.dead ≡ false)) }
    ensures calls { D.honest → (D.moments log.new.disk).newest ≤ (D.moments log.old.disk).newest + 4 }
    ensures success { OnOk result (D.faults log.new.disk ≡ D.faults log.old.disk) }
    ensures err { OnErr result (state.new ≡ state.old) }
    ensures device { IsErrOf result faults.Device → (log.new.dead ≡ true) × Rises (D.faults log.old.disk) (D.faults log.new.disk) }
    ensures unchanged { IfErr result (λ fault. fault ≢ faults.Device → log.new ≡ log.old) }
    ensures dead { IsErrOf result faults.Dead ↔ (log.old.dead ≡ true) }
    ensures old_version { IsErrOf result faults.OldVersion ↔ ((log.old.dead ≡ false) × (log.old.version ≡ versions.One)) }
    ensures full { IsErrOf result faults.Full ↔ ((log.old.dead ≡ false)
        × ((log.old.version ≡ versions.Two) × IsFull log.old.end records.now)) }
    ensures spent { IsErrOf result faults.GenerationsSpent → ⊥ }
    ensures side { log.new.side ≡ log.old.side }
    ensures version { log.new.version ≡ log.old.version }
    ensures generation { log.new.generation ≡ log.old.generation }
{
    let text = log.batch(alloc, records)?;
    let staged = stage_beside(alloc, state, records)?;
    match log.append(&text) {
        Ok(()) => {
            *state = staged.finish();
            Ok(())
        }
        Err(_) => {
            *state = staged.discard();
            Err(CommitFault::Device)
        }
    }
}

/// Makes ready to take in some records, the state itself in the answer. Without memory the state stays where it was.
pub(crate) fn stage_beside(
    alloc: Global,
    state: &mut State,
    records: &[Record],
) -> Result<Staged, CommitFault>
    ensures staged { IfOk result (λ s. (staged_state s ≡ state.old) × (staged_records s ≡ records.now)) }
    ensures err { OnErr result (state.new ≡ state.old) }
    ensures fault { IfErr result (λ fault. fault ≡ faults.OutOfMemory) }
{
    match mem::replace(state, State::new(alloc)).stage(alloc, records) {
        Ok(staged) => Ok(staged),
        Err(same) => {
            *state = same;
            Err(CommitFault::OutOfMemory)
        }
    }
}
