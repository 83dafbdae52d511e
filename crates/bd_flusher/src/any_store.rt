//! What a site asks of its store, whatever its type.

ghost use Rattle.std.specs.Prelude.{◌≡◌, ◌≢◌, ◌↔◌, ◌+◌, ◌-◌, ◌^◌, ◌++◌, List, true, false, IsTrue, IfErr, OnOk, OnErr, IsErrOf};
ghost use Rattle.std.specs.List.{AllByRecursion};
ghost use Rattle.st_disk.specs.Crash.{other};
ghost use Rattle.st_disk.specs.Moments.{now, Throughout};
ghost use Rattle.st_disk.specs.Faults.{Rises};
ghost use Rattle.st_records.specs.declared.record.Record.{Record};
ghost use Rattle.st_records.specs.Limits.{IsGoodIn};
ghost use Rattle.st_state.specs.State.{replay};
ghost use Rattle.st_state.specs.Keepable.{kept_records};
ghost use Rattle.st_file.specs.declared.layout.TheConstants.{HEADER_BYTES};
ghost use Rattle.st_file.specs.declared.commit_fault.CommitFault.TheVariants as faults;
ghost use Rattle.st_file.specs.Batch.{may_stand};
ghost use Rattle.st_file.specs.Grown.{IsFullIn};
ghost use Rattle.st_file.specs.Side.{HoldsUpToIn};
ghost use Rattle.st_recovery.specs.Stored.{AllRecoverIn, AllRecoverEitherIn};
ghost use Rattle.st_compaction.specs.Compacted.{HasChangedSidesIn};
ghost use Rattle.bd_flusher.specs.Parts.{Parts, Written};

use st_compaction::{compact, compact_in};
use st_disk::Disk;
use st_file::CommitFault;
use st_records::{Record, Version};
use st_recovery::{Store, StoreIn};
use st_state::State;
use std::alloc::Global;

/// A store of some type: a `Store`, which writes version 2, or a `StoreIn`, which writes the form that it was opened with.
pub(crate) trait AnyStore<D: Disk + Drop> {
    ghost parts_of: { Self → Parts D };

    /// Whether a call of the device has failed.
    fn has_failed(&self) -> bool
        ensures { result ≡ (parts_of self.now).dead };

    /// Where the side ends that counts.
    fn end(&self) -> usize
        ensures { result ≡ (parts_of self.now).end };

    /// Whether the side that counts has the form that is written.
    fn is_written(&self) -> bool
        ensures { IsTrue result ↔ Written (parts_of self.now).form (parts_of self.now).newest };

    fn map(&self) -> &State
        ensures { result.now ≡ (parts_of self.now).state };

    /// As `Store::commit`.
    fn add(&mut self, alloc: Global, records: &[Record]) -> Result<(), CommitFault>
        requires good { AllByRecursion (IsGoodIn (parts_of self.old).newest) records.now }
        requires later { AllByRecursion (λ r. may_stand false r ≡ true) records.now }
        ensures any_moment { D.honest → (parts_of self.old).dead ≡ false
            → Throughout (D.moments (parts_of self.old).disk) (D.moments (parts_of self.new).disk)
            (AllRecoverEitherIn (parts_of self.old).newest (parts_of self.old).state (replay (parts_of self.old).state records.now)) }
        ensures held { D.honest → (held : List Record)
            → HoldsUpToIn (D.seen (parts_of self.old).disk (parts_of self.old).side) (parts_of self.old).form (parts_of self.old).generation held (parts_of self.old).end
            → OnOk result (HoldsUpToIn (D.seen (parts_of self.new).disk (parts_of self.old).side) (parts_of self.old).form (parts_of self.old).generation
            (held ++ records.now) (parts_of self.new).end) }
        ensures ok { OnOk result ((parts_of self.new).state ≡ replay (parts_of self.old).state records.now) }
        ensures alive { OnOk result ((parts_of self.new).dead ≡ false) }
        ensures err { OnErr result ((parts_of self.new).state ≡ (parts_of self.old).state) }
        ensures device { IsErrOf result faults.Device → ((parts_of self.new).dead ≡ true)
            × Rises (D.faults (parts_of self.old).disk) (D.faults (parts_of self.new).disk) }
        ensures unchanged { IfErr result (λ fault. fault ≢ faults.Device → parts_of self.new ≡ parts_of self.old) }
        ensures dead { IsErrOf result faults.Dead → (parts_of self.old).dead ≡ true }
        ensures old_version { IsErrOf result faults.OldVersion → Written (parts_of self.old).form (parts_of self.old).newest → ⊥ }
        ensures full { IsErrOf result faults.Full → IsFullIn (parts_of self.old).newest (parts_of self.old).end records.now }
        ensures spent { IsErrOf result faults.GenerationsSpent → ⊥ }
        ensures side { (parts_of self.new).side ≡ (parts_of self.old).side }
        ensures form { (parts_of self.new).form ≡ (parts_of self.old).form }
        ensures newest { (parts_of self.new).newest ≡ (parts_of self.old).newest }
        ensures generation { (parts_of self.new).generation ≡ (parts_of self.old).generation };

    /// As `compact`.
    fn change_sides(&mut self, alloc: Global) -> Result<(), CommitFault>
        ensures any_moment { D.honest → (parts_of self.old).dead ≡ false
            → Throughout (D.moments (parts_of self.old).disk) (D.moments (parts_of self.new).disk) (AllRecoverIn (parts_of self.old).newest (parts_of self.old).state) }
        ensures state { (parts_of self.new).state ≡ (parts_of self.old).state }
        ensures newest { (parts_of self.new).newest ≡ (parts_of self.old).newest }
        ensures changed { OnOk result (HasChangedSidesIn (parts_of self.old).newest (parts_of self.old).side (parts_of self.new).side (parts_of self.new).form
            (parts_of self.old).generation (parts_of self.new).generation) }
        ensures held { D.honest → OnOk result (HoldsUpToIn (D.seen (parts_of self.new).disk (other (parts_of self.old).side)) (parts_of self.old).newest
            ((parts_of self.old).generation + 1) (kept_records (parts_of self.old).state) (parts_of self.new).end) }
        ensures alive { OnOk result (((parts_of self.old).dead ≡ false) × ((parts_of self.new).dead ≡ false)) }
        ensures success { OnOk result (D.faults (parts_of self.new).disk ≡ D.faults (parts_of self.old).disk) }
        ensures device { IsErrOf result faults.Device → ((parts_of self.new).dead ≡ true)
            × Rises (D.faults (parts_of self.old).disk) (D.faults (parts_of self.new).disk) }
        ensures unchanged { IfErr result (λ fault. fault ≢ faults.Device → parts_of self.new ≡ parts_of self.old) }
        ensures dead { IsErrOf result faults.Dead → (parts_of self.old).dead ≡ true }
        ensures spent { IsErrOf result faults.GenerationsSpent → (parts_of self.old).generation ≡ 2 ^ 64 - 1 }
        ensures full { IsErrOf result faults.Full → IsFullIn (parts_of self.old).newest HEADER_BYTES (kept_records (parts_of self.old).state) }
        ensures old_version { IsErrOf result faults.OldVersion → ⊥ };

    ghost recovers: { (s : Self) → D.honest → (parts_of s).dead ≡ false
        → AllRecoverIn (parts_of s).newest (parts_of s).state (now (D.moments (parts_of s).disk)) };
}

impl<D: Disk + Drop> AnyStore<D> for Store<D> {
    ghost use Rattle.st_disk.specs.Moments.{now};
    ghost use Rattle.st_recovery.proofs.StoredLemmas.{all_recover};
    ghost use Rattle.bd_flusher.specs.Parts.{plain_parts};

    ghost parts_of = { λ s. plain_parts s.log.disk s.log.side s.log.version s.log.generation s.log.end s.log.dead s.state };

    fn has_failed(&self) -> bool {
        self.log.dead
    }

    fn end(&self) -> usize {
        self.log.end
    }

    fn is_written(&self) -> bool {
        matches!(self.log.version, Version::Two)
    }

    fn map(&self) -> &State {
        self.state()
    }

    fn add(&mut self, alloc: Global, records: &[Record]) -> Result<(), CommitFault> {
        self.commit(alloc, records)
    }

    fn change_sides(&mut self, alloc: Global) -> Result<(), CommitFault> {
        compact(alloc, self)
    }

    ghost recovers = { λ s honest alive. all_recover s.log.side (now (D.moments s.log.disk)) (s.stored honest alive) };
}

impl<D: Disk + Drop> AnyStore<D> for StoreIn<D> {
    ghost use Rattle.st_disk.specs.Moments.{now};
    ghost use Rattle.st_recovery.proofs.StoredLemmas.{all_recover};
    ghost use Rattle.bd_flusher.specs.Parts.{parts};

    ghost parts_of = { λ s. parts s.log.disk s.log.side s.log.form s.newest s.log.generation s.log.end s.log.dead s.state };

    fn has_failed(&self) -> bool {
        self.log.dead
    }

    fn end(&self) -> usize {
        self.log.end
    }

    fn is_written(&self) -> bool {
        self.log.form == self.newest
    }

    fn map(&self) -> &State {
        self.state()
    }

    fn add(&mut self, alloc: Global, records: &[Record]) -> Result<(), CommitFault> {
        self.commit(alloc, records)
    }

    fn change_sides(&mut self, alloc: Global) -> Result<(), CommitFault> {
        compact_in(alloc, self)
    }

    ghost recovers = { λ s honest alive. all_recover s.log.side (now (D.moments s.log.disk)) (s.stored honest alive) };
}
