//! When a store changes sides: its side isn't of the form that is written, or has grown long.

ghost use Rattle.std.specs.Prelude.{◌≡◌, ◌≢◌, ◌⊎◌, ◌↔◌, ◌+◌, ◌-◌, ◌^◌, true, false, IsTrue, IsOk, IfErr, OnOk, IsErrOf};
ghost use Rattle.st_disk.specs.Crash.{other};
ghost use Rattle.st_disk.specs.Moments.{Throughout};
ghost use Rattle.st_disk.specs.Faults.{Rises};
ghost use Rattle.st_state.specs.Keepable.{kept_records};
ghost use Rattle.st_file.specs.Grown.{IsFullIn};
ghost use Rattle.st_file.specs.Side.{HoldsUpToIn};
ghost use Rattle.st_file.specs.declared.commit_fault.CommitFault.{CommitFault};
ghost use Rattle.st_file.specs.declared.commit_fault.CommitFault.TheVariants as commits;
ghost use Rattle.st_recovery.specs.Stored.{AllRecoverIn};
ghost use Rattle.st_compaction.specs.Compacted.{HasChangedSidesIn};
ghost use Rattle.bd_flusher.specs.declared.fault.FlushFault.TheVariants as faults;
ghost use Rattle.bd_flusher.specs.Faults.{fault_of};
ghost use Rattle.bd_flusher.specs.Parts.{Written};
ghost use Rattle.bd_flusher.specs.Tidying.{IsLong};

use crate::FlushFault;
use crate::any_store::AnyStore;
use st_disk::Disk;
use st_file::{CommitFault, HEADER_BYTES};
use std::alloc::Global;

/// A side of no more bytes isn't compacted.
const LONG: usize = 1 << 20;

/// Whether a side that ends here, and ended there when it was opened or last compacted, is to be compacted.
fn is_long(end: usize, size: usize) -> bool
    ensures { IsTrue result ↔ IsLong end size }
{
    match size.checked_add(size) {
        Some(twice) => end > LONG && end > twice,
        None => false,
    }
}

/// Compacts a store whose side isn't of the form that is written, or has grown long. Of a long side a refusal is passed over,
/// unless it is the device's.
pub(crate) fn tidy_store<D: Disk + Drop, S: AnyStore<D>>(
    alloc: Global,
    store: &mut S,
    size: &mut usize,
) -> Result<(), FlushFault>
    ensures any_moment { D.honest → (S.parts_of store.old).dead ≡ false
        → Throughout (D.moments (S.parts_of store.old).disk) (D.moments (S.parts_of store.new).disk) (AllRecoverIn (S.parts_of store.old).newest (S.parts_of store.old).state) }
    ensures state { (S.parts_of store.new).state ≡ (S.parts_of store.old).state }
    ensures newest { (S.parts_of store.new).newest ≡ (S.parts_of store.old).newest }
    ensures alive { OnOk result (((S.parts_of store.old).dead ≡ false) × ((S.parts_of store.new).dead ≡ false)) }
    ensures version { OnOk result (Written (S.parts_of store.new).form (S.parts_of store.new).newest) }
    ensures success { OnOk result (D.faults (S.parts_of store.new).disk ≡ D.faults (S.parts_of store.old).disk) }
    ensures dead { IsErrOf result faults.Dead ↔ ((S.parts_of store.old).dead ≡ true) }
    ensures device { IsErrOf result faults.Device
        → ((S.parts_of store.new).dead ≡ true) × Rises (D.faults (S.parts_of store.old).disk) (D.faults (S.parts_of store.new).disk) }
    ensures unchanged { IfErr result (λ fault. fault ≢ faults.Device
        → (S.parts_of store.new ≡ S.parts_of store.old) × (size.new ≡ size.old)) }
    // What isn't the device's, nor an earlier one's, is told of a side of another form alone.
    ensures cause { IfErr result (λ fault. fault ≢ faults.Device → fault ≢ faults.Dead
        → Written (S.parts_of store.old).form (S.parts_of store.old).newest → ⊥) }
    ensures told { IfErr result (λ told. (fault : CommitFault) × (told ≡ fault_of fault)) }
    ensures old_version { IsErrOf result faults.OldVersion
        → (Written (S.parts_of store.old).form (S.parts_of store.old).newest → ⊥) × ((S.parts_of store.old).generation ≡ 2 ^ 64 - 1) }
    ensures full { IsErrOf result faults.Full → IsFullIn (S.parts_of store.old).newest HEADER_BYTES (kept_records (S.parts_of store.old).state) }
    // The store has gone on where it was, or on the other side, which holds its state alone and whose length is kept.
    ensures compacted { OnOk result (((S.parts_of store.new ≡ S.parts_of store.old) × (size.new ≡ size.old))
        ⊎ (HasChangedSidesIn (S.parts_of store.old).newest (S.parts_of store.old).side (S.parts_of store.new).side (S.parts_of store.new).form
        (S.parts_of store.old).generation (S.parts_of store.new).generation × (size.new ≡ (S.parts_of store.new).end)
        × (D.honest → HoldsUpToIn (D.seen (S.parts_of store.new).disk (other (S.parts_of store.old).side)) (S.parts_of store.old).newest
        ((S.parts_of store.old).generation + 1) (kept_records (S.parts_of store.old).state) (S.parts_of store.new).end))) }
    ensures unneeded { (S.parts_of store.old).dead ≡ false → Written (S.parts_of store.old).form (S.parts_of store.old).newest
        → (IsLong (S.parts_of store.old).end size.old → ⊥)
        → IsOk result × (S.parts_of store.new ≡ S.parts_of store.old) × (size.new ≡ size.old) }
{
    if store.has_failed() {
        return Err(FlushFault::Dead);
    }
    let is_old = !store.is_written();
    if !is_old && !is_long(store.end(), *size) {
        return Ok(());
    }
    match store.change_sides(alloc) {
        Ok(()) => {
            *size = store.end();
            Ok(())
        }
        Err(fault) => refusal(fault, is_old),
    }
}

/// What a refused compaction comes to: it is passed over, unless the device refused it or the side isn't of the form that is written.
fn refusal(fault: CommitFault, is_old: bool) -> Result<(), FlushFault>
    ensures passed_over { IsOk result ↔ ((is_old ≡ false) × (fault ≢ commits.Device)) }
    ensures told { IfErr result (λ told. told ≡ fault_of fault) }
{
    if is_old || matches!(fault, CommitFault::Device) {
        return Err(fault.into());
    }
    Ok(())
}
