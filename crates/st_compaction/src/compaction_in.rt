//! A store whose side has some form, and that changes sides.

ghost use Rattle.std.specs.Prelude.{◌≡◌, ◌≢◌, ◌↔◌, ◌+◌, ◌-◌, ◌^◌, true, false, IfErr, OnOk, IsErrOf};
ghost use Rattle.st_disk.specs.Crash.{other};
ghost use Rattle.st_disk.specs.Moments.{Throughout};
ghost use Rattle.st_disk.specs.Faults.{Rises};
ghost use Rattle.st_state.specs.Keepable.{kept_records};
ghost use Rattle.st_file.specs.Side.{HoldsUpToIn};
ghost use Rattle.st_file.specs.Grown.{IsFullIn};
ghost use Rattle.st_file.specs.declared.commit_fault.CommitFault.TheVariants as faults;
ghost use Rattle.st_recovery.specs.Stored.{AllRecoverIn};
ghost use Rattle.st_compaction.specs.Compacted.{HasChangedSidesIn, SaysNoMoreThan};

use crate::compaction::other_side;
use crate::rewriting::rewrite;
use crate::text::compacted_text;
use st_disk::Disk;
use st_file::{CommitFault, HEADER_BYTES};
use st_recovery::StoreIn;
use std::alloc::Global;

/// As `compact`, in the form that is written, whatever form the side had: it takes batches then.
pub fn compact_in<D: Disk + Drop>(alloc: Global, store: &mut StoreIn<D>) -> Result<(), CommitFault>
    ensures any_moment { D.honest → store.old.log.dead ≡ false
        → Throughout (D.moments store.old.log.disk) (D.moments store.new.log.disk) (AllRecoverIn store.old.newest store.old.state) }
    ensures state { store.new.state ≡ store.old.state }
    // Its marks are written again, and there are none where the side that counted had none.
    ensures marks { SaysNoMoreThan store.old.log.form store.new.state }
    ensures newest { store.new.newest ≡ store.old.newest }
    ensures changed { OnOk result (HasChangedSidesIn store.old.newest store.old.log.side store.new.log.side store.new.log.form
        store.old.log.generation store.new.log.generation) }
    ensures held { D.honest → OnOk result (HoldsUpToIn (D.seen store.new.log.disk (other store.old.log.side)) store.old.newest
        (store.old.log.generation + 1) (kept_records store.old.state) store.new.log.end) }
    ensures alive { OnOk result ((store.old.log.dead ≡ false) × (store.new.log.dead ≡ false)) }
    ensures success { OnOk result (D.faults store.new.log.disk ≡ D.faults store.old.log.disk) }
    ensures device { IsErrOf result faults.Device
        → (store.new.log.dead ≡ true) × Rises (D.faults store.old.log.disk) (D.faults store.new.log.disk) }
    ensures unchanged { IfErr result (λ fault. fault ≢ faults.Device → store.new.log ≡ store.old.log) }
    ensures dead { IsErrOf result faults.Dead ↔ (store.old.log.dead ≡ true) }
    ensures spent { IsErrOf result faults.GenerationsSpent
        ↔ ((store.old.log.dead ≡ false) × (store.old.log.generation ≡ 2 ^ 64 - 1)) }
    ensures full { IsErrOf result faults.Full ↔ ((store.old.log.dead ≡ false)
        × ((store.old.log.generation ≢ 2 ^ 64 - 1) × IsFullIn store.old.newest HEADER_BYTES (kept_records store.old.state))) }
    ensures old_version { IsErrOf result faults.OldVersion → ⊥ }
{
    if store.log.dead {
        return Err(CommitFault::Dead);
    }
    let Some(generation) = store.log.generation.checked_add(1) else {
        return Err(CommitFault::GenerationsSpent);
    };
    let text = compacted_text(alloc, store.newest, generation, &store.state)?;
    let side = other_side(store.log.side);
    store.log.dead = true; // until all of it stands on the other side
    rewrite(&mut store.log.disk, side, &text)?;
    store.log.side = side;
    store.log.form = store.newest;
    store.log.generation = generation;
    store.log.end = text.len();
    store.log.dead = false;
    Ok(())
}
