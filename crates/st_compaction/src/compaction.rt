//! A store that changes sides.

ghost use Rattle.std.specs.Prelude.{◌≡◌, ◌≢◌, ◌↔◌, ◌+◌, ◌-◌, ◌^◌, true, false, IfErr, OnOk, IsErrOf};
ghost use Rattle.st_disk.specs.Crash.{other};
ghost use Rattle.st_disk.specs.Moments.{Throughout};
ghost use Rattle.st_disk.specs.Faults.{Rises};
ghost use Rattle.st_records.specs.declared.version.Version.TheVariants as versions;
ghost use Rattle.st_state.specs.Keepable.{kept_records};
ghost use Rattle.st_file.specs.Side.{HoldsUpTo};
ghost use Rattle.st_file.specs.Grown.{IsFull};
ghost use Rattle.st_file.specs.declared.commit_fault.CommitFault.TheVariants as faults;
ghost use Rattle.st_recovery.specs.Stored.{AllRecover};
ghost use Rattle.st_compaction.specs.Compacted.{HasChangedSides};

use crate::rewriting::rewrite;
use crate::text::compacted_text;
use st_disk::{Disk, Which};
use st_file::{CommitFault, HEADER_BYTES};
use st_records::{Form, Version};
use st_recovery::Store;
use std::alloc::Global;

/// Writes the whole state of a store on the other side of its disk, as one batch of kept records in byte order of their
/// names (no batch of a state without entries), of version 2 and the next generation, and goes on there. The side that
/// counted stays as it was, and gives way. All memory is taken before the first call of the device; the state isn't
/// copied, its text is made once. Only a device fault changes the store, and leaves it dead, its state as it was.
pub fn compact<D: Disk + Drop>(alloc: Global, store: &mut Store<D>) -> Result<(), CommitFault>
    // At every moment each pair recovers the state.
    ensures any_moment { D.honest → store.old.log.dead ≡ false
        → Throughout (D.moments store.old.log.disk) (D.moments store.new.log.disk) (AllRecover store.old.state) }
    ensures state { store.new.state ≡ store.old.state }
    ensures changed { OnOk result (HasChangedSides store.old.log.side store.new.log.side store.new.log.version
        store.old.log.generation store.new.log.generation) }
    // The side holds just a kept record for each entry, in byte order of the names.
    ensures held { D.honest → OnOk result (HoldsUpTo (D.seen store.new.log.disk (other store.old.log.side)) versions.Two
        (store.old.log.generation + 1) (kept_records store.old.state) store.new.log.end) }
    ensures alive { OnOk result ((store.old.log.dead ≡ false) × (store.new.log.dead ≡ false)) }
    ensures success { OnOk result (D.faults store.new.log.disk ≡ D.faults store.old.log.disk) }
    ensures device { IsErrOf result faults.Device
        → (store.new.log.dead ≡ true) × Rises (D.faults store.old.log.disk) (D.faults store.new.log.disk) }
    ensures unchanged { IfErr result (λ fault. fault ≢ faults.Device → store.new.log ≡ store.old.log) }
    ensures dead { IsErrOf result faults.Dead ↔ (store.old.log.dead ≡ true) }
    ensures spent { IsErrOf result faults.GenerationsSpent
        ↔ ((store.old.log.dead ≡ false) × (store.old.log.generation ≡ 2 ^ 64 - 1)) }
    ensures full { IsErrOf result faults.Full ↔ ((store.old.log.dead ≡ false)
        × ((store.old.log.generation ≢ 2 ^ 64 - 1) × IsFull HEADER_BYTES (kept_records store.old.state))) }
    ensures old_version { IsErrOf result faults.OldVersion → ⊥ }
{
    if store.log.dead {
        return Err(CommitFault::Dead);
    }
    let Some(generation) = store.log.generation.checked_add(1) else {
        return Err(CommitFault::GenerationsSpent);
    };
    let text = compacted_text(alloc, Form::Plain, generation, &store.state)?;
    let side = other_side(store.log.side);
    store.log.dead = true; // until all of it stands on the other side
    rewrite(&mut store.log.disk, side, &text)?;
    store.log.side = side;
    store.log.version = Version::Two;
    store.log.generation = generation;
    store.log.end = text.len();
    store.log.dead = false;
    Ok(())
}

pub(crate) fn other_side(side: Which) -> Which
    ensures { result ≡ other side }
{
    match side {
        Which::A => Which::B,
        Which::B => Which::A,
    }
}
