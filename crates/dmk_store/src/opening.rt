//! The store that a run goes by, opened and compacted.
ghost use Rattle.std.specs.Prelude.{◌≡◌, ◌≢◌, ◌⊎◌, ◌↔◌, ◌<◌, ◌≤◌, ◌*◌, ◌^◌, false, IsTrue, IsOk, IsErrOf, IfOk, IfErr, OnOk};
ghost use Rattle.st_disk.specs.Moments.{now, Throughout};
ghost use Rattle.st_disk.specs.Faults.{Rises};
ghost use Rattle.st_recovery.specs.Recovers.{RecoversIn};
ghost use Rattle.st_recovery.specs.Stored.{AllRecoverIn};
ghost use Rattle.st_state.specs.Keepable.{kept_bytes_in};
ghost use Rattle.st_file.specs.declared.commit_fault.CommitFault.TheVariants as commits;
ghost use Rattle.st_disk.specs.declared.which.Which.TheVariants as sides;
ghost use Rattle.bd_flusher.specs.declared.fault.FlushFault.TheVariants as refusals;
ghost use Rattle.bd_flusher.specs.Faults.{fault_of};
ghost use Rattle.jb_closing.specs.declared.fault.RunFault.TheVariants as run_faults;
ghost use Rattle.dmk_store.specs.Opened.{ArePossibleOrRecover, RecoversAsBefore, StandsInOlder, TellsNotCompacted, IsWhyNotOpened, IsOfDevice};

use crate::stop::Stop;
use bd_flusher::FlushFault;
use dmk_messages::Fault;
use jb_closing::RunFault;
use st_compaction::compact_in;
use st_disk::Disk;
use st_file::{CommitFault, LogIn};
use st_records::{Form, HashKey};
use st_recovery::{StoreIn, open_in};
use st_state::State;
use std::alloc::Global;

/// A side that ends behind this is long: it is written anew when it is opened, if half of it can go.
/// Else a state that is that long when it is compacted would be written anew by each run: 0.3 s for 77 MB.
const LONG: usize = 1 << 20;

/// The disk of a log that is let go.
pub fn disk_of<D: Disk + Drop>(log: LogIn<D>) -> D
    ensures { result ≡ log.disk }
{
    let LogIn {
        disk,
        side: _,
        form: _,
        generation: _,
        end: _,
        dead: _,
    } = log;
    disk
}

/// The disk of a store that is let go.
pub fn disk_of_store<D: Disk + Drop>(store: StoreIn<D>) -> D
    ensures { result ≡ store.log.disk }
{
    let StoreIn {
        log,
        state: _,
        newest: _,
    } = store;
    disk_of(log)
}

/// Whether a side of this form that ends there is as short as a compaction may leave it: it isn't long, or more than half of it would be
/// kept. It takes no memory.
fn is_compact(form: Form, state: &State, end: usize) -> bool
    ensures { IsTrue result ↔ ((end ≤ 2 ^ 20) ⊎ (end < 2 * kept_bytes_in form state.now)) }
{
    // The room of half the side ends the count as soon as more than half would be kept. Marks count, which may be more than all else.
    end <= LONG || state.room_after_kept_in(form, end / 2).is_none()
}

/// What a refused compaction comes to: it is passed over, unless the device refused it or the side is of an older form, which has
/// to change.
fn refusal(fault: CommitFault, is_old: bool) -> Result<(), RunFault>
    ensures passed_over { IsOk result ↔ ((is_old ≡ false) × (fault ≢ commits.Device)) }
    ensures told { IfErr result (λ told. told ≡ run_faults.Flush (fault_of fault)) }
{
    if is_old || matches!(fault, CommitFault::Device) {
        return Err(RunFault::Flush(FlushFault::from(fault)));
    }
    Ok(())
}

/// Compacts a store whose side is of an older form, or long and at least twice what is kept of it. Of a long side a refusal is passed
/// over, unless it is the device's.
fn compact_at_opening<D: Disk + Drop>(alloc: Global, store: &mut StoreIn<D>) -> Result<(), RunFault>
    requires { store.old.log.dead ≡ false }
    ensures any_moment { D.honest → Throughout (D.moments store.old.log.disk) (D.moments store.new.log.disk)
        (AllRecoverIn store.old.newest store.old.state) }
    ensures state { store.new.state ≡ store.old.state }
    ensures alive { OnOk result (store.new.log.dead ≡ false) }
    ensures newest { store.new.newest ≡ store.old.newest }
    ensures form { OnOk result (store.new.log.form ≡ store.old.newest) }
    ensures refused { IfErr result (TellsNotCompacted
        (D.honest → StandsInOlder store.old.newest (D.seen store.new.log.disk) (now (D.moments store.new.log.disk)) store.new.state)) }
    // A side of the newest form that is short, or of which more than half would be left, stays as it is.
    ensures unneeded { store.old.log.form ≡ store.old.newest
        → (store.old.log.end ≤ 2 ^ 20) ⊎ (store.old.log.end < 2 * kept_bytes_in store.old.newest store.old.state) → IsOk result × (store.new.log ≡ store.old.log) }
    ensures device { IsErrOf result (run_faults.Flush refusals.Device)
        → Rises (D.faults store.old.log.disk) (D.faults store.new.log.disk) }
{
    let (form, newest, end) = (store.log.form, store.newest, store.log.end);
    let is_old = form != newest;
    if !is_old && is_compact(newest, &store.state, end) {
        return Ok(());
    }
    match compact_in(alloc, store) {
        Ok(()) => Ok(()),
        Err(fault) => refusal(fault, is_old),
    }
}

/// Opens the store of a disk, which is read up to this newest form, and compacts it where its side is of an older one, or long and half
/// of it can go: then it takes records of that form. A refusal hands the disk back.
pub fn open_store<D: Disk + Drop>(
    alloc: Global,
    key: HashKey,
    newest: Form,
    disk: D,
) -> Result<StoreIn<D>, (Stop, D)>
    // At every moment each pair was possible at the start, or recovers the state that the sides recovered.
    ensures any_moment { IfOk result (λ store. D.honest → Throughout (D.moments disk) (D.moments store.log.disk)
        (ArePossibleOrRecover newest (D.seen disk) (now (D.moments disk)))) }
    ensures any_moment_refused { IfErr result (λ e. D.honest → Throughout (D.moments disk) (D.moments e.1)
        (ArePossibleOrRecover newest (D.seen disk) (now (D.moments disk)))) }
    ensures found { IfOk result (λ store. D.honest → RecoversIn newest (D.seen disk sides.A) (D.seen disk sides.B) store.state) }
    ensures recovers { IfOk result (λ store. D.honest → AllRecoverIn newest store.state (now (D.moments store.log.disk))) }
    // What the disk recovers then it recovered before.
    ensures as_before { IfOk result (λ store. RecoversAsBefore newest D.honest (D.seen disk) (D.seen store.log.disk)) }
    ensures alive { IfOk result (λ store. store.log.dead ≡ false) }
    ensures newest { IfOk result (λ store. store.newest ≡ newest) }
    ensures form { IfOk result (λ store. store.log.form ≡ newest) }
    ensures refused { IfErr result (λ e. IsWhyNotOpened newest D.honest (D.seen disk) (D.seen e.1) (now (D.moments e.1)) e.0) }
    // A fault is the device's only where the disk has counted one.
    ensures device { IfErr result (λ e. IsOfDevice e.0 → 0 < D.faults e.1) }
{
    let mut store = match open_in(alloc, key, newest, disk) {
        Ok(store) => store,
        Err((fault, disk)) => return Err((Stop::Before(Fault::State(fault)), disk)),
    };
    match compact_at_opening(alloc, &mut store) {
        Ok(()) => Ok(store),
        Err(fault) => Err((Stop::Run(fault), disk_of_store(store))),
    }
}
