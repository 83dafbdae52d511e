//! The opening of a disk.

ghost use Rattle.std.specs.Prelude.{◌≡◌, ◌⊎◌, ◌+◌, ◌≤◌, false, IfOk, IfErr, IfSome, IfNone, OnOk, IsErrOf, MatchResult};
ghost use Rattle.std.specs.FinMap as map;
ghost use Rattle.st_disk.specs.Crash.{writes_of, settled, EachPair};
ghost use Rattle.st_disk.specs.Moments.{now, Throughout};
ghost use Rattle.st_disk.specs.Faults.{CountsFaults, Rises};
ghost use Rattle.st_file.specs.Layout.{IsReadIn};
ghost use Rattle.st_file.specs.Side.{IsVoid};
ghost use Rattle.st_file.specs.declared.fault.OpenFault.TheVariants as faults;
ghost use Rattle.st_recovery.specs.Recovers.{Recovers, RecoversIn, RefusesWith, RefusesWithIn, IsChosenIn, IsMadeOf};
ghost use Rattle.st_recovery.specs.Stored.{AllRecover, AllRecoverIn, IsNewLog, IsNewLogIn, ArePossible, ArePossibleOrNew, ArePossibleOrNewIn, AreFewCalls, HaveBytes};

use crate::recovery::{ChosenIn, choose_from_in};
use crate::store::Store;
use crate::store_in::StoreIn;
use st_disk::{DeviceFault, Disk, Which};
use st_file::{HEADER_BYTES, LogIn, OpenFault, create_in};
use st_records::{Form, HashKey};
use st_state::State;
use std::alloc::Global;

/// Opens the store that a disk holds: both sides are synced and read, both before either is judged, and the side of the
/// greater generation is opened. Where both are void, side A is created with generation 1; nothing else is written. A
/// refusal hands the disk back. Names are hashed under the key, which changes nothing of what is answered.
pub fn open<D: Disk + Drop>(
    alloc: Global,
    key: HashKey,
    disk: D,
) -> Result<Store<D>, (OpenFault, D)>
    // At every moment each pair was possible at the start or, both sides being void, recovers the empty state.
    ensures any_moment { IfOk result (λ store. D.honest → Throughout (D.moments disk) (D.moments store.log.disk)
        (ArePossibleOrNew (D.seen disk Which.A) (D.seen disk Which.B) (now (D.moments disk)))) }
    ensures any_moment_refused { IfErr result (λ e. D.honest → Throughout (D.moments disk) (D.moments e.1)
        (ArePossibleOrNew (D.seen disk Which.A) (D.seen disk Which.B) (now (D.moments disk)))) }
    ensures found { IfOk result (λ store. D.honest → Recovers (D.seen disk Which.A) (D.seen disk Which.B) store.state) }
    ensures recovers { IfOk result (λ store. D.honest → AllRecover store.state (now (D.moments store.log.disk))) }
    ensures alive { IfOk result (λ store. store.log.dead ≡ false) }
    ensures created { IfOk result (λ store. D.honest → IsVoid (D.seen disk Which.A) → IsVoid (D.seen disk Which.B)
        → IsNewLog store.log.side store.log.version store.log.generation store.log.end) }
    ensures refused { IfErr result (λ e. D.honest → (e.0 ≡ faults.Device) ⊎ ((e.0 ≡ faults.OutOfMemory)
        ⊎ RefusesWith (D.seen disk Which.A) (D.seen disk Which.B) e.0)) }
    // Memory is wanted only where a side has a byte.
    ensures memory { IfErr result (λ e. D.honest → e.0 ≡ faults.OutOfMemory
        → HaveBytes (D.seen disk Which.A) (D.seen disk Which.B)) }
    ensures device { IfErr result (λ e. e.0 ≡ faults.Device → Rises (D.faults disk) (D.faults e.1)) }
    ensures success { IfOk result (λ store. D.faults store.log.disk ≡ D.faults disk) }
    ensures calls { D.honest → MatchResult result
        (λ store. AreFewCalls (D.seen disk Which.A) (D.seen disk Which.B) (D.moments disk) (D.moments store.log.disk))
        (λ e. AreFewCalls (D.seen disk Which.A) (D.seen disk Which.B) (D.moments disk) (D.moments e.1)) }
{
    match open_in(alloc, key, Form::Plain, disk) {
        Ok(store) => Ok(store.by_version()),
        Err(refused) => Err(refused),
    }
}

/// The same where `newest` is the form that is written, of the newest version that is read.
pub fn open_in<D: Disk + Drop>(
    alloc: Global,
    key: HashKey,
    newest: Form,
    disk: D,
) -> Result<StoreIn<D>, (OpenFault, D)>
    ensures any_moment { IfOk result (λ store. D.honest → Throughout (D.moments disk) (D.moments store.log.disk)
        (ArePossibleOrNewIn newest (D.seen disk Which.A) (D.seen disk Which.B) (now (D.moments disk)))) }
    ensures any_moment_refused { IfErr result (λ e. D.honest → Throughout (D.moments disk) (D.moments e.1)
        (ArePossibleOrNewIn newest (D.seen disk Which.A) (D.seen disk Which.B) (now (D.moments disk)))) }
    ensures found { IfOk result (λ store. D.honest → RecoversIn newest (D.seen disk Which.A) (D.seen disk Which.B) store.state) }
    ensures recovers { IfOk result (λ store. D.honest → AllRecoverIn newest store.state (now (D.moments store.log.disk))) }
    ensures newest { IfOk result (λ store. store.newest ≡ newest) }
    ensures alive { IfOk result (λ store. store.log.dead ≡ false) }
    ensures created { IfOk result (λ store. D.honest → IsVoid (D.seen disk Which.A) → IsVoid (D.seen disk Which.B)
        → IsNewLogIn newest store.log.side store.log.form store.log.generation store.log.end) }
    ensures refused { IfErr result (λ e. D.honest → (e.0 ≡ faults.Device) ⊎ ((e.0 ≡ faults.OutOfMemory)
        ⊎ RefusesWithIn newest (D.seen disk Which.A) (D.seen disk Which.B) e.0)) }
    ensures memory { IfErr result (λ e. D.honest → e.0 ≡ faults.OutOfMemory
        → HaveBytes (D.seen disk Which.A) (D.seen disk Which.B)) }
    ensures device { IfErr result (λ e. e.0 ≡ faults.Device → Rises (D.faults disk) (D.faults e.1)) }
    ensures success { IfOk result (λ store. D.faults store.log.disk ≡ D.faults disk) }
    ensures calls { D.honest → MatchResult result
        (λ store. AreFewCalls (D.seen disk Which.A) (D.seen disk Which.B) (D.moments disk) (D.moments store.log.disk))
        (λ e. AreFewCalls (D.seen disk Which.A) (D.seen disk Which.B) (D.moments disk) (D.moments e.1)) }
{
    let mut disk = disk;
    match find(alloc, key, newest, &mut disk) {
        Ok(found) => match found {
            Some(chosen) => Ok(store_of(newest, disk, chosen)),
            None => open_new(alloc, key, newest, disk),
        },
        Err(fault) => Err((fault, disk)),
    }
}

/// The store of the side that was chosen.
fn store_of<D: Disk + Drop>(newest: Form, disk: D, chosen: ChosenIn) -> StoreIn<D>
    requires on_a { D.honest → writes_of Which.A (now (D.moments disk)) ≡ settled (D.seen disk Which.A) }
    requires on_b { D.honest → writes_of Which.B (now (D.moments disk)) ≡ settled (D.seen disk Which.B) }
    requires chosen { D.honest → IsChosenIn newest (D.seen disk Which.A) (D.seen disk Which.B) chosen.side chosen.extent.form
        chosen.extent.generation chosen.extent.end chosen.state }
    requires form { IsReadIn newest chosen.extent.form }
    requires good { IsMadeOf chosen.extent.form chosen.state }
    ensures newest { result.newest ≡ newest }
    ensures disk { result.log.disk ≡ disk }
    ensures alive { result.log.dead ≡ false }
    ensures state { result.state ≡ chosen.state }
{
    let ChosenIn {
        side,
        extent,
        state,
    } = chosen;
    let log = LogIn {
        disk,
        side,
        form: extent.form,
        generation: extent.generation,
        end: extent.end as usize,
        dead: false,
    };
    StoreIn { log, state, newest }
}

/// The store of two void sides: side A is created.
fn open_new<D: Disk + Drop>(
    alloc: Global,
    key: HashKey,
    newest: Form,
    disk: D,
) -> Result<StoreIn<D>, (OpenFault, D)>
    requires on_a { D.honest → writes_of Which.A (now (D.moments disk)) ≡ settled (D.seen disk Which.A) }
    requires on_b { D.honest → writes_of Which.B (now (D.moments disk)) ≡ settled (D.seen disk Which.B) }
    requires void_a { D.honest → IsVoid (D.seen disk Which.A) }
    requires void_b { D.honest → IsVoid (D.seen disk Which.B) }
    ensures any_moment { IfOk result (λ store. D.honest → Throughout (D.moments disk) (D.moments store.log.disk)
        (EachPair (λ a b. RecoversIn newest a b map.empty))) }
    ensures any_moment_refused { IfErr result (λ e. D.honest → Throughout (D.moments disk) (D.moments e.1)
        (EachPair (λ a b. RecoversIn newest a b map.empty))) }
    ensures recovers { IfOk result (λ store. D.honest → AllRecoverIn newest store.state (now (D.moments store.log.disk))) }
    ensures created { IfOk result (λ store. IsNewLogIn newest store.log.side store.log.form store.log.generation store.log.end) }
    ensures newest { IfOk result (λ store. store.newest ≡ newest) }
    ensures state { IfOk result (λ store. store.state ≡ map.empty) }
    ensures alive { IfOk result (λ store. store.log.dead ≡ false) }
    ensures device { IfErr result (λ e. (e.0 ≡ faults.Device) × Rises (D.faults disk) (D.faults e.1)) }
    ensures success { IfOk result (λ store. D.faults store.log.disk ≡ D.faults disk) }
    ensures calls { D.honest → MatchResult result (λ store. (D.moments store.log.disk).newest ≤ (D.moments disk).newest + 6)
        (λ e. (D.moments e.1).newest ≤ (D.moments disk).newest + 6) }
{
    let mut disk = disk;
    match create_in(&mut disk, Which::A, newest, 1) {
        Ok(()) => {
            let log = LogIn {
                disk,
                side: Which::A,
                form: newest,
                generation: 1,
                end: HEADER_BYTES,
                dead: false,
            };
            let state = State::with_key(alloc, key);
            Ok(StoreIn { log, state, newest })
        }
        Err(_) => Err((OpenFault::Device, disk)),
    }
}

/// Syncs both sides, reads them and chooses the one that counts; None where both are void. It writes nothing.
fn find<D: Disk + Drop>(
    alloc: Global,
    key: HashKey,
    newest: Form,
    disk: &mut D,
) -> Result<Option<ChosenIn>, OpenFault>
    ensures any_moment { D.honest → Throughout (D.moments disk.old) (D.moments disk.new) (ArePossible (now (D.moments disk.old))) }
    ensures on_a { D.honest → OnOk result (writes_of Which.A (now (D.moments disk.new)) ≡ settled (D.seen disk.old Which.A)) }
    ensures on_b { D.honest → OnOk result (writes_of Which.B (now (D.moments disk.new)) ≡ settled (D.seen disk.old Which.B)) }
    ensures seen { D.honest → D.seen disk.new ≡ D.seen disk.old }
    ensures chosen { D.honest → IfOk result (λ o. IfSome o (λ c. IsChosenIn newest (D.seen disk.old Which.A) (D.seen disk.old Which.B)
        c.side c.extent.form c.extent.generation c.extent.end c.state)) }
    ensures form { IfOk result (λ o. IfSome o (λ c. IsReadIn newest c.extent.form)) }
    ensures good { IfOk result (λ o. IfSome o (λ c. IsMadeOf c.extent.form c.state)) }
    ensures void { D.honest → IfOk result (λ o. IfNone o (IsVoid (D.seen disk.old Which.A) × IsVoid (D.seen disk.old Which.B))) }
    ensures refused { D.honest → IfErr result (λ fault. (fault ≡ faults.Device) ⊎ ((fault ≡ faults.OutOfMemory)
        ⊎ RefusesWithIn newest (D.seen disk.old Which.A) (D.seen disk.old Which.B) fault)) }
    ensures memory { D.honest → IsErrOf result faults.OutOfMemory
        → HaveBytes (D.seen disk.old Which.A) (D.seen disk.old Which.B) }
    ensures success { OnOk result (D.faults disk.new ≡ D.faults disk.old) }
    ensures device { IsErrOf result faults.Device → Rises (D.faults disk.old) (D.faults disk.new) }
    ensures calls { D.honest → (D.moments disk.new).newest ≤ (D.moments disk.old).newest + 2 }
{
    settle_both(disk)?;
    choose_from_in(alloc, key, newest, disk)
}

/// Syncs both sides.
fn settle_both<D: Disk + Drop>(disk: &mut D) -> Result<(), DeviceFault>
    ensures any_moment { D.honest → Throughout (D.moments disk.old) (D.moments disk.new) (ArePossible (now (D.moments disk.old))) }
    ensures on_a { D.honest → OnOk result (writes_of Which.A (now (D.moments disk.new)) ≡ settled (D.seen disk.old Which.A)) }
    ensures on_b { D.honest → OnOk result (writes_of Which.B (now (D.moments disk.new)) ≡ settled (D.seen disk.old Which.B)) }
    ensures seen { D.honest → D.seen disk.new ≡ D.seen disk.old }
    ensures calls { D.honest → (D.moments disk.new).newest ≤ (D.moments disk.old).newest + 2 }
    ensures faults { CountsFaults result (D.faults disk.old) (D.faults disk.new) }
{
    disk.sync(Which::A)?;
    disk.sync(Which::B)?;
    Ok(())
}
