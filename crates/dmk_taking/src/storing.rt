//! What is taken over, recorded in its own state.
ghost use Rattle.std.specs.Prelude.{◌≡◌, ℕ, List, Option, false, IfOk, OnOk};
ghost use Rattle.std.specs.List.{AllByRecursion};
ghost use Rattle.mk_eval.specs.Output.{World};
ghost use Rattle.mk_nodes.specs.declared.file_look.FileLook.{FileLook};
ghost use Rattle.st_disk.specs.Moments.{now, Throughout};
ghost use Rattle.st_records.specs.declared.version.Form.TheVariants as forms;
ghost use Rattle.st_recovery.specs.Stored.{AllRecoverIn};
ghost use Rattle.dmk_reading.specs.Keeping.{kept_form};
ghost use Rattle.dmk_levels.specs.Known.{AreRead, IsAsked};
ghost use Rattle.dmk_taking.specs.Left.{AllRecoverKnown, ArePossibleOrKnown, IsLeft, LeavesState};

use bd_flusher::FlushFault;
use bd_lists::Variable;
use dmk_levels::{Asked, known_of};
use dmk_reading::{Options, kept_form};
use dmk_store::{Stop, disk_of_store, open_store};
use jb_closing::RunFault;
use mk_eval::Includes;
use mk_levels::Level;
use mk_reader::Item;
use mk_rules::Tree;
use st_disk::Disk;
use st_records::{Form, HashKey, Record};
use st_recovery::StoreIn;
use std::alloc::Global;

/// What came of taking over what other levels know.
#[derive(Drop)]
pub enum Taking {
    /// The makefiles or their rules have a fault, which a run tells: nothing is taken.
    Unread,
    /// These records were taken in, one of each target.
    Taken(Vec<Record>),
}

/// Takes targets over into a store whose records have marks: all of them at once, or none.
fn take_over<T: Tree, I: Includes, D: Disk + Drop>(
    alloc: Global,
    asked: &Asked<'_>,
    tree: &mut T,
    includes: &mut I,
    items: Vec<Item>,
    store: &mut StoreIn<D>,
) -> Result<Taking, Stop>
    requires { store.old.log.dead ≡ false }
    ensures any_moment { D.honest → (world : World) (looks : List ℕ → Option FileLook) → I.allows includes.new world → T.allows tree.new looks
        → AreRead world looks asked.now.options.now asked.now.environment.now items.items
        → Throughout (D.moments store.old.log.disk) (D.moments store.new.log.disk) (AllRecoverKnown store.old.newest
        (IsAsked world looks asked.now.options.now asked.now.environment.now) asked.now.levels.now store.old.state) }
    ensures recovers { D.honest → OnOk result (AllRecoverIn store.old.newest store.new.state (now (D.moments store.new.log.disk))) }
    ensures left { IfOk result (λ found. (world : World) (looks : List ℕ → Option FileLook) → I.allows includes.new world → T.allows tree.new looks
        → AreRead world looks asked.now.options.now asked.now.environment.now items.items
        → IsLeft store.old.newest (IsAsked world looks asked.now.options.now asked.now.environment.now) asked.now.levels.now
        store.old.state store.new.state found) }
{
    if store.newest != Form::Marked {
        drop(items);
        return Ok(Taking::Unread);
    }
    let found = known_of(alloc, asked, tree, includes, items, store.state());
    let Ok(records) = found else {
        return Ok(Taking::Unread);
    };
    match store.commit(alloc, &records) {
        Ok(()) => Ok(Taking::Taken(records)),
        Err(fault) => Err(Stop::Run(RunFault::Flush(FlushFault::from(fault)))),
    }
}

/// Takes over what other levels know, where the items of the makefiles are these: each target whose recipe is to be run by what the disk
/// has recorded, and that is up to date by what the first of the levels knows that can tell of what it was made, is recorded as it is known
/// there, unless the disk or some level has its recipe as begun or failed. What came of it, and the disk.
///
/// A fault of the store comes as in a run. Where the makefiles or their rules have one, which a run tells, nothing is taken.
pub fn take_known<T: Tree, I: Includes, D: Disk + Drop>(
    alloc: Global,
    key: HashKey,
    environment: &[Variable],
    options: &Options,
    levels: &[Level],
    tree: &mut T,
    includes: &mut I,
    items: Vec<Item>,
    disk: D,
) -> (Result<Taking, Stop>, D)
    // At every moment each pair was possible at the start, or recovers the state that the sides recovered, or that with all targets that
    // are taken over.
    ensures any_moment { D.honest → (world : World) (looks : List ℕ → Option FileLook) → I.allows includes.new world → T.allows tree.new looks
        → AreRead world looks options.now environment.now items.items
        → Throughout (D.moments disk) (D.moments result.1) (ArePossibleOrKnown (kept_form options.now.profile) (IsAsked world looks options.now environment.now)
        levels.now (D.seen disk) (now (D.moments disk))) }
    ensures left { IfOk result.0 (λ found. D.honest → (world : World) (looks : List ℕ → Option FileLook) → I.allows includes.new world → T.allows tree.new looks
        → AreRead world looks options.now environment.now items.items
        → LeavesState (kept_form options.now.profile) (IsAsked world looks options.now environment.now) levels.now (D.seen disk) (now (D.moments result.1)) found) }
{
    let newest = kept_form(options.profile);
    let mut store = match open_store(alloc, key, newest, disk) {
        Ok(store) => store,
        Err((stop, disk)) => return (Err(stop), disk),
    };
    let asked = Asked {
        environment,
        options,
        levels,
    };
    let found = take_over(alloc, &asked, tree, includes, items, &mut store);
    (found, disk_of_store(store))
}
