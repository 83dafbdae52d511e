//! The program over handed-in parts, where recipes are run.
ghost use Rattle.std.specs.Prelude.{◌≡◌, ◌⊎◌, ◌≤◌, ℕ, true, false, List, Option, Ok, codes, unwrap_or, IfOk, IfErr};
ghost use Rattle.mk_reader.specs.declared.item.Item.{Item as MakefileItem};
ghost use Rattle.st_disk.specs.Moments.{now};
ghost use Rattle.dmk_reading.specs.Keeping.{keeps, kept_form, value_in};
ghost use Rattle.dmk_reading.specs.Asked.{AsksToRun};
ghost use Rattle.dmk_reading.specs.Definitions.{first_defined};
ghost use Rattle.dmk_reading.specs.Planned.{AreItems};
ghost use Rattle.dmk_parts.specs.Behind.{none_tried};
ghost use Rattle.dmk_run.specs.InTurn.{IsParted};
ghost use Rattle.dmk_run.specs.Made.{Makes, MakesItems};
ghost use Rattle.dmk_parts.specs.Tried.{tried_in};
ghost use Rattle.dmk_store.specs.Opened.{RecoversAsBefore};
ghost use Rattle.mk_eval.specs.Output.{World};
ghost use Rattle.mk_nodes.specs.declared.file_look.FileLook.{FileLook};

use crate::making::make;
use bd_flusher::Receipt;
use bd_lists::{Exec, Variable};
use byte_strings::ByteString;
use dmk_parts::{Goals, Left, Tried, Wishes, planned};
use dmk_printing::Printer;
use dmk_reading::{Makefiles, Options, items_of, keeps_state, kept_form};
use dmk_store::{Machine, Stop, disk_of, hold_state, open_store};
use mk_reader::Item;
use st_disk::Disk;
use st_memory::MemDisk;
use st_records::HashKey;
use st_recovery::StoreIn;
use std::alloc::Global;
use std::sync::OnceLock;

/// What a run is made with, beside its files, its job slots and its disk.
#[derive(Drop)]
pub struct Means<'a, E, S, P> {
    pub key: HashKey,
    pub environment: &'a [Variable],
    /// The absolute path of the pool of job slots that would be served; empty where it can't be told.
    pub pool: &'a [u8],
    /// The state file's name as recipes find it, in whatever folder they are: their reports stand beside it.
    pub reports: &'a [u8],
    pub exec: &'a E,
    pub say: &'a S,
    pub place: &'a P,
    /// Where the exec finds the shell that the makefile names.
    pub shell: &'a OnceLock<ByteString>,
}

/// Opens the store of a disk and makes the goals over it. The disk comes back.
fn run_over<M: Machine, E: Exec<Receipt> + Sync, D: Disk + Drop + Send>(
    rt: &M::Runtime,
    alloc: Global,
    means: &Means<'_, E, Printer<'_, M::Runtime, M::Out, M::Err>, M::Place>,
    wishes: &Wishes<'_>,
    keeping: bool,
    goals: Goals,
    tree: &mut M::Tree,
    banks: &mut M::Banks,
    items: Vec<Item>,
    disk: D,
) -> (Result<u8, Stop>, D, Left)
    ensures status { IfOk result.0 (λ s. s ≤ 2) }
    ensures makes { IfOk result.0 (λ s. (looks : List ℕ → Option FileLook) → M.Tree.allows tree.new looks
        → MakesItems goals.profile goals.definitions.items means.now.environment.now goals.targets wishes.now.makes_all wishes.now.goes_on
        (unwrap_or goals.behind none_tried) looks items.items true keeping D.honest (D.seen disk) s (now (D.moments result.1)) (tried_in result.2)) }
    ensures looks { (looks : List ℕ → Option FileLook) → M.Tree.allows tree.new looks → M.Tree.allows tree.old looks }
    ensures parted { IfErr result.0 (λ stop. IsParted stop → RecoversAsBefore (kept_form goals.profile) D.honest (D.seen disk) (D.seen result.1)) }
    ensures let_go { M.Banks.serves banks.old ≡ false → M.Banks.serves banks.new ≡ false }
{
    let newest = kept_form(goals.profile);
    let StoreIn {
        log,
        state,
        newest: _,
    } = match open_store(alloc, means.key, newest, disk) {
        Ok(store) => store,
        Err((stop, disk)) => {
            drop(goals);
            drop(items);
            return (Err(stop), disk, Left::nothing(alloc));
        }
    };
    let environment = means.environment;
    let is_part = goals.behind.is_some();
    match planned(
        alloc,
        means.key,
        environment,
        means.say,
        means.shell,
        wishes,
        keeping,
        goals,
        tree,
        items,
        state,
    ) {
        Ok(plan) => make::<M, E, D>(rt, alloc, means, wishes, is_part, plan, banks, log),
        Err(stop) => (Err(stop), disk_of(log), Left::nothing(alloc)),
    }
}

/// Makes the goals over the state's disk, or over one in memory where no state is kept.
fn run_items<M: Machine, E: Exec<Receipt> + Sync, D: Disk + Drop + Send>(
    rt: &M::Runtime,
    alloc: Global,
    means: &Means<'_, E, Printer<'_, M::Runtime, M::Out, M::Err>, M::Place>,
    guard: &mut M::Guard,
    wishes: &Wishes<'_>,
    goals: Goals,
    tree: &mut M::Tree,
    banks: &mut M::Banks,
    items: Vec<Item>,
    disk: D,
) -> (Result<u8, Stop>, D, Left)
    ensures status { IfOk result.0 (λ s. s ≤ 2) }
    ensures makes { IfOk result.0 (λ s. (looks : List ℕ → Option FileLook) → M.Tree.allows tree.new looks
        → MakesItems goals.profile goals.definitions.items means.now.environment.now goals.targets wishes.now.makes_all wishes.now.goes_on
        (unwrap_or goals.behind none_tried) looks items.items (keeps means.now.environment.now items.items) (keeps means.now.environment.now items.items)
        D.honest (D.seen disk) s (now (D.moments result.1)) (tried_in result.2)) }
    ensures looks { (looks : List ℕ → Option FileLook) → M.Tree.allows tree.new looks → M.Tree.allows tree.old looks }
    ensures untouched { keeps means.now.environment.now items.items ≡ false → result.1 ≡ disk }
    ensures parted { IfErr result.0 (λ stop. IsParted stop → RecoversAsBefore (kept_form goals.profile) D.honest (D.seen disk) (D.seen result.1)) }
    ensures let_go { M.Banks.serves banks.old ≡ false → M.Banks.serves banks.new ≡ false }
{
    if keeps_state(means.environment, &items) {
        if let Err(stop) = hold_state(guard, means.say, wishes.state.as_str()) {
            drop(goals);
            drop(items);
            return (Err(stop), disk, Left::nothing(alloc));
        }
        return run_over::<M, E, D>(
            rt, alloc, means, wishes, true, goals, tree, banks, items, disk,
        );
    }
    let memory = MemDisk::new(alloc);
    let (found, memory, standing) = run_over::<M, E, MemDisk>(
        rt, alloc, means, wishes, false, goals, tree, banks, items, memory,
    );
    drop(memory);
    (found, disk, standing)
}

/// Makes the goals of these makefiles.
fn run_makefile<M: Machine, E: Exec<Receipt> + Sync, D: Disk + Drop + Send>(
    rt: &M::Runtime,
    alloc: Global,
    means: &Means<'_, E, Printer<'_, M::Runtime, M::Out, M::Err>, M::Place>,
    guard: &mut M::Guard,
    wishes: &Wishes<'_>,
    makefiles: &Makefiles,
    goals: Goals,
    tree: &mut M::Tree,
    includes: &mut M::Includes,
    banks: &mut M::Banks,
    disk: D,
) -> (Result<u8, Stop>, D, Left)
    ensures status { IfOk result.0 (λ s. s ≤ 2) }
    ensures makes { IfOk result.0 (λ s. (world : World) (looks : List ℕ → Option FileLook) → M.Includes.allows includes.new world → M.Tree.allows tree.new looks
        → Makes world looks makefiles.now goals.profile goals.definitions.items means.now.environment.now goals.targets wishes.now.makes_all wishes.now.goes_on
        (unwrap_or goals.behind none_tried) D.honest (D.seen disk) s (now (D.moments result.1)) (tried_in result.2)) }
    ensures untouched { (result.1 ≡ disk) ⊎ ((world : World) (looks : List ℕ → Option FileLook) → M.Includes.allows includes.new world → M.Tree.allows tree.new looks
        → (items : List MakefileItem) × AreItems world looks makefiles.now (first_defined goals.profile goals.definitions.items means.now.environment.now) items
        × (keeps means.now.environment.now items ≡ true)) }
    ensures parted { IfErr result.0 (λ stop. IsParted stop → RecoversAsBefore (kept_form goals.profile) D.honest (D.seen disk) (D.seen result.1)) }
    ensures let_go { M.Banks.serves banks.old ≡ false → M.Banks.serves banks.new ≡ false }
{
    match items_of(
        alloc,
        goals.profile,
        &goals.definitions,
        means.environment,
        makefiles,
        tree,
        includes,
    ) {
        Ok(items) => {
            means.say.notes_of(alloc, goals.behind.is_some(), includes);
            run_items::<M, E, D>(
                rt, alloc, means, guard, wishes, goals, tree, banks, items, disk,
            )
        }
        Err(fault) => {
            drop(goals);
            (Err(Stop::Before(fault)), disk, Left::nothing(alloc))
        }
    }
}

/// Makes goals by one look at files: the targets that the options name, or the first of the makefile, and what they need. What came
/// of it, the state's disk, and what it leaves to the parts behind it. `behind` has what parts before tried; None where there is one
/// part.
///
/// The makefile's faults come first, then, where state is kept, that the run which called this one has it, those of the state and
/// of its compaction, then the rules'. Any of them ends the run before a recipe is run, and so does it that the goals are to be made in
/// parts, unless they are one. Other runs over the state are waited for before it is looked at.
pub fn build_at_once<M: Machine, E: Exec<Receipt> + Sync, D: Disk + Drop + Send>(
    rt: &M::Runtime,
    alloc: Global,
    means: &Means<'_, E, Printer<'_, M::Runtime, M::Out, M::Err>, M::Place>,
    guard: &mut M::Guard,
    options: Options,
    behind: Option<Tried>,
    tree: &mut M::Tree,
    includes: &mut M::Includes,
    banks: &mut M::Banks,
    disk: D,
) -> (Result<u8, Stop>, D, Left)
    // Recipes are run only where neither the words nor MAKEFLAGS ask for a listing.
    requires asked { AsksToRun options (value_in means.now.environment.now (codes "MAKEFLAGS")) }
    // Nothing is known yet of any file.
    requires anew { (looks : List ℕ → Option FileLook) → M.Tree.allows tree.old looks }
    ensures status { IfOk result.0 (λ s. s ≤ 2) }
    // Each target that was built is done in every pair of crash images, with the commands of the 'done' whose receipt its worker
    // gathered: so for all texts and looks that agree with what was answered.
    ensures makes { IfOk result.0 (λ s. (world : World) (looks : List ℕ → Option FileLook) → M.Includes.allows includes.new world → M.Tree.allows tree.new looks
        → Makes world looks options.makefiles options.profile options.definitions.items means.now.environment.now options.targets options.makes_all options.goes_on
        (unwrap_or behind none_tried) D.honest (D.seen disk) s (now (D.moments result.1)) (tried_in result.2)) }
    // Unless a makefile that was read keeps state, the disk is handed back as it came.
    ensures untouched { (result.1 ≡ disk) ⊎ ((world : World) (looks : List ℕ → Option FileLook) → M.Includes.allows includes.new world → M.Tree.allows tree.new looks
        → (items : List MakefileItem) × AreItems world looks options.makefiles (first_defined options.profile options.definitions.items means.now.environment.now) items
        × (keeps means.now.environment.now items ≡ true)) }
    // Where the goals are to be made in parts, nothing was begun: the disk recovers no other state than before.
    ensures parted { IfErr result.0 (λ stop. IsParted stop → RecoversAsBefore (kept_form options.profile) D.honest (D.seen disk) (D.seen result.1)) }
    // A pool that is served for the run is let go at its end.
    ensures let_go { M.Banks.serves banks.old ≡ false → M.Banks.serves banks.new ≡ false }
{
    let Options {
        makefiles,
        profile,
        state,
        workers,
        goes_on,
        is_silent,
        ignores_statuses,
        makes_all,
        telling,
        definitions,
        targets,
        ..
    } = options;
    let wishes = Wishes {
        state,
        reports: means.reports,
        workers: usize::from(workers),
        goes_on,
        is_silent,
        ignores_statuses,
        makes_all,
        telling: means.say.telling(telling, makes_all),
    };
    let goals = Goals {
        profile,
        definitions,
        targets,
        behind,
    };
    run_makefile::<M, E, D>(
        rt, alloc, means, guard, &wishes, &makefiles, goals, tree, includes, banks, disk,
    )
}
