//! Targets taken as they are, on a disk where nothing is known of any.
ghost use Rattle.std.specs.Prelude.{◌≡◌, ◌≢◌, ◌⊎◌, ℕ, true, false, List, [], Option, length, nat_lt, IfOk, IfErr, OnOk};
ghost use Rattle.std.specs.FinMap as finmap;
ghost use Rattle.std.specs.List.{list_all, AllByRecursion};
ghost use Rattle.mk_eval.specs.Output.{World};
ghost use Rattle.mk_reader.specs.declared.item.Item.{Item as MakefileItem};
ghost use Rattle.st_disk.specs.Moments.{now, Throughout};
ghost use Rattle.st_recovery.specs.Stored.{AllRecoverIn};
ghost use Rattle.st_records.specs.declared.record.Record.{Record as Step};
ghost use Rattle.st_state.specs.State.{replay};
ghost use Rattle.dmk_reading.specs.Definitions.{first_defined};
ghost use Rattle.dmk_reading.specs.Keeping.{keeps, kept_form};
ghost use Rattle.dmk_reading.specs.Planned.{AreItems, IsGraphOf, IsWholeGraphOf};
ghost use Rattle.dmk_trust.specs.Taken.{AreTaken, IsOnDisk};
ghost use Rattle.dmk_trust.specs.Trusted.{AllRecoverTaken, AllRecoverOrTaken, ArePossibleOrTaken, IsLeft, LeavesState};
ghost use Rattle.dmk_printing.specs.declared.trusted.Trusted.TheVariants as trusteds;
ghost use Rattle.mk_nodes.specs.declared.file_look.FileLook.{FileLook};

use crate::taking::taken_on_disk;
use bd_flusher::FlushFault;
use bd_lists::Variable;
use dmk_printing::{Printer, Trusted};
use dmk_reading::{Options, items_of, keeps_state, kept_form};
use dmk_store::{Machine, Stop, disk_of_store, graph_of, hold_state, open_store, status_of};
use jb_closing::RunFault;
use jb_recipe::Place;
use mk_nodes::Graph;
use mk_reader::Item;
use mk_rules::Tree;
use st_disk::Disk;
use st_records::HashKey;
use st_recovery::StoreIn;
use st_state::State;
use std::alloc::Global;

/// Records the targets of a graph that are taken as they are, all of them or none, and answers how many there are.
fn record_taken<P: Place, D: Disk + Drop>(
    alloc: Global,
    graph: &Graph,
    place: &P,
    store: &mut StoreIn<D>,
) -> Result<usize, Stop>
    requires alive { store.old.log.dead ≡ false }
    requires order { list_all (λ n. nat_lt n (length graph.now.nodes.items)) graph.now.order.items ≡ true }
    ensures any_moment { D.honest → Throughout (D.moments store.old.log.disk) (D.moments store.new.log.disk)
        (AllRecoverTaken store.old.newest graph.now store.old.state) }
    ensures recovers { D.honest → OnOk result (AllRecoverIn store.old.newest store.new.state (now (D.moments store.new.log.disk))) }
    ensures taken { IfOk result (λ count. (steps : List Step) × AreTaken store.old.newest graph.now steps
        × (store.new.state ≡ replay store.old.state steps) × (length steps ≡ count)) }
    ensures on_disk { IfOk result (λ _. (steps : List Step) × AllByRecursion (IsOnDisk (P.synced place.now) graph.now) steps
        × (store.new.state ≡ replay store.old.state steps)) }
{
    let records = taken_on_disk(alloc, store.newest, graph, place)?;
    match store.commit(alloc, &records) {
        Ok(()) => Ok(records.len()),
        Err(fault) => Err(Stop::Run(RunFault::Flush(FlushFault::from(fault)))),
    }
}

/// Whether the state knows of a target.
#[tactic(auto, using(crate::proofs::TrustingLemmas::nothing_known, crate::proofs::TrustingLemmas::something_known))]
fn knows_any(state: &State) -> bool
    ensures yes { result ≡ true → state.now ≢ finmap.empty }
    ensures no { result ≡ false → state.now ≡ finmap.empty }
{
    state.len() > 0
}

/// The graph of what the options ask for, by this state.
fn graph_asked<T: Tree>(
    alloc: Global,
    environment: &[Variable],
    options: &Options,
    tree: &mut T,
    items: Vec<Item>,
    state: &State,
) -> Result<Graph, Stop>
    ensures graph { IfOk result (λ graph. (looks : List ℕ → Option FileLook) → T.allows tree.new looks
        → IsGraphOf options.now.profile options.now.definitions.items environment.now options.now.targets looks items.items state.now graph) }
    ensures made { IfOk result (λ graph. graph.unmade.items ≡ []) }
    ensures looks { (looks : List ℕ → Option FileLook) → T.allows tree.new looks → T.allows tree.old looks }
{
    let targets = options.targets.copy(alloc)?;
    let state = state.copy(alloc)?;
    let definitions = options.definitions.as_slice();
    graph_of(
        alloc,
        options.profile,
        environment,
        definitions,
        targets,
        tree,
        items,
        state,
        false,
    )
}

/// Takes targets as they are over a store in which nothing is known.
fn trust_over<T: Tree, P: Place, D: Disk + Drop>(
    alloc: Global,
    environment: &[Variable],
    options: &Options,
    tree: &mut T,
    place: &P,
    items: Vec<Item>,
    store: &mut StoreIn<D>,
) -> Result<Trusted, Stop>
    requires { store.old.log.dead ≡ false }
    ensures any_moment { D.honest → (looks : List ℕ → Option FileLook) → T.allows tree.new looks
        → Throughout (D.moments store.old.log.disk) (D.moments store.new.log.disk) (AllRecoverOrTaken store.old.newest (IsWholeGraphOf
        options.now.profile options.now.definitions.items environment.now options.now.targets looks items.items finmap.empty) store.old.state) }
    ensures recovers { D.honest → OnOk result (AllRecoverIn store.old.newest store.new.state (now (D.moments store.new.log.disk))) }
    ensures left { IfOk result (λ found. (looks : List ℕ → Option FileLook) → T.allows tree.new looks
        → IsLeft store.old.newest (IsWholeGraphOf options.now.profile options.now.definitions.items environment.now options.now.targets looks items.items finmap.empty)
        store.old.state store.new.state found) }
    ensures kept { IfOk result (λ found. found ≢ trusteds.Unkept) }
    ensures looks { (looks : List ℕ → Option FileLook) → T.allows tree.new looks → T.allows tree.old looks }
{
    if knows_any(store.state()) {
        drop(items);
        return Ok(Trusted::Known);
    }
    let graph = graph_asked(alloc, environment, options, tree, items, store.state())?;
    let taken = record_taken(alloc, &graph, place, store);
    drop(graph);
    let count = taken?;
    Ok(Trusted::Taken(count))
}

/// Opens the store of a disk and takes targets as they are over it, where nothing is known in it. The disk comes back.
fn trust_on<T: Tree, P: Place, D: Disk + Drop>(
    alloc: Global,
    key: HashKey,
    environment: &[Variable],
    options: &Options,
    tree: &mut T,
    place: &P,
    items: Vec<Item>,
    disk: D,
) -> (Result<Trusted, Stop>, D)
    ensures any_moment { D.honest → (looks : List ℕ → Option FileLook) → T.allows tree.new looks
        → Throughout (D.moments disk) (D.moments result.1) (ArePossibleOrTaken (kept_form options.now.profile) (IsWholeGraphOf options.now.profile options.now.definitions.items
        environment.now options.now.targets looks items.items finmap.empty) (D.seen disk) (now (D.moments disk))) }
    ensures left { IfOk result.0 (λ found. D.honest → (looks : List ℕ → Option FileLook) → T.allows tree.new looks
        → LeavesState (kept_form options.now.profile) (IsWholeGraphOf options.now.profile options.now.definitions.items environment.now options.now.targets looks items.items finmap.empty)
        (D.seen disk) (now (D.moments result.1)) found) }
    ensures kept { IfOk result.0 (λ found. found ≢ trusteds.Unkept) }
    ensures looks { (looks : List ℕ → Option FileLook) → T.allows tree.new looks → T.allows tree.old looks }
{
    let newest = kept_form(options.profile);
    let mut store = match open_store(alloc, key, newest, disk) {
        Ok(store) => store,
        Err((stop, disk)) => return (Err(stop), disk),
    };
    let found = trust_over(alloc, environment, options, tree, place, items, &mut store);
    (found, disk_of_store(store))
}

/// Takes targets as they are where a makefile that is read keeps state. The disk comes back.
fn trust_makefile<M: Machine, P: Place, D: Disk + Drop>(
    alloc: Global,
    key: HashKey,
    environment: &[Variable],
    printer: &Printer<'_, M::Runtime, M::Out, M::Err>,
    guard: &mut M::Guard,
    options: &Options,
    tree: &mut M::Tree,
    place: &P,
    includes: &mut M::Includes,
    disk: D,
) -> (Result<Trusted, Stop>, D)
    ensures any_moment { D.honest → (world : World) (looks : List ℕ → Option FileLook) → M.Includes.allows includes.new world → M.Tree.allows tree.new looks
        → (result.1 ≡ disk) ⊎ ((items : List MakefileItem) × AreItems world looks options.now.makefiles
        (first_defined options.now.profile options.now.definitions.items environment.now) items × (keeps environment.now items ≡ true)
        × Throughout (D.moments disk) (D.moments result.1) (ArePossibleOrTaken (kept_form options.now.profile) (IsWholeGraphOf options.now.profile options.now.definitions.items
        environment.now options.now.targets looks items finmap.empty) (D.seen disk) (now (D.moments disk)))) }
    ensures left { IfOk result.0 (λ found. D.honest → found ≢ trusteds.Unkept
        → (world : World) (looks : List ℕ → Option FileLook) → M.Includes.allows includes.new world → M.Tree.allows tree.new looks
        → (items : List MakefileItem) × AreItems world looks options.now.makefiles
        (first_defined options.now.profile options.now.definitions.items environment.now) items × (keeps environment.now items ≡ true)
        × LeavesState (kept_form options.now.profile) (IsWholeGraphOf options.now.profile options.now.definitions.items environment.now options.now.targets looks items finmap.empty)
        (D.seen disk) (now (D.moments result.1)) found) }
    ensures unkept { IfOk result.0 (λ found. found ≡ trusteds.Unkept → (result.1 ≡ disk)
        × ((world : World) (looks : List ℕ → Option FileLook) → M.Includes.allows includes.new world → M.Tree.allows tree.new looks
        → (items : List MakefileItem) × AreItems world looks options.now.makefiles
        (first_defined options.now.profile options.now.definitions.items environment.now) items × (keeps environment.now items ≡ false))) }
{
    let items = match items_of(
        alloc,
        options.profile,
        &options.definitions,
        environment,
        &options.makefiles,
        tree,
        includes,
    ) {
        Ok(items) => items,
        Err(fault) => return (Err(Stop::Before(fault)), disk),
    };
    if !keeps_state(environment, &items) {
        drop(items);
        return (Ok(Trusted::Unkept), disk);
    }
    if let Err(stop) = hold_state(guard, printer, options.state.as_str()) {
        drop(items);
        return (Err(stop), disk);
    }
    trust_on(alloc, key, environment, options, tree, place, items, disk)
}

/// Takes the targets as they are that the words name, or the first of the makefile, and what they need: where state is kept and nothing
/// is known of any target, each that by the times of files alone needn't be made is recorded as made with the commands that its
/// recipe has now, once its file is on the disk. A run behind it goes by these records. What came of it is said; where a fault ends the run, that, and the status.
///
/// Faults come in the order of a run's. Other runs over the state are waited for before it is looked at.
pub fn trust_files<M: Machine, P: Place, D: Disk + Drop>(
    alloc: Global,
    key: HashKey,
    environment: &[Variable],
    printer: &Printer<'_, M::Runtime, M::Out, M::Err>,
    guard: &mut M::Guard,
    options: &Options,
    tree: &mut M::Tree,
    place: &P,
    includes: &mut M::Includes,
    disk: D,
) -> (Result<Trusted, u8>, D)
    // Unless a makefile that was read keeps state, the disk is handed back as it came. Else at every moment each pair was possible
    // at the start or recovers the state that the sides recovered or, where that is empty, the one of the targets that are taken.
    ensures any_moment { D.honest → (world : World) (looks : List ℕ → Option FileLook) → M.Includes.allows includes.new world → M.Tree.allows tree.new looks
        → (result.1 ≡ disk) ⊎ ((items : List MakefileItem) × AreItems world looks options.now.makefiles
        (first_defined options.now.profile options.now.definitions.items environment.now) items × (keeps environment.now items ≡ true)
        × Throughout (D.moments disk) (D.moments result.1) (ArePossibleOrTaken (kept_form options.now.profile) (IsWholeGraphOf options.now.profile options.now.definitions.items
        environment.now options.now.targets looks items finmap.empty) (D.seen disk) (now (D.moments disk)))) }
    // Of a state that knows of some target nothing changes; where nothing is known, all targets that are taken are recorded.
    ensures left { IfOk result.0 (λ found. D.honest → found ≢ trusteds.Unkept
        → (world : World) (looks : List ℕ → Option FileLook) → M.Includes.allows includes.new world → M.Tree.allows tree.new looks
        → (items : List MakefileItem) × AreItems world looks options.now.makefiles
        (first_defined options.now.profile options.now.definitions.items environment.now) items × (keeps environment.now items ≡ true)
        × LeavesState (kept_form options.now.profile) (IsWholeGraphOf options.now.profile options.now.definitions.items environment.now options.now.targets looks items finmap.empty)
        (D.seen disk) (now (D.moments result.1)) found) }
    ensures unkept { IfOk result.0 (λ found. found ≡ trusteds.Unkept → (result.1 ≡ disk)
        × ((world : World) (looks : List ℕ → Option FileLook) → M.Includes.allows includes.new world → M.Tree.allows tree.new looks
        → (items : List MakefileItem) × AreItems world looks options.now.makefiles
        (first_defined options.now.profile options.now.definitions.items environment.now) items × (keeps environment.now items ≡ false))) }
    ensures status { IfErr result.0 (λ status. status ≡ 2) }
{
    let (found, disk) = trust_makefile::<M, P, D>(
        alloc,
        key,
        environment,
        printer,
        guard,
        options,
        tree,
        place,
        includes,
        disk,
    );
    let state = options.state.as_str();
    match found {
        Ok(trusted) => {
            printer.trusted(state, trusted);
            (Ok(trusted), disk)
        }
        Err(stop) => (Err(status_of(printer, state, Err(stop))), disk),
    }
}
