//! From a makefile to what is listed, stage by stage. The first stage that has a fault ends it.
ghost use Rattle.std.specs.Prelude.{◌≡◌, ◌||◌, ℕ, true, List, Option, length, map, nat_lt, IfOk, IfErr, IsErrOf};
ghost use Rattle.std.specs.List.{list_all};
ghost use Rattle.mk_plan.specs.declared.fault.RecipeFault.{RecipeFault as LineFault};
ghost use Rattle.mk_names.specs.Names.{name_at};
ghost use Rattle.mk_reader.specs.declared.item.Item.{Item as MakefileItem};
ghost use Rattle.mk_plan.specs.Passage.{Passage};
ghost use Rattle.dmk_reading.specs.Definitions.{first_defined};
ghost use Rattle.dmk_reading.specs.Keeping.{keeps, kept_form};
ghost use Rattle.st_disk.specs.Faults.{Rises};
ghost use Rattle.st_state.specs.State.{StateMap};
ghost use Rattle.st_file.specs.declared.fault.OpenFault.{OpenFault as StateFault};
ghost use Rattle.st_file.specs.declared.fault.OpenFault.TheVariants as open_faults;
ghost use Rattle.dmk_dry.specs.AlwaysRun.{lines_run_always};
ghost use Rattle.dmk_reading.specs.Passing.{IsListing, PassesEach, lists_any};
ghost use Rattle.dmk_dry.specs.Listing.{IsListingFault, listing_text};
ghost use Rattle.dmk_reading.specs.Planned.{AreItems, IsStateOn, judged_graph};
ghost use Rattle.dmk_dry.specs.Planned.{IsListedGraphOf, Tells};
ghost use Rattle.dmk_dry.specs.Faults.{IsOpenFault, IsPlanFault, IsRunFault};
ghost use Rattle.dmk_reading.specs.Faults.{IsTextFault};
ghost use Rattle.dmk_messages.specs.declared.fault.Fault.TheVariants as faults;
ghost use Rattle.mk_eval.specs.Output.{World};
ghost use Rattle.mk_nodes.specs.declared.file_look.FileLook.{FileLook};

use crate::always_run::AlwaysRun;
use crate::passing::{Listing, Shows, listing_of};
use crate::recovered::state_of;
use bd_lists::Variable;
use byte_strings::ByteStrings;
use dmk_messages::Fault;
use dmk_reading::{
    Makefiles, goes_without, graph_of, items_of, judged_graph, keeps_state, kept_form, unmade_names,
};
use mk_eval::Includes;
use mk_nodes::Graph;
use mk_plan::RecipeFault;
use mk_profile::Profile;
use mk_reader::Item;
use mk_rule_lines::Unmade;
use mk_rules::Tree;
use st_disk::Disk;
use st_records::{Form, HashKey};
use st_state::State;
use std::alloc::Global;
use std::mem;

/// What a makefile is read and planned with.
#[derive(Clone, Copy)]
pub struct Given<'m, 'a> {
    /// What is read as the makefile.
    pub makefiles: &'m Makefiles,
    /// The language that they are written in.
    pub profile: Profile,
    pub definitions: &'a [Variable],
    pub environment: &'a [Variable],
    /// All targets are to be made.
    pub makes_all: bool,
    /// What can be listed is, where nothing makes a name.
    pub goes_on: bool,
    /// What of the listing is printed.
    pub shows: Shows,
}

/// What a dry run comes to.
#[derive(Drop)]
pub struct DryRun {
    /// What of the listing is printed.
    pub text: Vec<u8>,
    /// Some recipe is listed, if only one of blank lines.
    pub lists_any: bool,
    /// The lines that are run in a dry run too, in the listing's order.
    pub always: Vec<AlwaysRun>,
    /// Soft edges make a cycle and don't order nodes.
    pub soft_dropped: bool,
    /// The names that have no file and that nothing makes, where it goes on without them.
    pub unmade: Vec<Unmade>,
}

/// Whether what is recorded of targets counts, also that nothing is.
fn counts_records(all: bool, keeping: bool) -> bool
    ensures { result ≡ all || keeping }
{
    all || keeping
}

/// What the graph lists.
fn listed(alloc: Global, keeping: bool, shows: Shows, graph: Graph) -> Result<DryRun, Fault>
    requires order { list_all (λ n. nat_lt n (length graph.nodes.items)) graph.order.items ≡ true }
    requires plan { PassesEach graph }
    ensures listing { IfOk result (λ run. (plan : List Passage) × IsListing keeping graph plan
        × (run.text.items ≡ listing_text shows.telling shows.recipes plan) × (run.lists_any ≡ lists_any plan)
        × (run.always.items ≡ lines_run_always shows.telling shows.recipes plan)) }
    ensures dropped { IfOk result (λ run. run.soft_dropped ≡ graph.soft_dropped) }
    ensures unmade { IfOk result (λ run. map (λ u. u.name) run.unmade.items ≡ map (name_at graph.names) graph.unmade.items) }
    ensures fault { IfErr result (λ fault. (f : LineFault) × (fault ≡ faults.Recipe f) × IsListingFault keeping graph f) }
{
    let Ok(unmade) = unmade_names(alloc, &graph) else {
        return Err(Fault::Recipe(RecipeFault::OutOfMemory));
    };
    let Listing {
        text,
        lists_any,
        always,
    } = match listing_of(alloc, keeping, shows, &graph) {
        Ok(listing) => listing,
        Err(fault) => {
            drop(unmade);
            return Err(Fault::Recipe(fault));
        }
    };
    let soft_dropped = graph.soft_dropped;
    // It is millions of small pieces of memory. Whoever asked ends now, and the system takes all of them back at once.
    mem::forget(graph);
    Ok(DryRun {
        text,
        lists_any,
        always,
        soft_dropped,
        unmade,
    })
}

/// The state's map, or the fault of its sides.
fn kept_state<D: Disk>(
    alloc: Global,
    key: HashKey,
    newest: Form,
    keeping: bool,
    disk: &mut D,
) -> Result<State, Fault>
    ensures found { IfOk result (IsStateOn newest keeping D.honest (D.seen disk.old)) }
    ensures fault { IfErr result (λ fault. (keeping ≡ true) × ((f : StateFault) × (fault ≡ faults.State f)
        × (D.honest → IsOpenFault newest (D.seen disk.old) f))) }
    ensures seen { D.honest → D.seen disk.new ≡ D.seen disk.old }
    ensures moments { D.honest → D.moments disk.new ≡ D.moments disk.old }
    ensures device { IsErrOf result (faults.State open_faults.Device) → Rises (D.faults disk.old) (D.faults disk.new) }
{
    match state_of(alloc, key, newest, keeping, disk) {
        Ok(state) => Ok(state),
        Err(fault) => Err(Fault::State(fault)),
    }
}

/// The graph of the items, by the state that is kept.
fn kept_graph<T: Tree, D: Disk>(
    alloc: Global,
    key: HashKey,
    keeping: bool,
    given: Given<'_, '_>,
    targets: ByteStrings,
    tree: &mut T,
    disk: &mut D,
    items: Vec<Item>,
) -> Result<Graph, Fault>
    requires { keeping ≡ keeps given.environment.now items.items }
    ensures graph { IfOk result (λ graph. (m : StateMap) × IsStateOn (kept_form given.entry.profile) keeping D.honest (D.seen disk.old) m
        × ((looks : List ℕ → Option FileLook) → T.allows tree.new looks
        → IsListedGraphOf given.entry.profile given.entry.definitions.now given.entry.environment.now targets given.entry.goes_on looks items.items m graph)) }
    ensures fault { IfErr result (λ fault. (looks : List ℕ → Option FileLook) → T.allows tree.new looks
        → IsPlanFault given.entry.profile given.entry.definitions.now given.entry.environment.now targets given.entry.makes_all given.entry.goes_on looks (T.refuses tree.new) D.honest (D.seen disk.old)
        items.items fault) }
    ensures looks { (looks : List ℕ → Option FileLook) → T.allows tree.new looks → T.allows tree.old looks }
    ensures seen { D.honest → D.seen disk.new ≡ D.seen disk.old }
    ensures moments { D.honest → D.moments disk.new ≡ D.moments disk.old }
    ensures device { IsErrOf result (faults.State open_faults.Device) → Rises (D.faults disk.old) (D.faults disk.new) }
{
    let newest = kept_form(given.profile);
    let state = kept_state(alloc, key, newest, keeping, disk)?;
    let without = goes_without(given.profile, given.goes_on);
    graph_of(
        alloc,
        given.profile,
        given.environment,
        given.definitions,
        targets,
        tree,
        items,
        state,
        without,
    )
}

/// What items that were read list.
fn plan_items<T: Tree, D: Disk>(
    alloc: Global,
    key: HashKey,
    given: Given<'_, '_>,
    targets: ByteStrings,
    tree: &mut T,
    disk: &mut D,
    items: Vec<Item>,
) -> Result<DryRun, Fault>
    ensures tells { IfOk result (λ run. (looks : List ℕ → Option FileLook) → T.allows tree.new looks
        → Tells given.entry.profile given.entry.definitions.now given.entry.environment.now targets given.entry.makes_all given.entry.goes_on looks D.honest (D.seen disk.old) items.items
        given.entry.shows.telling given.entry.shows.recipes run) }
    ensures fault { IfErr result (λ fault. (looks : List ℕ → Option FileLook) → T.allows tree.new looks
        → IsPlanFault given.entry.profile given.entry.definitions.now given.entry.environment.now targets given.entry.makes_all given.entry.goes_on looks (T.refuses tree.new) D.honest (D.seen disk.old)
        items.items fault) }
    ensures looks { (looks : List ℕ → Option FileLook) → T.allows tree.new looks → T.allows tree.old looks }
    ensures seen { D.honest → D.seen disk.new ≡ D.seen disk.old }
    ensures moments { D.honest → D.moments disk.new ≡ D.moments disk.old }
    ensures device { IsErrOf result (faults.State open_faults.Device) → Rises (D.faults disk.old) (D.faults disk.new) }
{
    let keeping = keeps_state(given.environment, &items);
    let graph = kept_graph(alloc, key, keeping, given, targets, tree, disk, items)?;
    let judged = judged_graph(alloc, key, given.makes_all, graph);
    let counting = counts_records(given.makes_all, keeping);
    listed(alloc, counting, given.shows, judged)
}

/// What a run would build. It only reads.
///
/// A makefile's own faults come first; then come the state's, the rules' and the recipes'.
pub fn dry_run<T: Tree, I: Includes, D: Disk>(
    alloc: Global,
    key: HashKey,
    given: Given<'_, '_>,
    targets: ByteStrings,
    tree: &mut T,
    includes: &mut I,
    disk: &mut D,
) -> Result<DryRun, Fault>
    ensures tells { IfOk result (λ run. (world : World) (looks : List ℕ → Option FileLook) → I.allows includes.new world → T.allows tree.new looks
        → (items : List MakefileItem) × AreItems world looks given.entry.makefiles.now (first_defined given.entry.profile given.entry.definitions.now given.entry.environment.now) items
        × Tells given.entry.profile given.entry.definitions.now given.entry.environment.now targets given.entry.makes_all given.entry.goes_on looks D.honest (D.seen disk.old) items
        given.entry.shows.telling given.entry.shows.recipes run) }
    ensures fault { IfErr result (λ fault. (world : World) (looks : List ℕ → Option FileLook) → I.allows includes.new world → T.allows tree.new looks
        → IsRunFault (IsTextFault world looks (T.refuses tree.new) given.entry.makefiles.now (first_defined given.entry.profile given.entry.definitions.now given.entry.environment.now))
        (AreItems world looks given.entry.makefiles.now (first_defined given.entry.profile given.entry.definitions.now given.entry.environment.now))
        (IsPlanFault given.entry.profile given.entry.definitions.now given.entry.environment.now targets given.entry.makes_all given.entry.goes_on looks (T.refuses tree.new) D.honest (D.seen disk.old))
        fault) }
    ensures seen { D.honest → D.seen disk.new ≡ D.seen disk.old }
    ensures moments { D.honest → D.moments disk.new ≡ D.moments disk.old }
    ensures device { IsErrOf result (faults.State open_faults.Device) → Rises (D.faults disk.old) (D.faults disk.new) }
{
    let (definitions, environment) = (given.definitions, given.environment);
    let items = items_of(
        alloc,
        given.profile,
        definitions,
        environment,
        given.makefiles,
        tree,
        includes,
    )?;
    plan_items(alloc, key, given, targets, tree, disk, items)
}
