//! Which targets are taken over: those that their own state doesn't have as up to date, and that they are by what other levels know.

ghost use Rattle.std.specs.Prelude.{◌≡◌, ◌∷◌, ℕ, List, [], Option, true, false, IfOk, IfSome};
ghost use Rattle.std.specs.FinMap as finmap;
ghost use Rattle.std.specs.List.{AllByRecursion};
ghost use Rattle.mk_nodes.specs.declared.graph.Graph.{Graph as MadeGraph};
ghost use Rattle.mk_levels.specs.declared.level.Level.{Level as Other};
ghost use Rattle.mk_eval.specs.Output.{World};
ghost use Rattle.mk_nodes.specs.declared.file_look.FileLook.{FileLook};
ghost use Rattle.st_records.specs.Limits.{IsGoodIn};
ghost use Rattle.st_records.specs.declared.version.Form.TheVariants as forms;
ghost use Rattle.st_file.specs.Batch.{may_stand};
ghost use Rattle.st_state.specs.State.{replay};
ghost use Rattle.dmk_reading.specs.Keeping.{keeps};
ghost use Rattle.dmk_reading.specs.Planned.{IsGraphOf};
ghost use Rattle.mk_levels.specs.Picked.{ArePicked};
ghost use Rattle.dmk_levels.specs.Known.{AreRead, IsAsked, AreKnown};

use bd_lists::Variable;
use dmk_messages::Fault;
use dmk_reading::{Options, graph_of, items_of, keeps_state};
use mk_eval::Includes;
use mk_levels::{Level, Wanted, picked};
use mk_nodes::Graph;
use mk_reader::Item;
use mk_rules::Tree;
use st_records::Record;
use st_state::State;
use std::alloc::{AllocError, Global};

/// What is asked for, and what other levels know.
#[derive(Drop)]
pub struct Asked<'a> {
    pub environment: &'a [Variable],
    pub options: &'a Options,
    pub levels: &'a [Level],
}

/// The items of the makefiles where they are read and keep state; None else, where a run behind this tells what is wrong with them.
pub fn kept_items<T: Tree, I: Includes>(
    alloc: Global,
    environment: &[Variable],
    options: &Options,
    tree: &mut T,
    includes: &mut I,
) -> Option<Vec<Item>>
    ensures items { IfSome result (λ items. (world : World) (looks : List ℕ → Option FileLook) → I.allows includes.new world → T.allows tree.new looks
        → AreRead world looks options.now environment.now items.items) }
    ensures kept { IfSome result (λ items. keeps environment.now items.items ≡ true) }
    ensures looks { (looks : List ℕ → Option FileLook) → T.allows tree.new looks → T.allows tree.old looks }
{
    let read = items_of(
        alloc,
        options.profile,
        options.definitions.as_slice(),
        environment,
        &options.makefiles,
        tree,
        includes,
    );
    let Ok(items) = read else {
        return None;
    };
    if keeps_state(environment, &items) {
        return Some(items);
    }
    drop(items);
    None
}

/// A state with these records.
fn with_records(alloc: Global, state: State, notes: &[Record]) -> Result<State, AllocError>
    ensures { IfOk result (λ made. made ≡ replay state notes.now) }
{
    let mut state = state;
    for note in notes {
        state.apply(alloc, note)?;
    }
    Ok(state)
}

/// The graph of what is asked for, by this state. It may lack names that nothing makes.
fn graph_asked<T: Tree>(
    alloc: Global,
    asked: &Asked<'_>,
    tree: &mut T,
    items: Vec<Item>,
    state: State,
) -> Result<Graph, Fault>
    ensures graph { IfOk result (λ graph. (looks : List ℕ → Option FileLook) → T.allows tree.new looks
        → IsGraphOf asked.now.options.now.profile asked.now.options.now.definitions.items asked.now.environment.now asked.now.options.now.targets looks
        items.items state graph) }
    ensures looks { (looks : List ℕ → Option FileLook) → T.allows tree.new looks → T.allows tree.old looks }
{
    let targets = asked.options.targets.copy(alloc)?;
    let definitions = asked.options.definitions.as_slice();
    graph_of(
        alloc,
        asked.options.profile,
        asked.environment,
        definitions,
        targets,
        tree,
        items,
        state,
        true,
    )
}

/// The records that other levels offer of the targets whose recipes are to be run by their own state.
fn offers_of<T: Tree>(
    alloc: Global,
    asked: &Asked<'_>,
    tree: &mut T,
    items: Vec<Item>,
    own: &State,
) -> Result<Vec<Record>, Fault>
    ensures offers { IfOk result (λ offers. (looks : List ℕ → Option FileLook) → T.allows tree.new looks
        → (graph : MadeGraph) × IsGraphOf asked.now.options.now.profile asked.now.options.now.definitions.items asked.now.environment.now
        asked.now.options.now.targets looks items.items own.now graph × ArePicked own.now asked.now.levels.now true graph offers.items) }
    ensures looks { (looks : List ℕ → Option FileLook) → T.allows tree.new looks → T.allows tree.old looks }
{
    let graph = graph_asked(alloc, asked, tree, items, own.copy(alloc)?)?;
    let wanted = Wanted {
        own,
        levels: asked.levels,
        listed: true,
    };
    let offers = picked(alloc, &wanted, &graph)?;
    drop(graph);
    Ok(offers)
}

/// Those of the offers by which their targets are up to date.
fn held_of<T: Tree>(
    alloc: Global,
    asked: &Asked<'_>,
    tree: &mut T,
    items: Vec<Item>,
    own: &State,
    offers: &[Record],
) -> Result<Vec<Record>, Fault>
    ensures held { IfOk result (λ held. (looks : List ℕ → Option FileLook) → T.allows tree.new looks
        → (graph : MadeGraph) × IsGraphOf asked.now.options.now.profile asked.now.options.now.definitions.items asked.now.environment.now
        asked.now.options.now.targets looks items.items (replay own.now offers.now) graph
        × ((offered : Other) × (offered.state ≡ replay finmap.empty offers.now) × ArePicked finmap.empty (offered ∷ []) false graph held.items)) }
    ensures good { IfOk result (λ held. AllByRecursion (IsGoodIn forms.Marked) held.items) }
    ensures later { IfOk result (λ held. AllByRecursion (λ r. may_stand false r ≡ true) held.items) }
    ensures looks { (looks : List ℕ → Option FileLook) → T.allows tree.new looks → T.allows tree.old looks }
{
    let state = with_records(alloc, own.copy(alloc)?, offers)?;
    let graph = graph_asked(alloc, asked, tree, items, state)?;
    let known = with_records(alloc, State::new(alloc), offers)?;
    let offered = [Level {
        name: String::new(alloc),
        state: known,
    }];
    let none = State::new(alloc);
    let wanted = Wanted {
        own: &none,
        levels: &offered,
        listed: false,
    };
    let held = picked(alloc, &wanted, &graph)?;
    drop(graph);
    Ok(held)
}

/// The records of the targets that are taken over, by these items of the makefiles.
pub fn known_of<T: Tree, I: Includes>(
    alloc: Global,
    asked: &Asked<'_>,
    tree: &mut T,
    includes: &mut I,
    items: Vec<Item>,
    own: &State,
) -> Result<Vec<Record>, Fault>
    ensures known { IfOk result (λ known. (world : World) (looks : List ℕ → Option FileLook) → I.allows includes.new world → T.allows tree.new looks
        → AreRead world looks asked.now.options.now asked.now.environment.now items.items
        → AreKnown (IsAsked world looks asked.now.options.now asked.now.environment.now) asked.now.levels.now own.now known.items) }
    ensures good { IfOk result (λ known. AllByRecursion (IsGoodIn forms.Marked) known.items) }
    ensures later { IfOk result (λ known. AllByRecursion (λ r. may_stand false r ≡ true) known.items) }
    ensures looks { (looks : List ℕ → Option FileLook) → T.allows tree.new looks → T.allows tree.old looks }
{
    let offers = offers_of(alloc, asked, tree, items, own)?;
    if offers.is_empty() {
        return Ok(offers);
    }
    let options = asked.options;
    let items = items_of(
        alloc,
        options.profile,
        options.definitions.as_slice(),
        asked.environment,
        &options.makefiles,
        tree,
        includes,
    )?;
    held_of(alloc, asked, tree, items, own, &offers)
}
