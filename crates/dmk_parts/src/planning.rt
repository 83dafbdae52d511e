//! What a run makes and how it goes, before anything is made.
ghost use Rattle.std.specs.Prelude.{◌≡◌, ◌||◌, ℕ, List, [], Option, Some, None, true, false, unwrap_or, IfOk};
ghost use Rattle.mk_nodes.specs.declared.graph.Graph.{Graph as MadeGraph};
ghost use Rattle.dmk_reading.specs.Keeping.{kept_form};
ghost use Rattle.dmk_reading.specs.Planned.{IsGraphOf, judged_graph};
ghost use Rattle.dmk_reading.specs.Lost.{goes_without};
ghost use Rattle.dmk_reading.specs.Passing.{PassesEach};
ghost use Rattle.dmk_parts.specs.Behind.{IsJudgedBehind, none_tried};
ghost use Rattle.dmk_parts.specs.Planned.{recorded_in};
ghost use Rattle.mk_nodes.specs.declared.file_look.FileLook.{FileLook};

use crate::clearing::graph_behind;
use crate::conducting::Wishes;
use crate::parting::at_once;
use crate::tried::Tried;
use crate::unmade::tell_unmade;
use bd_lists::Variable;
use byte_strings::{ByteString, ByteStrings};
use dmk_messages::Fault;
use dmk_printing::Printer;
use dmk_reading::{judged_graph, kept_form, unmade_names};
use dmk_store::{Stop, graph_of};
use jb_recipe::Conduct;
use mk_nodes::Graph;
use mk_profile::Profile;
use mk_reader::Item;
use mk_rule_lines::RuleFault;
use mk_rules::Tree;
use st_records::{Form, HashKey};
use st_state::State;
use std::alloc::{AllocError, Global};
use std::io::Write;
use std::sync::{OnceLock, Wait};

/// What is to be made.
#[derive(Drop)]
pub struct Goals {
    /// The language of the makefile.
    pub profile: Profile,
    pub definitions: Vec<Variable>,
    pub targets: ByteStrings,
    /// What parts before tried; None where they are all that the words ask for. A part is made at once, and what there was to say of the
    /// makefiles is said.
    pub behind: Option<Tried>,
}

/// The graph of what is to be made, by which it is judged, and how the run over it goes.
#[derive(Drop)]
pub struct Plan {
    pub graph: Graph,
    /// What is recorded, where the graph has forgotten it.
    pub forgotten: Option<State>,
    pub conduct: Conduct,
}

impl Plan {
    /// What is recorded, whatever the graph is judged by.
    pub fn recorded(&self) -> &State
        ensures { result.now ≡ recorded_in self.now }
    {
        match &self.forgotten {
            Some(state) => state,
            None => &self.graph.state,
        }
    }
}

/// A state of its own with what is recorded: what the graph has forgotten, or a copy of what it keeps.
pub fn recorded_apart(
    alloc: Global,
    graph: &Graph,
    forgotten: Option<State>,
) -> Result<State, AllocError>
    ensures { IfOk result (λ state. state ≡ unwrap_or forgotten graph.now.state) }
{
    match forgotten {
        Some(state) => Ok(state),
        None => graph.state.copy(alloc),
    }
}

/// What the graph is to forget, where all is to be made.
fn to_forget(alloc: Global, all: bool, state: &State) -> Result<Option<State>, AllocError>
    ensures forgotten { IfOk result (λ kept. all ≡ true → kept ≡ Some state.now) }
    ensures none { IfOk result (λ kept. all ≡ false → kept ≡ None) }
{
    if all {
        Ok(Some(state.copy(alloc)?))
    } else {
        Ok(None)
    }
}

/// What the graph is to forget, and how the run over it goes.
fn prepared(
    alloc: Global,
    wishes: &Wishes<'_>,
    form: Form,
    keeping: bool,
    definitions: Vec<Variable>,
    state: &State,
) -> Result<(Option<State>, Conduct), AllocError>
    ensures forgotten { IfOk result (λ made. wishes.now.makes_all ≡ true → made.0 ≡ Some state.now) }
    ensures none { IfOk result (λ made. wishes.now.makes_all ≡ false → made.0 ≡ None) }
    ensures form { IfOk result (λ made. made.1.form ≡ form) }
    ensures keeping { IfOk result (λ made. made.1.keeps_state ≡ keeping) }
    ensures records { IfOk result (λ made. made.1.counts_records ≡ wishes.now.makes_all || keeping) }
    ensures definitions { IfOk result (λ made. made.1.definitions ≡ definitions) }
{
    let conduct = wishes.conduct(alloc, form, keeping, definitions)?;
    match to_forget(alloc, wishes.makes_all, state) {
        Ok(forgotten) => Ok((forgotten, conduct)),
        Err(error) => {
            drop(conduct);
            Err(error)
        }
    }
}

/// Whether goals that are all that the words ask for are made at once, before which it is said where soft edges are dropped.
fn whole_at_once<R: Wait, O: Write + Drop, W: Write + Drop>(
    alloc: Global,
    printer: &Printer<'_, R, O, W>,
    shell: &OnceLock<ByteString>,
    makes_all: bool,
    counting: bool,
    graph: &Graph,
) -> Result<(), Stop> {
    if graph.soft_dropped {
        printer.soft_edges_dropped();
    }
    at_once(alloc, makes_all, counting, graph, shell)
}

/// The graph by which goals are made that are all that the words ask for, or a part of that behind others.
fn behind_or_whole<R: Wait, O: Write + Drop, W: Write + Drop>(
    alloc: Global,
    printer: &Printer<'_, R, O, W>,
    shell: &OnceLock<ByteString>,
    makes_all: bool,
    counting: bool,
    behind: Option<Tried>,
    graph: Graph,
) -> Result<Graph, Stop>
    ensures judged { PassesEach graph → IfOk result (IsJudgedBehind (unwrap_or behind none_tried) counting graph) }
    ensures state { IfOk result (λ judged. judged.state ≡ graph.state) }
{
    if let Some(before) = behind {
        return Ok(graph_behind(alloc, counting, graph, &before)?);
    }
    if let Err(stop) = whole_at_once(alloc, printer, shell, makes_all, counting, &graph) {
        drop(graph);
        return Err(stop);
    }
    Ok(graph)
}

/// Refuses a graph in which a name has no file and nothing makes it. Where its goals are made in parts, each part is judged in its turn.
fn refuse_unmade<R: Wait, O: Write + Drop, W: Write + Drop>(
    alloc: Global,
    printer: &Printer<'_, R, O, W>,
    shell: &OnceLock<ByteString>,
    makes_all: bool,
    counting: bool,
    graph: &Graph,
) -> Result<(), Stop>
    ensures { IfOk result (λ _. graph.now.unmade.items ≡ []) }
{
    let mut told = unmade_names(alloc, graph)?;
    if told.is_empty() {
        return Ok(());
    }
    if let Err(stop) = whole_at_once(alloc, printer, shell, makes_all, counting, graph) {
        drop(told);
        return Err(stop);
    }
    let first = told.swap_remove(0);
    drop(told);
    Err(Stop::Before(Fault::Rules(RuleFault::NoRule(first))))
}

/// So it is, and what there is to say of it is said. Unless the run goes on without them, all names have a file or a rule.
fn ready<R: Wait, O: Write + Drop, W: Write + Drop>(
    alloc: Global,
    printer: &Printer<'_, R, O, W>,
    shell: &OnceLock<ByteString>,
    wishes: &Wishes<'_>,
    profile: Profile,
    counting: bool,
    behind: Option<Tried>,
    graph: Graph,
) -> Result<Graph, Stop>
    ensures judged { PassesEach graph → IfOk result (IsJudgedBehind (unwrap_or behind none_tried) counting graph) }
    ensures state { IfOk result (λ judged. judged.state ≡ graph.state) }
    ensures made { goes_without profile wishes.now.goes_on ≡ false → IfOk result (λ _. graph.unmade.items ≡ []) }
{
    let makes_all = wishes.makes_all;
    if !wishes.goes_without(profile) {
        if let Err(stop) = refuse_unmade(alloc, printer, shell, makes_all, counting, &graph) {
            drop(graph);
            return Err(stop);
        }
    }
    let graph = behind_or_whole(alloc, printer, shell, makes_all, counting, behind, graph)?;
    tell_unmade(alloc, printer, &graph)?;
    Ok(graph)
}

/// Plans the goals by a state, and says where soft edges are dropped, and which names there are that have no file and that nothing makes.
/// Where the goals are to be made in parts, each part says that of its own.
pub fn planned<R: Wait, T: Tree, O: Write + Drop, W: Write + Drop>(
    alloc: Global,
    key: HashKey,
    environment: &[Variable],
    printer: &Printer<'_, R, O, W>,
    shell: &OnceLock<ByteString>,
    wishes: &Wishes<'_>,
    keeping: bool,
    goals: Goals,
    tree: &mut T,
    items: Vec<Item>,
    state: State,
) -> Result<Plan, Stop>
    ensures graph { IfOk result (λ plan. (looks : List ℕ → Option FileLook) → T.allows tree.new looks
        → (graph : MadeGraph) × IsGraphOf goals.profile goals.definitions.items environment.now goals.targets looks items.items state graph
        × (goes_without goals.profile wishes.now.goes_on ≡ false → graph.unmade.items ≡ [])
        × IsJudgedBehind (unwrap_or goals.behind none_tried) (wishes.now.makes_all || keeping) (judged_graph wishes.now.makes_all graph) plan.graph) }
    ensures looks { (looks : List ℕ → Option FileLook) → T.allows tree.new looks → T.allows tree.old looks }
    ensures state { IfOk result (λ plan. recorded_in plan ≡ state) }
    ensures form { IfOk result (λ plan. plan.conduct.form ≡ kept_form goals.profile) }
    ensures keeping { IfOk result (λ plan. plan.conduct.keeps_state ≡ keeping) }
    ensures records { IfOk result (λ plan. plan.conduct.counts_records ≡ wishes.now.makes_all || keeping) }
{
    let Goals {
        profile,
        definitions,
        targets,
        behind,
    } = goals;
    let form = kept_form(profile);
    let (forgotten, conduct) = match prepared(alloc, wishes, form, keeping, definitions, &state) {
        Ok(made) => made,
        Err(error) => {
            drop(items);
            drop(state);
            return Err(Stop::from(error));
        }
    };
    let may_be_parted = behind.is_none() && profile.is_wide() && targets.len() > 1;
    let found = graph_of(
        alloc,
        profile,
        environment,
        &conduct.definitions,
        targets,
        tree,
        items,
        state,
        may_be_parted || wishes.goes_without(profile),
    );
    let graph = match found {
        Ok(graph) => graph,
        Err(stop) => {
            drop(forgotten);
            drop(conduct);
            return Err(stop);
        }
    };
    let graph = judged_graph(alloc, key, wishes.makes_all, graph);
    match ready(
        alloc,
        printer,
        shell,
        wishes,
        profile,
        conduct.counts_records,
        behind,
        graph,
    ) {
        Ok(graph) => Ok(Plan {
            graph,
            forgotten,
            conduct,
        }),
        Err(stop) => {
            drop(forgotten);
            drop(conduct);
            Err(stop)
        }
    }
}
