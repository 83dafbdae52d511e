//! The graph of a part of a run behind others: nothing is run for a name that they built and left without a file, nor for what isn't made
//! for a failure in them.
ghost use Rattle.std.specs.Prelude.{◌≡◌, ◌≢◌, ◌↔◌, ◌&&◌, ◌<◌, not, ℕ, Bool, List, [], Some, true, length, option_map, slice_get, IfOk, OnOk};
ghost use Rattle.mk_graph.specs.Edges.{has};
ghost use Rattle.mk_names.specs.Names.{name_at, has_name};
ghost use Rattle.mk_nodes.specs.declared.graph.Node.{Node as MadeNode};
ghost use Rattle.mk_plan.specs.Nodes.{is_marked};
ghost use Rattle.dmk_reading.specs.Lost.{StandsOn};
ghost use Rattle.dmk_reading.specs.Passing.{PassesEach};
ghost use Rattle.dmk_parts.specs.Behind.{IsJudgedBehind, AreCauses, AreMarkedBehind, StandsOnFailed, cleared_where, is_cleared_by, is_filed_before};

use crate::causes::causes_in;
use crate::made::is_made_before;
use crate::tried::Tried;
use byte_strings::ByteStrings;
use dmk_reading::{is_lost, nodes_on};
use mk_names::Names;
use mk_nodes::{Graph, Node, ShortNumber};
use mk_plan::name_of;
use std::alloc::{AllocError, Global};

/// These names, each once, to be found by their hashes.
fn known_names(alloc: Global, made: &ByteStrings) -> Result<Names, AllocError>
    ensures { IfOk result (λ known. (name : List ℕ) → has_name known name ≡ has_name made.now name) }
{
    let mut known = Names::new(alloc);
    for name in made {
        known.mention(alloc, name)?;
    }
    Ok(known)
}

/// Whether a node has one of these names, and a file.
fn is_filed_before(graph: &Graph, node: usize, known: &Names) -> bool
    requires { node < length graph.now.nodes.items }
    ensures { (it : MadeNode) → slice_get graph.now.nodes.items node ≡ Some it → result ≡ is_filed_before known.now (name_at graph.now.names node) it }
{
    graph.nodes[node].stamp.is_some() && known.number_of(name_of(graph, node)).is_some()
}

/// The numbers of those of these names that the graph has.
fn numbers_of(alloc: Global, graph: &Graph, names: &ByteStrings) -> Result<Vec<usize>, AllocError>
    ensures { IfOk result (λ numbers. (n : ℕ) → n < length graph.now.nodes.items
        → has numbers.items n ≡ has_name names.now (name_at graph.now.names n)) }
{
    let mut numbers = Vec::new(alloc);
    for name in names {
        if let Some(number) = graph.names.number_of(name) {
            numbers.push(number as usize)?;
        }
    }
    Ok(numbers)
}

/// Which nodes aren't made, where these names failed.
fn unmade_behind(
    alloc: Global,
    graph: &Graph,
    failed: &ByteStrings,
) -> Result<Vec<bool>, AllocError>
    ensures { PassesEach graph.now → IfOk result (λ marks. (n : ℕ) → n < length graph.now.nodes.items
        → (is_marked marks.items n ≡ true) ↔ StandsOnFailed failed.now graph.now n) }
{
    let numbers = numbers_of(alloc, graph, failed)?;
    nodes_on(alloc, graph, &numbers)
}

/// Which nodes are made again, or stand on one that is, where some of these names were built.
fn moved_behind(
    alloc: Global,
    counting: bool,
    graph: &Graph,
    filed: &ByteStrings,
    built: &Names,
) -> Result<Vec<bool>, AllocError>
    ensures { PassesEach graph.now → IfOk result (λ moved. filed.now ≢ [] → (causes : List ℕ) × AreCauses built.now counting graph.now causes
        × ((n : ℕ) → n < length graph.now.nodes.items → (is_marked moved.items n ≡ true) ↔ StandsOn graph.now (λ m. has causes m ≡ true) n)) }
{
    if filed.is_empty() {
        return Ok(Vec::new(alloc));
    }
    let causes = causes_in(alloc, counting, graph, built)?;
    nodes_on(alloc, graph, &causes)
}

/// Whether a node has one of these names, and a file that isn't made again.
fn is_as_built(graph: &Graph, node: usize, filed: &Names, moved: &[bool]) -> bool
    requires { node < length graph.now.nodes.items }
    ensures { (it : MadeNode) → slice_get graph.now.nodes.items node ≡ Some it
        → result ≡ (is_filed_before filed.now (name_at graph.now.names node) it && not (is_marked moved.now node)) }
{
    is_filed_before(graph, node, filed) && !is_lost(moved, node)
}

/// Whether it has one of the names without a file, is marked as one that isn't made, or is as it was built.
fn has_nothing_to_run(
    graph: &Graph,
    node: usize,
    built: &Names,
    unmade: &[bool],
    filed: &Names,
    moved: &[bool],
) -> bool
    requires { node < length graph.now.nodes.items }
    ensures { (it : MadeNode) → slice_get graph.now.nodes.items node ≡ Some it
        → result ≡ is_cleared_by built.now unmade.now filed.now moved.now (name_at graph.now.names node) node it }
{
    is_made_before(graph, node, built)
        || is_lost(unmade, node)
        || is_as_built(graph, node, filed, moved)
}

/// A mark for each node, which is set where that is so.
fn marks_of(
    alloc: Global,
    graph: &Graph,
    built: &Names,
    unmade: &[bool],
    filed: &Names,
    moved: &[bool],
) -> Result<Vec<bool>, AllocError>
    ensures count { IfOk result (λ marks. length marks.items ≡ length graph.now.nodes.items) }
    ensures marks { IfOk result (λ marks. (n : ℕ) (it : MadeNode) → slice_get graph.now.nodes.items n ≡ Some it
        → slice_get marks.items n ≡ Some (is_cleared_by built.now unmade.now filed.now moved.now (name_at graph.now.names n) n it)) }
{
    let mut marks = Vec::new(alloc);
    for node in 0..graph.len() {
        let mark = has_nothing_to_run(graph, node, built, unmade, filed, moved);
        marks.push(mark)?;
    }
    Ok(marks)
}

/// A mark for each node, which is set where there is nothing to run for it behind parts that tried these names.
fn marks_behind(
    alloc: Global,
    counting: bool,
    graph: &Graph,
    before: &Tried,
) -> Result<Vec<bool>, AllocError>
    ensures count { IfOk result (λ marks. length marks.items ≡ length graph.now.nodes.items) }
    ensures marks { PassesEach graph.now → IfOk result (λ marks. AreMarkedBehind before.now counting graph.now marks.items) }
{
    let built = known_names(alloc, &before.built)?;
    let filed = known_names(alloc, &before.filed)?;
    let unmade = unmade_behind(alloc, graph, &before.failed)?;
    let moved = moved_behind(alloc, counting, graph, &before.filed, &built)?;
    marks_of(alloc, graph, &built, &unmade, &filed, &moved)
}

/// Takes its recipe from a node where that is asked for.
fn clear_recipe(node: &mut Node, is_cleared: bool) -> Result<(), AllocError>
    ensures { OnOk result (node.new ≡ cleared_where is_cleared node.old) }
{
    if is_cleared {
        node.recipe = ShortNumber::of(None)?;
    }
    Ok(())
}

/// So from each node that is marked.
fn clear_recipes(nodes: &mut Vec<Node>, marks: &[bool]) -> Result<(), AllocError>
    requires { length marks.now ≡ length nodes.old.items }
    ensures count { length nodes.new.items ≡ length nodes.old.items }
    ensures nodes { OnOk result ((n : ℕ) (mark : Bool) → slice_get marks.now n ≡ Some mark
        → slice_get nodes.new.items n ≡ option_map (cleared_where mark) (slice_get nodes.old.items n)) }
{
    for number in 0..marks.len() {
        clear_recipe(&mut nodes[number], marks[number])?;
    }
    Ok(())
}

/// The graph by which a part is judged, behind parts that tried these names.
pub(crate) fn graph_behind(
    alloc: Global,
    counting: bool,
    graph: Graph,
    before: &Tried,
) -> Result<Graph, AllocError>
    ensures judged { PassesEach graph → IfOk result (IsJudgedBehind before.now counting graph) }
    ensures state { IfOk result (λ behind. behind.state ≡ graph.state) }
{
    if before.is_nothing() {
        return Ok(graph);
    }
    let mut behind = graph;
    let marks = marks_behind(alloc, counting, &behind, before)?;
    clear_recipes(&mut behind.nodes, &marks)?;
    Ok(behind)
}
