//! What a part of a run built and left without a file, and what failed in it.
ghost use Rattle.std.specs.Prelude.{◌≡◌, ◌⊎◌, ◌∷◌, ◌++◌, ◌<◌, ℕ, List, [], Some, true, false, length, slice_get, IfOk};
ghost use Rattle.std.specs.List.{All};
ghost use Rattle.mk_names.specs.Names.{name_at};
ghost use Rattle.mk_nodes.specs.declared.graph.Node.{Node as MadeNode};
ghost use Rattle.dmk_parts.specs.Behind.{is_made_before};
ghost use Rattle.bd_places.specs.declared.end.End.TheVariants as ended;
ghost use Rattle.dmk_parts.specs.Tried.{IsBuilt, IsBuiltWithoutFile, AreFailed, AddsSome};

use bd_places::End;
use byte_strings::{ByteString, ByteStrings};
use mk_names::Names;
use mk_nodes::Graph;
use mk_plan::name_of;
use mk_rule_lines::is_phony;
use mk_rules::Tree;
use std::alloc::{AllocError, Global};

/// A name that was built, and that had no file before.
#[derive(Drop)]
pub struct Made {
    pub name: ByteString,
    is_phony: bool,
}

/// Whether a rule makes the name phony. Graphs of the wide profile can tell.
pub(crate) fn is_phony_name(graph: &Graph, name: &[u8]) -> bool {
    match &graph.targets {
        Some(targets) => is_phony(&graph.lines, targets.named(name).0),
        None => false,
    }
}

/// Whether a node has one of these names, and no file.
pub(crate) fn is_made_before(graph: &Graph, node: usize, known: &Names) -> bool
    requires { node < length graph.now.nodes.items }
    ensures { (it : MadeNode) → slice_get graph.now.nodes.items node ≡ Some it → result ≡ is_made_before known.now (name_at graph.now.names node) it }
{
    graph.nodes[node].stamp.look().is_none() && known.number_of(name_of(graph, node)).is_some()
}

/// Whether a node was built that had no file.
fn is_built_without_file(graph: &Graph, ends: &[End], node: usize) -> bool
    requires { node < length graph.now.nodes.items }
    ensures { result ≡ true → IsBuiltWithoutFile graph.now ends.now (name_at graph.now.names node) }
{
    match ends.get(node) {
        Some(End::Built) => graph.nodes[node].stamp.look().is_none(),
        _ => false,
    }
}

/// The names of all that were built and had no file, by the ends of a graph's nodes.
pub fn made_in(alloc: Global, graph: &Graph, ends: &[End]) -> Result<Vec<Made>, AllocError>
    ensures { IfOk result (λ made. All (λ m. IsBuiltWithoutFile graph.now ends.now m.name) made.items) }
{
    let mut made = Vec::new(alloc);
    for node in 0..graph.len() {
        if is_built_without_file(graph, ends, node) {
            let name = ByteString::from_slice(alloc, name_of(graph, node))?;
            let is_phony = is_phony_name(graph, name.as_slice());
            made.push(Made { name, is_phony })?;
        }
    }
    Ok(made)
}

/// Whether a node was built that had a file.
fn is_built_with_file(graph: &Graph, ends: &[End], node: usize) -> bool
    requires { node < length graph.now.nodes.items }
    ensures { result ≡ true → IsBuilt graph.now ends.now (name_at graph.now.names node) }
{
    match ends.get(node) {
        Some(End::Built) => graph.nodes[node].stamp.is_some(),
        _ => false,
    }
}

/// The names of all that were built and had a file.
pub fn filed_in(alloc: Global, graph: &Graph, ends: &[End]) -> Result<ByteStrings, AllocError>
    ensures { IfOk result (All (IsBuilt graph.now ends.now)) }
{
    let mut filed = ByteStrings::empty(alloc);
    for node in 0..graph.len() {
        if is_built_with_file(graph, ends, node) {
            filed.push(name_of(graph, node))?;
        }
    }
    Ok(filed)
}

/// Whether a node failed.
fn is_failed(ends: &[End], node: usize) -> bool
    ensures yes { result ≡ true → (status : ℕ) × (slice_get ends.now node ≡ Some (ended.Failed status)) }
    ensures no { result ≡ false → (status : ℕ) → slice_get ends.now node ≡ Some (ended.Failed status) → ⊥ }
{
    matches!(ends.get(node), Some(End::Failed(_)))
}

/// The names of all that failed, by the ends of a graph's nodes.
pub fn failed_in(alloc: Global, graph: &Graph, ends: &[End]) -> Result<ByteStrings, AllocError>
    ensures { IfOk result (AreFailed graph.now ends.now) }
{
    let mut failed = ByteStrings::empty(alloc);
    for node in 0..graph.len() {
        if is_failed(ends, node) {
            failed.push(name_of(graph, node))?;
        }
    }
    Ok(failed)
}

/// Whether the name still has no file. A phony one has none, whatever there is.
fn is_without_file<T: Tree>(alloc: Global, tree: &mut T, made: &Made) -> bool {
    made.is_phony || matches!(tree.stamp(alloc, made.name.as_slice()), Ok(None))
}

/// Adds its name to these where it still has no file, and else to those.
fn add_one_built<T: Tree>(
    alloc: Global,
    tree: &mut T,
    one: &Made,
    without: &mut ByteStrings,
    filed: &mut ByteStrings,
) -> Result<(), AllocError>
    ensures without { (without.new ≡ without.old) ⊎ (without.new ≡ without.old ++ one.now.name ∷ []) }
    ensures filed { (filed.new ≡ filed.old) ⊎ (filed.new ≡ filed.old ++ one.now.name ∷ []) }
{
    if is_without_file(alloc, tree, one) {
        without.push(one.name.as_slice())?;
        return Ok(());
    }
    filed.push(one.name.as_slice())?;
    Ok(())
}

/// Adds the names of those that still have no file, by new looks, and of the others.
pub(crate) fn add_built<T: Tree>(
    alloc: Global,
    tree: &mut T,
    made: &[Made],
    without: &mut ByteStrings,
    filed: &mut ByteStrings,
) -> Result<(), AllocError>
    ensures without { AddsSome made.now without.old without.new }
    ensures filed { AddsSome made.now filed.old filed.new }
{
    for one in made {
        add_one_built(alloc, tree, one, without, filed)?;
    }
    Ok(())
}
