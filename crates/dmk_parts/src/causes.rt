//! What makes again what stands on it, behind parts that built it.
ghost use Rattle.std.specs.Prelude.{◌≡◌, ◌≢◌, ◌<◌, ℕ, List, [], true, false, replicate, length, slice_get, IfOk};
ghost use Rattle.mk_graph.specs.Edges.{has};
ghost use Rattle.mk_names.specs.Names.{name_at};
ghost use Rattle.mk_nodes.specs.declared.graph.Node.{Node as MadeNode};
ghost use Rattle.mk_plan.specs.TextNames.{HasTextNames};
ghost use Rattle.dmk_parts.specs.Behind.{IsRunAlone, IsCause, AreCauses, is_group, is_made_before};

use crate::made::is_made_before;
use mk_names::Names;
use mk_nodes::Graph;
use mk_plan::{RecipeFault, has_text_names, pass_in};
use std::alloc::{AllocError, Global};

/// Whether a name without a file stands for others: it has no recipe, and isn't made without others.
pub(crate) fn is_group(graph: &Graph, node: usize) -> bool
    requires { node < length graph.now.nodes.items }
    ensures { (it : MadeNode) → slice_get graph.now.nodes.items node ≡ Some it → result ≡ is_group graph.now node it }
{
    let known = &graph.nodes[node];
    known.stamp.look().is_none()
        && known.recipe.get().is_none()
        && !graph.required_edges().row(node).is_empty()
}

/// Whether the recipe of a node is to be run though nothing else was remade. One that can't be expanded counts too.
fn is_run_alone(
    alloc: Global,
    counting: bool,
    texts: bool,
    graph: &Graph,
    none: &[bool],
    node: usize,
) -> Result<bool, AllocError>
    requires node { node < length graph.now.nodes.items }
    requires texts { texts ≡ true → HasTextNames graph.now }
    ensures { IfOk result (IsRunAlone counting graph.now none.now node) }
{
    match pass_in(alloc, counting, texts, graph, none, node) {
        Ok(passed) => Ok(passed.is_listed()),
        Err(RecipeFault::OutOfMemory) => Err(AllocError),
        Err(RecipeFault::Macro(fault)) => {
            drop(fault);
            Ok(true)
        }
    }
}

/// Whether what stands on a node is made again for it, where the parts before built these names and left them without a file.
fn is_cause(
    alloc: Global,
    counting: bool,
    texts: bool,
    graph: &Graph,
    none: &[bool],
    known: &Names,
    node: usize,
) -> Result<bool, AllocError>
    requires node { node < length graph.now.nodes.items }
    requires texts { texts ≡ true → HasTextNames graph.now }
    ensures { IfOk result (λ yes. (it : MadeNode) → slice_get graph.now.nodes.items node ≡ Some it → IsCause known.now counting graph.now none.now node it yes) }
{
    if is_made_before(graph, node, known) {
        return Ok(false);
    }
    if is_group(graph, node) {
        return Ok(true);
    }
    is_run_alone(alloc, counting, texts, graph, none, node)
}

/// The numbers of all nodes for which that is so.
pub(crate) fn causes_in(
    alloc: Global,
    counting: bool,
    graph: &Graph,
    known: &Names,
) -> Result<Vec<usize>, AllocError>
    ensures { IfOk result (λ causes. AreCauses known.now counting graph.now causes.items) }
{
    let none = vec![in alloc; false; graph.len()]?;
    let texts = has_text_names(graph);
    let mut causes = Vec::new(alloc);
    for node in 0..graph.len() {
        if is_cause(alloc, counting, texts, graph, &none, known, node)? {
            causes.push(node)?;
        }
    }
    Ok(causes)
}
