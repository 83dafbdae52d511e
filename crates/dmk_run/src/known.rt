//! What a state knows of the targets of a graph.
ghost use Rattle.std.specs.Prelude.{◌↔◌, ◌<◌, length, IsTrue};
ghost use Rattle.dmk_run.specs.Known.{IsKnownDone, IsNodeKnownDone, AreKnownDone};

use mk_nodes::Graph;
use st_records::Phase;
use st_state::State;

/// Whether the state, which may have the target at that place, knows it as done.
fn is_known_done(state: &State, target: &[u8], place: usize) -> bool
    ensures { IsTrue result ↔ IsKnownDone state.now target.now }
{
    let (known, _next) = state.near(target, place);
    match known {
        Some(entry) => matches!(entry.phase(), Phase::Done),
        None => false,
    }
}

fn is_node_known_done(graph: &Graph, state: &State, node: usize) -> bool
    requires { node < length graph.now.nodes.items }
    ensures { IsTrue result ↔ IsNodeKnownDone graph.now state.now node }
{
    let it = &graph.nodes[node];
    it.recipe.get().is_none() || is_known_done(state, graph.names.name(node), it.place as usize)
}

/// Whether the state knows each node of the graph that has a recipe as done.
pub(crate) fn are_known_done(graph: &Graph, state: &State) -> bool
    ensures { IsTrue result ↔ AreKnownDone graph.now state.now }
{
    for node in 0..graph.len() {
        if !is_node_known_done(graph, state, node) {
            return false;
        }
    }
    true
}
