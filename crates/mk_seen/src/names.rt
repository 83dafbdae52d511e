//! Names of nodes, against names that are recorded.
ghost use Rattle.std.specs.Prelude.{◌≡◌, map};
ghost use Rattle.mk_names.specs.Names.{name_at};
ghost use Rattle.mk_seen.specs.Names.{are_known, are_same, come_first};

use crate::nodes::name_of;
use crate::same::is_same;
use byte_strings::Iter;
use mk_nodes::Graph;

/// Whether these are the names of the nodes, one by one.
pub(crate) fn are_names_of(graph: &Graph, nodes: &[u32], names: Iter<'_>) -> bool
    ensures { result ≡ are_same (map (name_at graph.now.names) nodes.now) names.entry }
{
    let mut left = names;
    for node in nodes {
        match left.next() {
            None => return false,
            Some(name) => {
                if !is_same(name, name_of(graph, *node as usize)) {
                    return false;
                }
            }
        }
    }
    left.next().is_none()
}

/// Whether the names of the nodes come first among these.
fn come_first(graph: &Graph, nodes: &[u32], names: Iter<'_>) -> bool
    ensures { result ≡ come_first (map (name_at graph.now.names) nodes.now) names.entry }
{
    let mut left = names;
    for node in nodes {
        match left.next() {
            None => return false,
            Some(name) => {
                if !is_same(name, name_of(graph, *node as usize)) {
                    return false;
                }
            }
        }
    }
    true
}

/// Whether the names of the nodes are the explicit ones, and behind these the first hidden ones.
pub(crate) fn are_known(graph: &Graph, nodes: &[u32], explicit: Iter<'_>, hidden: Iter<'_>) -> bool
    ensures { result ≡ are_known (map (name_at graph.now.names) nodes.now) explicit.entry hidden.entry }
{
    let (named, behind) = nodes.split_at(explicit.len().min(nodes.len()));
    are_names_of(graph, named, explicit) && come_first(graph, behind, hidden)
}
