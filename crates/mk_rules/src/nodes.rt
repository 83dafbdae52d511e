//! What is kept of numbered names once their rows are parted.
ghost use Rattle.mk_rules.specs.Nodes.{IsNamedOf};

use mk_graph::Numbered;
use mk_names::Names;
use mk_nodes::Node;

/// The names of a graph, the numbers of the goals, the node of each name, and the numbers of those that nothing makes.
#[derive(Drop)]
pub(crate) struct Named {
    pub names: Names,
    pub goals: Vec<usize>,
    pub nodes: Vec<Node>,
    pub unmade: Vec<usize>,
}

/// The names that were found, with their nodes. Their rows are let go.
pub(crate) fn named_nodes(numbered: Numbered<Node>, unmade: Vec<usize>) -> Named
    ensures { IsNamedOf numbered unmade.items result }
{
    let Numbered {
        names,
        goals,
        nodes,
        ..
    } = numbered;
    Named {
        names,
        goals,
        nodes,
        unmade,
    }
}
