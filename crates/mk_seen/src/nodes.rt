//! What a graph has under a number. Past the end there is nothing, so that no number is out of range.
ghost use Rattle.std.specs.Prelude.{◌≡◌, ◌<◌, length, IfOk};
ghost use Rattle.std.specs.Option.{option_copied};
ghost use Rattle.mk_names.specs.Names.{name_at};
ghost use Rattle.mk_verdict.specs.Tests.{is_later};
ghost use Rattle.mk_seen.specs.Nodes.{node_at, stamp_of, made_of, made_beside, entry_of, stem_of, source_of, explicit_of, is_marked};

use byte_strings::ByteStrings;
use mk_nodes::Graph;
use st_packed::PackedEntry;
use std::alloc::{AllocError, Global};

pub fn name_of(graph: &Graph, node: usize) -> &[u8]
    ensures { result.now ≡ name_at graph.now.names node }
{
    if node < graph.names.len() {
        graph.names.name(node)
    } else {
        &[]
    }
}

/// The time of a node's file.
pub fn stamp_of(graph: &Graph, node: usize) -> Option<i128>
    ensures { result ≡ stamp_of graph.now node }
{
    match graph.nodes.get(node) {
        Some(node) => node.stamp.time(),
        None => None,
    }
}

/// When all that the recipe of a node makes was made; None where a file of it is missing.
pub fn made_of(graph: &Graph, node: usize) -> Option<i128>
    ensures { result ≡ made_of graph.now node }
{
    let node = graph.nodes.get(node)?;
    match node.group() {
        Some(group) => group.made,
        None => node.stamp.time(),
    }
}

/// What the recipe of a node makes beside it.
pub fn made_beside(alloc: Global, graph: &Graph, node: usize) -> Result<ByteStrings, AllocError>
    ensures { IfOk result (λ names. names ≡ made_beside graph.now node) }
{
    let Some(node) = graph.nodes.get(node) else {
        return Ok(ByteStrings::empty(alloc));
    };
    match node.group() {
        Some(group) => group.others.copy(alloc),
        None => Ok(ByteStrings::empty(alloc)),
    }
}

/// Where the state may have a node's name.
fn place_of(graph: &Graph, node: usize) -> usize {
    match graph.nodes.get(node) {
        Some(node) => node.place as usize,
        None => 0,
    }
}

/// What the state has of a node's name.
pub fn entry_of(graph: &Graph, node: usize) -> Option<&PackedEntry>
    ensures { option_copied result ≡ entry_of graph.now node }
{
    let (entry, _next) = graph
        .state
        .near(name_of(graph, node), place_of(graph, node));
    entry
}

/// The stem of a node that an implicit rule makes, and else nothing.
pub fn stem_of(graph: &Graph, node: usize) -> &[u8]
    ensures { result.now ≡ stem_of graph.now node }
{
    match graph.nodes.get(node) {
        Some(node) => match node.stem() {
            Some(stem) => stem.as_slice(),
            None => &[],
        },
        None => &[],
    }
}

/// The name of a node's implicit source, and else nothing.
pub fn source_of(graph: &Graph, node: usize) -> &[u8]
    requires { node < length graph.now.nodes.items }
    ensures { result.now ≡ source_of graph.now node }
{
    match graph.source(node) {
        Some(source) => name_of(graph, source),
        None => &[],
    }
}

/// How many bytes the names of these nodes have, as far as a number goes.
fn size_of(graph: &Graph, nodes: &[u32]) -> usize {
    let mut size = 0usize;
    for node in nodes {
        size = size.saturating_add(name_of(graph, *node as usize).len());
    }
    size
}

/// The prerequisites of a node by name, as they are recorded.
pub fn explicit_of(alloc: Global, graph: &Graph, node: usize) -> Result<ByteStrings, AllocError>
    requires { node < length graph.now.nodes.items }
    ensures { IfOk result (λ names. names ≡ explicit_of graph.now node) }
{
    let explicit = graph.explicit(node);
    let mut names = ByteStrings::with_capacity(alloc, explicit.len(), size_of(graph, explicit))?;
    for prerequisite in graph.explicit(node) {
        names.push(name_of(graph, *prerequisite as usize))?;
    }
    Ok(names)
}

/// The mark of a node.
pub fn is_marked(marks: &[bool], node: usize) -> bool
    ensures { result ≡ is_marked marks.now node }
{
    match marks.get(node) {
        Some(mark) => *mark,
        None => false,
    }
}

/// Whether both have a file, and that of the prerequisite is later.
pub fn is_later(prerequisite: Option<i128>, target: Option<i128>) -> bool
    ensures { result ≡ is_later prerequisite target }
{
    match (prerequisite, target) {
        (Some(prerequisite), Some(target)) => target < prerequisite,
        _ => false,
    }
}
