//! The explicit prerequisites of a node, as they are compared with what is recorded.
ghost use Rattle.std.specs.Prelude.{◌≡◌, ◌<◌, length, IfOk};
ghost use Rattle.mk_seen.specs.Marks.{compared_of};

use crate::marks::{is_as_recorded, noted_in};
use crate::nodes::{entry_of, explicit_of};
use byte_strings::ByteStrings;
use mk_nodes::Graph;
use std::alloc::{AllocError, Global};

/// The explicit prerequisites of a node by name, but for recorded hidden ones that have become explicit.
pub fn compared_of(alloc: Global, graph: &Graph, node: usize) -> Result<ByteStrings, AllocError>
    requires { node < length graph.now.nodes.items }
    ensures { IfOk result (λ names. names ≡ compared_of graph.now node) }
{
    let Some(entry) = entry_of(graph, node) else {
        return explicit_of(alloc, graph, node);
    };
    let noted = noted_in(graph, node, entry);
    if is_as_recorded(graph, node, entry, noted.source_changed) {
        return entry.names().copy(alloc);
    }
    explicit_of(alloc, graph, node)
}
