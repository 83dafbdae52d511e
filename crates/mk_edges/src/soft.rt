//! The soft edges of a graph.
ghost use Rattle.std.specs.Prelude.{◌≡◌, ℕ, List, length, map, IfOk, IsTrue};
ghost use Rattle.std.specs.List.{IsDistinct};
ghost use Rattle.std.specs.Str.{bytes_eq};
ghost use Rattle.mk_graph.specs.Edges.{is_closed};
ghost use Rattle.mk_names.specs.Names.{name_at};
ghost use Rattle.mk_graph.specs.Numbering.{AreDescribed};
ghost use Rattle.mk_nodes.specs.Graph.{AreSoft};
ghost use Rattle.mk_edges.specs.Known.{IsKnown};
ghost use Rattle.mk_nodes.specs.Prerequisites.{Inputs, prerequisites_of};
ghost use Rattle.mk_edges.specs.Rows.{EachRow, IsWaitedRow, IsSoftRow};
ghost use Rattle.mk_rule_lines.specs.Rules.{suffixes_of};

use crate::waits::with_waits;
use byte_strings::ByteStrings;
use mk_graph::{Edges, Numbered};
use mk_nodes::Node;
use mk_rule_lines::RuleLine;
use std::alloc::{AllocError, Global};

/// The soft edges: what nodes wait for beside hard prerequisites, and what `.WAIT`s say.
pub fn soft_edges(
    alloc: Global,
    numbered: &Numbered<Node>,
    waited: Edges,
    lines: &[RuleLine],
    suffixes: &ByteStrings,
) -> Result<Edges, AllocError>
    requires row_count { length numbered.now.rows ≡ length numbered.now.names }
    requires node_count { length numbered.now.nodes.items ≡ length numbered.now.names }
    requires closed { IsTrue (is_closed numbered.now.rows) }
    requires waited_count { length waited ≡ length numbered.now.names }
    requires waited_closed { IsTrue (is_closed waited) }
    requires waited { EachRow (IsWaitedRow numbered.now.rows numbered.now.nodes.items) waited }
    requires names { IsDistinct bytes_eq numbered.now.names }
    requires suffixes { suffixes.now ≡ suffixes_of lines.now }
    ensures count { IfOk result (λ soft. length soft ≡ length numbered.now.names) }
    ensures closed { IfOk result (λ soft. IsTrue (is_closed soft)) }
    ensures rows { IfOk result (EachRow (IsSoftRow numbered.now.rows numbered.now.nodes.items)) }
    ensures soft { IfOk result (λ soft. (inputs : Inputs) → inputs.lines ≡ lines.now
        → map (map (name_at numbered.now.names)) numbered.now.rows ≡ map (prerequisites_of inputs) numbered.now.names
        → AreDescribed (IsKnown inputs) numbered.now.names numbered.now.nodes.items → AreSoft inputs numbered.now.names soft) }
{
    with_waits(alloc, waited, &numbered.names, suffixes, lines)
}
