//! The rows of numbered names, parted into hard prerequisites and others.
ghost use Rattle.std.specs.Prelude.{◌≡◌, length, map, IfOk, IsTrue};
ghost use Rattle.mk_graph.specs.Edges.{is_closed};
ghost use Rattle.mk_edges.specs.Rows.{EachRow, IsHardRow, IsWaitedRow};

use mk_graph::{Edges, Numbered, Parts};
use mk_nodes::Node;
use std::alloc::{AllocError, Global};

/// How many hard prerequisites each node has.
fn hard_counts(alloc: Global, known: &[Node]) -> Result<Vec<u32>, AllocError>
    ensures { IfOk result (λ counts. counts.items ≡ map (λ k. k.hard) known.now) }
{
    let mut counts = Vec::with_capacity(alloc, known.len())?;
    for found in known {
        counts.push_reserved(found.hard);
    }
    Ok(counts)
}

/// The rows of the nodes, parted: in front the hard prerequisites of each, and behind them what it waits for besides, hidden
/// ones that are nodes and order-only ones.
pub fn parted_rows(alloc: Global, numbered: &Numbered<Node>) -> Result<Parts, AllocError>
    requires row_count { length numbered.now.rows ≡ length numbered.now.names }
    requires node_count { length numbered.now.nodes.items ≡ length numbered.now.names }
    requires closed { IsTrue (is_closed numbered.now.rows) }
    ensures hard_count { IfOk result (λ parts. length parts.fronts ≡ length numbered.now.names) }
    ensures hard_closed { IfOk result (λ parts. IsTrue (is_closed parts.fronts)) }
    ensures hard { IfOk result (λ parts. EachRow (IsHardRow numbered.now.rows numbered.now.nodes.items) parts.fronts) }
    ensures waited_count { IfOk result (λ parts. length parts.backs ≡ length numbered.now.names) }
    ensures waited_closed { IfOk result (λ parts. IsTrue (is_closed parts.backs)) }
    ensures waited { IfOk result (λ parts. EachRow (IsWaitedRow numbered.now.rows numbered.now.nodes.items) parts.backs) }
{
    let counts = hard_counts(alloc, &numbered.nodes)?;
    numbered.rows.parted(alloc, &counts)
}

/// The rows one by one, so that each may grow.
pub(crate) fn apart(alloc: Global, edges: &Edges) -> Result<Vec<Vec<u32>>, AllocError>
    ensures { IfOk result (λ rows. map (λ r. r.items) rows.items ≡ edges.now) }
{
    let mut rows = Vec::with_capacity(alloc, edges.len())?;
    for node in 0..edges.len() {
        rows.push(Vec::from_slice(alloc, edges.row(node))?)?;
    }
    Ok(rows)
}
