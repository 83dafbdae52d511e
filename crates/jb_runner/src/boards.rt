//! The board of a graph: it has copies of the graph's tables, and the edges that count.

ghost use Rattle.std.specs.Prelude.{◌≡◌, ℕ, false, List, IfOk};
ghost use Rattle.bd_ledger.specs.Sheet.{first_sheet_in};
ghost use Rattle.mk_graph.specs.Counted.{AreSets, joined};
ghost use Rattle.mk_nodes.specs.Graph.{required_in, counting_in};
ghost use Rattle.jb_order.specs.InOrder.{HasAlso};

use bd_flusher::Receipt;
use bd_lists::BoardIn;
use byte_strings::ByteString;
use jb_order::edges_in_order;
use mk_graph::counted_edges;
use mk_names::Names;
use mk_nodes::Graph;
use st_records::Form;
use std::alloc::{AllocError, Global};

/// The same names in order.
fn copy_names(alloc: Global, names: &Names) -> Result<Vec<ByteString>, AllocError>
    ensures { IfOk result (λ copied. copied.items ≡ names.now) }
{
    let mut copied = Vec::with_capacity(alloc, names.len())?;
    for number in 0..names.len() {
        copied.push(ByteString::from_slice(alloc, names.name(number))?)?;
    }
    Ok(copied)
}

/// The board of a graph's nodes, whose records have this form: those that wait for nothing are in Ready, the others in Waiting, in the order of their numbers.
/// No call of the board takes memory from then on.
pub fn board_of(alloc: Global, form: Form, graph: &Graph) -> Result<BoardIn<Receipt>, AllocError>
    ensures { IfOk result (λ b. (counted : List (List ℕ)) × AreSets (counting_in graph.now) counted
        × (b ≡ first_sheet_in form (record { counted = counted; hard = required_in graph.now }) graph.now.names)) }
{
    let counted = graph.counted_edges(alloc)?;
    let hard = graph.required_edges().copy(alloc)?;
    let names = copy_names(alloc, &graph.names)?;
    BoardIn::of(alloc, form, counted, hard, names)
}

/// The board of a graph's nodes where one recipe is run at a time: beside what it waits for by the graph, each node waits for the one
/// before it, depth first. So nodes become ready one by one, in the order in which the makefile names them.
fn board_in_order(alloc: Global, form: Form, graph: &Graph) -> Result<BoardIn<Receipt>, AllocError>
    ensures { IfOk result (λ b. (more counted : List (List ℕ)) × (graph.now.soft_dropped ≡ false → HasAlso graph.now.soft more)
        × AreSets (joined (required_in graph.now) more) counted
        × (b ≡ first_sheet_in form (record { counted = counted; hard = required_in graph.now }) graph.now.names)) }
{
    let required = graph.required_edges();
    let more = edges_in_order(
        alloc,
        required,
        &graph.soft,
        graph.soft_dropped,
        &graph.goals,
    )?;
    let counted = counted_edges(alloc, required, &more, false)?;
    drop(more);
    let hard = required.copy(alloc)?;
    let names = copy_names(alloc, &graph.names)?;
    BoardIn::of(alloc, form, counted, hard, names)
}

/// The board of a run of so many workers: in the wide profile one worker makes nodes in order.
pub(crate) fn board_for(
    alloc: Global,
    form: Form,
    graph: &Graph,
    workers: usize,
) -> Result<BoardIn<Receipt>, AllocError> {
    if workers == 1 && graph.macros.profile().is_wide() {
        return board_in_order(alloc, form, graph);
    }
    board_of(alloc, form, graph)
}
