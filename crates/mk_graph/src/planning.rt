//! The order in which nodes are passed.

ghost use Rattle.std.specs.Prelude.{◌≡◌, ℕ, ◌<◌, ◌||◌, true, false, length, nat_eq, nat_lt, IfOk, IfSome, IfNone};
ghost use Rattle.std.specs.List.{IsDistinct, list_all};
ghost use Rattle.mk_graph.specs.Counted.{joined};
ghost use Rattle.mk_graph.specs.Plan.{IsPlan, OnePlan, WholePlan};
ghost use Rattle.mk_graph.specs.Ready.{is_in};
ghost use Rattle.mk_graph.specs.Watching.{can_pass, AreWatched, AreReleased};

use crate::edges::Edges;
use crate::ready::ReadyNodes;
use crate::watching::Waiting;
use mk_names::push;
use std::alloc::{AllocError, Global};

/// Takes out the least of the nodes that are ready; where there is none, the nodes that weren't looked at yet are, one by one.
fn next_ready(
    first: &Edges,
    second: &Edges,
    passed: &[bool],
    waiting: &mut Waiting,
    ready: &mut ReadyNodes,
) -> Result<Option<usize>, AllocError>
    requires nodes { length second.now ≡ length first.now }
    requires watched { AreWatched (joined first.now second.now) passed.now (is_in ready.old) waiting.old.from waiting.old.places.items waiting.old.lists }
    requires released { AreReleased passed.now waiting.old.lists }
    ensures can { IfOk result (λ found. IfSome found (λ n. can_pass (joined first.now second.now) passed.now n ≡ true)) }
    ensures least { IfOk result (λ found. IfSome found (λ n. (m : ℕ) → m < n → can_pass (joined first.now second.now) passed.now m ≡ false)) }
    ensures taken { IfOk result (λ found. IfSome found (λ n. is_in ready.new n ≡ false)) }
    ensures watched { IfOk result (λ found. IfSome found (λ n.
        AreWatched (joined first.now second.now) passed.now (λ m. is_in ready.new m || nat_eq m n) waiting.new.from waiting.new.places.items waiting.new.lists)) }
    ensures none { IfOk result (λ found. IfNone found ((m : ℕ) → can_pass (joined first.now second.now) passed.now m ≡ false)) }
    ensures released { AreReleased passed.now waiting.new.lists }
{
    if let Some(node) = ready.pop_first() {
        return Ok(Some(node));
    }
    waiting.next_open(first, second, passed)
}

/// The order in which the nodes of a graph are passed: again and again the least one whose prerequisites were all
/// passed. Nodes that depend on a cycle are left out.
pub fn plan(alloc: Global, edges: &Edges) -> Result<Vec<usize>, AllocError>
    ensures plan { IfOk result (λ order. IsPlan edges.now order.items) }
    ensures once { IfOk result (λ order. IsDistinct nat_eq order.items) }
    ensures nodes { IfOk result (λ order. list_all (λ n. nat_lt n (length edges.now)) order.items ≡ true) }
{
    let none = edges.blank(alloc)?;
    plan_both(alloc, edges, &none)
}

/// The plan of the graph that has the rows of two together. These rows aren't made.
///
/// Made, they and their users were four lists of all edges at once. Only a board needs them, and makes them by `counted_edges`.
pub(crate) fn plan_both(
    alloc: Global,
    first: &Edges,
    second: &Edges,
) -> Result<Vec<usize>, AllocError>
    requires { length second.now ≡ length first.now }
    ensures plan { IfOk result (λ order. IsPlan (joined first.now second.now) order.items) }
    ensures once { IfOk result (λ order. IsDistinct nat_eq order.items) }
    ensures nodes { IfOk result (λ order. list_all (λ n. nat_lt n (length (joined first.now second.now))) order.items ≡ true) }
{
    let mut passed = vec![in alloc; false; first.len()]?;
    let mut waiting = Waiting::new(alloc, first.len())?;
    let mut ready = ReadyNodes::new(alloc);
    let mut order = Vec::with_capacity(alloc, first.len())?;
    while let Some(node) = next_ready(first, second, &passed, &mut waiting, &mut ready)? {
        push(&mut order, node)?;
        passed[node] = true;
        waiting.release(node, first, second, &passed, &mut ready)?;
    }
    Ok(order)
}

/// A graph has one plan.
pub fn one_plan()
    ensures { OnePlan }
{}

/// The plan of a graph without a cycle has each node once.
pub fn whole_plan()
    ensures { WholePlan }
{}
