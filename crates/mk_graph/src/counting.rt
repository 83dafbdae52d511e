//! The edges that order nodes, and the order that they make.

ghost use Rattle.std.specs.Prelude.{◌≡◌, ℕ, length, IfOk, IsTrue};
ghost use Rattle.std.specs.List.Sorted.{IsNonDecreasing, IsStrictlyIncreasing};
ghost use Rattle.mk_graph.specs.Edges.{row, has, is_closed, AreUsers};
ghost use Rattle.mk_graph.specs.Cycle.{HasCycle};
ghost use Rattle.mk_graph.specs.Counted.{joined, counting, AreSets, IsDropped};
ghost use Rattle.mk_graph.specs.Order.{IsCountedOrder};

use crate::cycles::{Order, order_both, order_nodes};
use crate::edges::Edges;
use std::alloc::{AllocError, Global};

/// The order of the nodes of a graph, by hard and soft edges.
#[derive(Drop)]
pub struct CountedOrder {
    /// Whether soft edges were dropped, since they would make a cycle.
    pub dropped: bool,
    /// The order by the edges that count, or a cycle of hard ones.
    pub order: Order,
}

/// The numbers of a list that doesn't fall, each once.
fn set_of(alloc: Global, numbers: &[u32]) -> Result<Vec<u32>, AllocError>
    requires { IsNonDecreasing numbers.now }
    ensures members { IfOk result (λ set. (n : ℕ) → has set.items n ≡ has numbers.now n) }
    ensures ascending { IfOk result (λ set. IsStrictlyIncreasing set.items) }
{
    let mut set = Vec::from_slice(alloc, numbers)?;
    set.dedup();
    Ok(set)
}

/// Rows that don't fall, without repeats.
fn without_repeats(alloc: Global, rows: Edges) -> Result<Edges, AllocError>
    requires { (n : ℕ) → IsNonDecreasing (row rows n) }
    ensures { IfOk result (AreSets rows) }
{
    let mut sets = Edges::with_capacity(alloc, rows.len())?;
    for node in 0..rows.len() {
        sets.push_row(&set_of(alloc, rows.row(node))?)?;
    }
    Ok(sets)
}

/// Rows without repeats and in order, by their users. Where no user stands twice, the rows keep their lengths.
fn sets_by_users(alloc: Global, rows: Edges, users: Edges) -> Result<Edges, AllocError>
    requires closed { IsTrue (is_closed rows) }
    requires users { AreUsers rows users }
    ensures { IfOk result (AreSets rows) }
{
    if users.ascends() {
        return users.reversed_into(rows);
    }
    let users = without_repeats(alloc, users)?;
    users.reversed(alloc)
}

/// Rows without repeats and in order. The users of a graph's users are its own rows in order, so no row need be sorted by
/// itself.
fn sets_of(alloc: Global, rows: Edges) -> Result<Edges, AllocError>
    requires { IsTrue (is_closed rows) }
    ensures { IfOk result (AreSets rows) }
{
    if rows.ascends() {
        return Ok(rows);
    }
    let users = rows.reversed(alloc)?;
    sets_by_users(alloc, rows, users)
}

/// The rows of the edges that count, as they stand.
fn rows_counting(
    alloc: Global,
    hard: &Edges,
    soft: &Edges,
    dropped: bool,
) -> Result<Edges, AllocError>
    requires { length soft.now ≡ length hard.now }
    ensures { IfOk result (λ rows. rows ≡ counting hard.now soft.now dropped) }
{
    if dropped {
        return hard.copy(alloc);
    }
    Edges::joined(alloc, hard, soft)
}

/// The edges that order the nodes of a graph: hard and soft ones, or hard ones alone where the soft ones are dropped. Each
/// row has a number once, and the numbers in their order.
pub fn counted_edges(
    alloc: Global,
    hard: &Edges,
    soft: &Edges,
    dropped: bool,
) -> Result<Edges, AllocError>
    requires nodes { length soft.now ≡ length hard.now }
    requires hard { IsTrue (is_closed hard.now) }
    requires soft { IsTrue (is_closed soft.now) }
    ensures { IfOk result (AreSets (counting hard.now soft.now dropped)) }
{
    let rows = rows_counting(alloc, hard, soft, dropped)?;
    sets_of(alloc, rows)
}

/// The order where hard and soft edges together make a cycle.
fn order_hard(alloc: Global, hard: &Edges, soft: &Edges) -> Result<CountedOrder, AllocError>
    requires hard { IsTrue (is_closed hard.now) }
    requires cycle { HasCycle (joined hard.now soft.now) }
    ensures dropped { IfOk result (λ c. IsDropped hard.now soft.now c.dropped) }
    ensures order { IfOk result (λ c. IsCountedOrder hard.now soft.now c.dropped c.order) }
{
    match order_nodes(alloc, hard)? {
        Order::Plan(order) => Ok(CountedOrder {
            dropped: true,
            order: Order::Plan(order),
        }),
        Order::Cycle(cycle) => Ok(CountedOrder {
            dropped: false,
            order: Order::Cycle(cycle),
        }),
    }
}

/// The order of the nodes of a graph by hard and soft edges, or by hard ones alone where both together make a cycle and the hard
/// ones don't. Where hard ones make a cycle, it is answered instead.
pub fn counted_order(alloc: Global, hard: &Edges, soft: &Edges) -> Result<CountedOrder, AllocError>
    requires nodes { length soft.now ≡ length hard.now }
    requires hard { IsTrue (is_closed hard.now) }
    requires soft { IsTrue (is_closed soft.now) }
    ensures dropped { IfOk result (λ c. IsDropped hard.now soft.now c.dropped) }
    ensures order { IfOk result (λ c. IsCountedOrder hard.now soft.now c.dropped c.order) }
{
    match order_both(alloc, hard, soft)? {
        Order::Plan(order) => Ok(CountedOrder {
            dropped: false,
            order: Order::Plan(order),
        }),
        Order::Cycle(_) => order_hard(alloc, hard, soft),
    }
}
