//! Cycles: whoever isn't in the plan depends on one.

ghost use Rattle.std.specs.Prelude.{◌≡◌, ◌≢◌, ℕ, ◌<◌, Bool, true, false, List, [], ◌∷◌, ◌++◌, length, take, drop, nat_eq, nat_lt, nat_le, slice_index, slice_index_or, IsTrue, IfOk, IfSome, IfNone};
ghost use Rattle.std.specs.List.{IsDistinct, list_all};
ghost use Rattle.mk_graph.specs.Edges.{row, has, is_closed};
ghost use Rattle.mk_graph.specs.Counted.{joined};
ghost use Rattle.mk_graph.specs.Cycle.{IsCycle};
ghost use Rattle.mk_graph.specs.Order.{IsOrder};
ghost use Rattle.mk_graph.specs.Plan.{IsPlan};
ghost use Rattle.mk_graph.specs.Ring.{IsRing};

use crate::edges::Edges;
use crate::planning::plan_both;
use std::alloc::{AllocError, Global};

/// A mark for each of so many nodes, set for those of the list.
fn marks(alloc: Global, nodes: usize, marked: &[usize]) -> Result<Vec<bool>, AllocError>
    requires { list_all (λ n. nat_lt n nodes) marked.now ≡ true }
    ensures len { IfOk result (λ marks. length marks.items ≡ nodes) }
    ensures set { IfOk result (λ marks. (q : ℕ) → q < nodes → slice_index_or marks.items q false ≡ has marked.now q) }
{
    let mut marks = vec![in alloc; false; nodes]?;
    for node in marked {
        marks[*node] = true;
    }
    Ok(marks)
}

/// The least node without a mark.
fn first_unmarked(marks: &[bool]) -> Option<usize>
    ensures some { IfSome result (λ n. n < length marks.now) }
    ensures unmarked { IfSome result (λ n. slice_index_or marks.now n false ≡ false) }
    ensures none { IfNone result ((q : ℕ) → q < length marks.now → slice_index_or marks.now q false ≡ true) }
{
    for (node, marked) in marks.iter().enumerate() {
        if !*marked {
            return Some(node);
        }
    }
    None
}

/// The first of some nodes without a mark.
fn unmarked_of(nodes: &[u32], marks: &[bool]) -> Option<usize>
    requires { list_all (λ n. nat_lt n (length marks.now)) nodes.now ≡ true }
    ensures some { IfSome result (λ n. has nodes.now n ≡ true) }
    ensures unmarked { IfSome result (λ n. slice_index_or marks.now n false ≡ false) }
    ensures none { IfNone result (list_all (λ n. slice_index_or marks.now n false) nodes.now ≡ true) }
{
    for node in nodes {
        if !marks[*node as usize] {
            return Some(*node as usize);
        }
    }
    None
}

/// The place of a number in a list that has it.
fn place_of(numbers: &[usize], number: usize) -> usize
    requires { has numbers.now number ≡ true }
    ensures within { result < length numbers.now }
    ensures at { slice_index numbers.now result ≡ number }
{
    for (place, found) in numbers.iter().enumerate() {
        if *found == number {
            return place;
        }
    }
    unreachable!()
}

/// The place of the least number.
fn place_of_least(numbers: &[usize]) -> usize
    requires { 0 < length numbers.now }
    ensures within { result < length numbers.now }
    ensures least { list_all (nat_le (slice_index numbers.now result)) numbers.now ≡ true }
{
    let mut least = 0;
    for (place, number) in numbers.iter().enumerate() {
        if *number < numbers[least] {
            least = place;
        }
    }
    least
}

/// Walks from a node without a mark to prerequisites without one until a node comes again. What was walked from there
/// on is a ring.
fn walk(
    alloc: Global,
    edges: &Edges,
    marks: &[bool],
    start: usize,
) -> Result<Vec<usize>, AllocError>
    requires closed { IsTrue (is_closed edges.now) }
    requires marks { length marks.now ≡ length edges.now }
    requires start { start < length edges.now }
    requires unmarked { slice_index_or marks.now start false ≡ false }
    requires onward { (q : ℕ) → q < length edges.now → slice_index_or marks.now q false ≡ false
        → list_all (λ n. slice_index_or marks.now n false) (row edges.now q) ≡ false }
    ensures ring { IfOk result (λ ring. IsRing edges.now ring.items) }
    ensures once { IfOk result (λ ring. IsDistinct nat_eq ring.items) }
{
    let mut fresh = vec![in alloc; true; edges.len()]?;
    let mut path = Vec::new(alloc);
    let mut at = start;
    while fresh[at] {
        fresh[at] = false;
        path.push(at)?;
        let Some(next) = unmarked_of(edges.row(at), marks) else {
            unreachable!()
        };
        at = next;
    }
    let again = place_of(&path, at);
    let (_before, ring) = path.as_slice().split_at(again);
    Vec::from_slice(alloc, ring)
}

/// A ring as a cycle: from its least node on and back to it.
fn from_least(alloc: Global, ring: &[usize]) -> Result<Vec<usize>, AllocError>
    requires { 0 < length ring.now }
    ensures { IfOk result (λ cycle. (front : List ℕ) × (least : ℕ) × (behind : List ℕ)
        × (ring.now ≡ front ++ least ∷ behind) × (list_all (nat_le least) ring.now ≡ true)
        × (cycle.items ≡ least ∷ ((behind ++ front) ++ least ∷ []))) }
{
    let place = place_of_least(ring);
    let (front, behind) = ring.split_at(place);
    let mut cycle = Vec::with_capacity(alloc, ring.len() + 1)?;
    cycle.extend_from_slice(behind)?;
    cycle.extend_from_slice(front)?;
    cycle.push(ring[place])?;
    Ok(cycle)
}

/// A cycle of a graph whose plan leaves out nodes.
fn cycle_beside(alloc: Global, edges: &Edges, order: &[usize]) -> Result<Vec<usize>, AllocError>
    requires closed { IsTrue (is_closed edges.now) }
    requires plan { IsPlan edges.now order.now }
    requires once { IsDistinct nat_eq order.now }
    requires nodes { list_all (λ n. nat_lt n (length edges.now)) order.now ≡ true }
    requires left { length order.now ≢ length edges.now }
    ensures { IfOk result (λ cycle. IsCycle edges.now cycle.items) }
{
    let passed = marks(alloc, edges.len(), order)?;
    let Some(start) = first_unmarked(&passed) else {
        unreachable!()
    };
    let ring = walk(alloc, edges, &passed, start)?;
    from_least(alloc, &ring)
}

/// What orders the nodes of a graph.
#[derive(Drop)]
pub enum Order {
    /// Their plan. The graph has no cycle, so each node is there.
    Plan(Vec<usize>),
    /// A cycle, round which there is no order: from its least node on and back to it, each node followed by one of its
    /// prerequisites.
    Cycle(Vec<usize>),
}

/// The plan of a graph, or a cycle where it has one. Of several cycles any may be given.
pub fn order_nodes(alloc: Global, edges: &Edges) -> Result<Order, AllocError>
    requires { IsTrue (is_closed edges.now) }
    ensures { IfOk result (IsOrder edges.now) }
{
    let none = edges.blank(alloc)?;
    order_both(alloc, edges, &none)
}

/// The same of the graph that has the rows of two together.
pub(crate) fn order_both(alloc: Global, first: &Edges, second: &Edges) -> Result<Order, AllocError>
    requires nodes { length second.now ≡ length first.now }
    requires closed { IsTrue (is_closed (joined first.now second.now)) }
    ensures { IfOk result (IsOrder (joined first.now second.now)) }
{
    let order = plan_both(alloc, first, second)?;
    if order.len() == first.len() {
        return Ok(Order::Plan(order));
    }
    let edges = Edges::joined(alloc, first, second)?;
    Ok(Order::Cycle(cycle_beside(alloc, &edges, &order)?))
}
