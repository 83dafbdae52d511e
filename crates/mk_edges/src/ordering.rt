//! What orders the names of a graph.
ghost use Rattle.std.specs.Prelude.{◌≡◌, true, length, map, nat_lt, unwrap_or, IfOk, IfErr, IsTrue};
ghost use Rattle.std.specs.List.{list_all};
ghost use Rattle.mk_graph.specs.Counted.{counting, IsDropped};
ghost use Rattle.mk_graph.specs.Cycle.{HasCycle};
ghost use Rattle.mk_graph.specs.Edges.{is_closed};
ghost use Rattle.mk_names.specs.Names.{name_at};
ghost use Rattle.mk_graph.specs.Plan.{IsPlan};
ghost use Rattle.mk_edges.specs.Ordering.{IsCycleFault};

use byte_strings::ByteStrings;
use mk_graph::{CountedOrder, Edges, Order, counted_order};
use mk_names::Names;
use mk_rule_lines::{CycleNames, RuleFault};
use std::alloc::{AllocError, Global};

/// The edges of a graph and the order that they make.
#[derive(Drop)]
pub struct Ordered {
    pub hard: Edges,
    pub required: Option<Edges>,
    pub soft: Edges,
    pub order: Vec<usize>,
    pub soft_dropped: bool,
}

/// The names of a cycle's nodes.
fn cycle_names(alloc: Global, names: &Names, cycle: &[usize]) -> Result<CycleNames, AllocError>
    requires { list_all (λ n. nat_lt n (length names.now)) cycle.now ≡ true }
    ensures { IfOk result (λ told. told.names ≡ map (name_at names.now) cycle.now) }
{
    let mut list = ByteStrings::empty(alloc);
    for node in cycle {
        list.push(names.name(*node))?;
    }
    Ok(CycleNames { names: list })
}

/// These edges, or the hard ones where there are none.
fn required_or<'e>(required: &'e Option<Edges>, hard: &'e Edges) -> &'e Edges
    ensures { result.now ≡ unwrap_or required.now hard.now }
{
    match required {
        Some(edges) => edges,
        None => hard,
    }
}

/// The order by these edges, or the cycle of hard and order-only ones as a fault.
pub fn ordered_by(
    alloc: Global,
    names: &Names,
    hard: Edges,
    required: Option<Edges>,
    soft: Edges,
) -> Result<Ordered, RuleFault>
    requires required_count { length (unwrap_or required hard) ≡ length names.now }
    requires soft_count { length soft ≡ length names.now }
    requires required_closed { IsTrue (is_closed (unwrap_or required hard)) }
    requires soft_closed { IsTrue (is_closed soft) }
    ensures hard { IfOk result (λ ordered. ordered.hard ≡ hard) }
    ensures required { IfOk result (λ ordered. ordered.required ≡ required) }
    ensures soft { IfOk result (λ ordered. ordered.soft ≡ soft) }
    ensures dropped { IfOk result (λ ordered. IsDropped (unwrap_or required hard) soft ordered.soft_dropped) }
    ensures acyclic { IfOk result (λ _. HasCycle (unwrap_or required hard) → ⊥) }
    ensures order { IfOk result (λ ordered. IsPlan (counting (unwrap_or required hard) soft ordered.soft_dropped) ordered.order.items) }
    ensures fault { IfErr result (IsCycleFault (unwrap_or required hard) names.now) }
{
    let CountedOrder { dropped, order } = counted_order(
        alloc,
        required_or(&required, &hard),
        &soft,
    )?;
    match order {
        Order::Cycle(cycle) => Err(RuleFault::Cycle(cycle_names(alloc, names, &cycle)?)),
        Order::Plan(order) => Ok(Ordered {
            hard,
            required,
            soft,
            order,
            soft_dropped: dropped,
        }),
    }
}
