//! Nodes one behind the other: depth first, in the order in which they are named.

ghost use Rattle.std.specs.Prelude.{◌≡◌, ◌<◌, ◌++◌, ℕ, List, length, nat_lt, true, false, IfOk, IsTrue};
ghost use Rattle.std.specs.List.{list_all};
ghost use Rattle.mk_graph.specs.Edges.{row, is_closed};
ghost use Rattle.jb_order.specs.InOrder.{HasAlso};

use mk_graph::Edges;
use std::alloc::{AllocError, Global};

/// What the nodes wait for: the prerequisites without which they aren't made, and soft ones where these count.
#[derive(Clone, Copy)]
struct Waited<'e> {
    pub required: &'e Edges,
    pub soft: Option<&'e Edges>,
}

/// A node whose prerequisites are gone through, and how many of them were.
#[derive(Clone, Copy)]
struct Step {
    node: u32,
    gone_to: usize,
}

/// A walk through nodes, each behind all that it waits for.
#[derive(Drop)]
struct Walk {
    seen: Vec<bool>,
    steps: Vec<Step>,
    order: Vec<u32>,
}

/// The row of a node; none of a number that is no node's.
fn row_in(edges: &Edges, node: u32) -> &[u32] {
    let node = node as usize;
    if node >= edges.len() {
        return &[];
    }
    edges.row(node)
}

/// What a node waits for next, in the order in which it is named.
fn prerequisite(waited: Waited<'_>, step: Step) -> Option<u32> {
    let required = row_in(waited.required, step.node);
    if step.gone_to < required.len() {
        return Some(required[step.gone_to]);
    }
    match waited.soft {
        Some(soft) => row_in(soft, step.node)
            .get(step.gone_to - required.len())
            .copied(),
        None => None,
    }
}

impl Walk {
    fn of(alloc: Global, nodes: usize) -> Result<Walk, AllocError> {
        Ok(Walk {
            seen: vec![in alloc; false; nodes]?,
            steps: Vec::new(alloc),
            order: Vec::with_capacity(alloc, nodes)?,
        })
    }

    fn enter(&mut self, node: u32) -> Result<(), AllocError> {
        let place = node as usize;
        if place < self.seen.len() && !self.seen[place] {
            self.seen[place] = true;
            self.steps.push(Step { node, gone_to: 0 })?;
        }
        Ok(())
    }

    /// Goes through all that a node waits for, and then the node.
    fn go_to(&mut self, waited: Waited<'_>, node: u32) -> Result<(), AllocError> {
        self.enter(node)?;
        for _ in 0..u64::MAX {
            let Some(step) = self.steps.pop() else {
                break;
            };
            match prerequisite(waited, step) {
                Some(number) => {
                    let gone_to = step.gone_to.saturating_add(1);
                    self.steps.push(Step {
                        node: step.node,
                        gone_to,
                    })?;
                    self.enter(number)?;
                }
                None => self.order.push(step.node)?,
            }
        }
        Ok(())
    }
}

/// The nodes that the goals lead to.
fn depth_first(alloc: Global, waited: Waited<'_>, goals: &[usize]) -> Result<Vec<u32>, AllocError> {
    let mut walk = Walk::of(alloc, waited.required.len())?;
    for goal in goals {
        if let Ok(goal) = u32::try_from(*goal) {
            walk.go_to(waited, goal)?;
        }
    }
    let Walk {
        seen: _,
        steps: _,
        order,
    } = walk;
    Ok(order)
}

/// Of each node the one that stands before it in the order.
fn ones_before(alloc: Global, nodes: usize, order: &[u32]) -> Result<Vec<Option<u32>>, AllocError> {
    let mut before = vec![in alloc; None; nodes]?;
    let mut last = None;
    for node in order {
        let place = *node as usize;
        if place < before.len() {
            before[place] = last;
        }
        last = Some(*node);
    }
    Ok(before)
}

/// The soft edges of a node where they count, and one to the node before it.
fn row_behind(
    alloc: Global,
    soft: &Edges,
    dropped: bool,
    node: usize,
    before: Option<u32>,
) -> Result<Vec<u32>, AllocError>
    requires node { node < length soft.now }
    requires closed { IsTrue (is_closed soft.now) }
    ensures soft { IfOk result (λ waits. dropped ≡ false → (further : List ℕ) × (waits.items ≡ row soft.now node ++ further)) }
    ensures closed { IfOk result (λ waits. list_all (λ n. nat_lt n (length soft.now)) waits.items ≡ true) }
{
    let mut waits = Vec::new(alloc);
    if !dropped {
        waits.extend_from_slice(soft.row(node))?;
    }
    if let Some(before) = before {
        if (before as usize) < soft.len() {
            waits.push(before)?;
        }
    }
    Ok(waits)
}

/// Of each node the edge to the one before it, behind its soft edges where these count.
fn edges_behind(
    alloc: Global,
    soft: &Edges,
    dropped: bool,
    before: &[Option<u32>],
) -> Result<Edges, AllocError>
    requires closed { IsTrue (is_closed soft.now) }
    ensures nodes { IfOk result (λ more. length more ≡ length soft.now) }
    ensures also { IfOk result (λ more. dropped ≡ false → HasAlso soft.now more) }
    ensures closed { IfOk result (λ more. IsTrue (is_closed more)) }
{
    let mut more = Edges::with_capacity(alloc, soft.len())?;
    for node in 0..soft.len() {
        let one_before = before.get(node).copied().flatten();
        let waits = row_behind(alloc, soft, dropped, node, one_before)?;
        more.push_row(&waits)?;
    }
    Ok(more)
}

/// The soft edges where they count, and from each node one to the node before it, where the goals are gone through depth first.
pub fn edges_in_order(
    alloc: Global,
    required: &Edges,
    soft: &Edges,
    dropped: bool,
    goals: &[usize],
) -> Result<Edges, AllocError>
    requires closed { IsTrue (is_closed soft.now) }
    ensures nodes { IfOk result (λ more. length more ≡ length soft.now) }
    ensures also { IfOk result (λ more. dropped ≡ false → HasAlso soft.now more) }
    ensures closed { IfOk result (λ more. IsTrue (is_closed more)) }
{
    let waited = Waited {
        required,
        soft: if dropped { None } else { Some(soft) },
    };
    let order = depth_first(alloc, waited, goals)?;
    let before = ones_before(alloc, soft.len(), &order)?;
    edges_behind(alloc, soft, dropped, &before)
}
