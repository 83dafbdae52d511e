//! What nodes still lack.

ghost use Rattle.std.specs.Prelude.{◌≡◌, ℕ, ◌+◌, ◌<◌, ◌≤◌, ◌++◌, ◌∷◌, [], ◌||◌, List, Option, length, slice_index, slice_index_or, take, slice_get, true, false, None, Some, IfOk, map, replicate};
ghost use Rattle.std.specs.List.{range_with_len};
ghost use Rattle.mk_graph.specs.Edges.{row, has, times};
ghost use Rattle.bd_places.specs.Settling.{is_lost};
ghost use Rattle.bd_links.specs.SixLists.{IsEachOnce};
ghost use Rattle.bd_places.specs.declared.end.End.{End};

use crate::End;
use bd_links::{Links, Node};
use mk_graph::Edges;
use std::alloc::{AllocError, Global};

/// The prerequisites of the nodes, and what each node still lacks of them.
#[derive(Debug)]
pub(crate) struct Tally {
    /// Those that a node waits for, each once.
    pub(crate) counted: Edges,
    /// Those without which it can't be made.
    pub(crate) hard: Edges,
    pub(crate) users: Edges,
    pub(crate) hard_users: Edges,
    /// How many of those that a node waits for haven't settled.
    pub(crate) missing: Vec<usize>,
    /// Whether a node can't be made.
    pub(crate) doomed: Vec<bool>,
}

impl Drop for Tally {
    fn drop(self) {
        let Tally {
            counted: _,
            hard: _,
            users: _,
            hard_users: _,
            missing: _,
            doomed: _,
        } = self;
    }
}

/// Counts each of the users down.
fn count_down(users: &[u32], missing: &mut [usize])
    requires { (u : ℕ) → times u users.now ≤ slice_index missing.old u }
    ensures { (u : ℕ) → slice_index missing.new u + times u users.now ≡ slice_index missing.old u }
{
    for user in users {
        missing[*user as usize] -= 1;
    }
}

/// Notes that the users can't be made.
fn doom(users: &[u32], doomed: &mut [bool])
    requires { (u : ℕ) → has users.now u ≡ true → u < length doomed.old }
    ensures { (u : ℕ) → slice_index_or doomed.new u false ≡ (slice_index_or doomed.old u false || has users.now u) }
{
    for user in users {
        doomed[*user as usize] = true;
    }
}

/// Whether what can't be made without a node that ended so can't be made.
pub(crate) fn is_lost(end: Option<End>) -> bool
    ensures { result ≡ is_lost end }
{
    match end {
        Some(End::Failed(_)) | Some(End::Abandoned) => true,
        Some(End::UpToDate) | Some(End::Remade) | Some(End::Built) | None => false,
    }
}

/// How many numbers each row has.
fn row_lengths(alloc: Global, edges: &Edges) -> Result<Vec<usize>, AllocError>
    ensures { IfOk result (λ v. v.items ≡ map (λ n. length (row edges.now n)) (range_with_len 0 (length edges.now))) }
{
    (0..edges.len())
        .map(|node| edges.row(node).len())
        .collect(alloc)
}

fn none_doomed(alloc: Global, nodes: usize) -> Result<Vec<bool>, AllocError>
    ensures { IfOk result (λ v. v.items ≡ replicate nodes false) }
{
    Ok(vec![in alloc; false; nodes]?)
}

impl Tally {
    ghost use Rattle.bd_places.specs.Tally.{IsTallied, prerequisites_of};

    /// No node has settled yet.
    pub(crate) fn new(alloc: Global, counted: Edges, hard: Edges) -> Result<Tally, AllocError>
        requires nodes { length hard ≡ length counted }
        requires once { (u n : ℕ) → times n (row counted u) ≤ 1 }
        ensures edges { IfOk result (λ t. prerequisites_of t ≡ record { counted = counted; hard = hard }) }
        ensures tallied { IfOk result (λ t. (ends : List (Option End)) → IsTallied t [] ends) }
    {
        let users = counted.reversed(alloc)?;
        let hard_users = hard.reversed(alloc)?;
        let missing = row_lengths(alloc, &counted)?;
        let doomed = none_doomed(alloc, counted.len())?;
        Ok(Tally {
            counted,
            hard,
            users,
            hard_users,
            missing,
            doomed,
        })
    }

    /// Counts one more node as settled.
    pub(crate) fn count(&mut self, node: Node, end: Option<End>)
        requires node { node < length self.old.counted }
        requires tallied { (settled : List ℕ) × (ends : List (Option End)) × IsTallied self.old settled ends × (has settled node ≡ false) }
        ensures edges { prerequisites_of self.new ≡ prerequisites_of self.old }
        ensures tallied { (settled : List ℕ) (ends : List (Option End)) → IsTallied self.old settled ends → has settled node ≡ false
            → slice_index_or ends node None ≡ end → IsTallied self.new (settled ++ node ∷ []) ends }
    {
        count_down(self.users.row(node.number()), &mut self.missing);
        if is_lost(end) {
            doom(self.hard_users.row(node.number()), &mut self.doomed);
        }
    }

    /// Counts those behind a node in Settled that was counted last. Answers the last of Settled.
    pub(crate) fn count_behind(
        &mut self,
        links: &Links,
        ends: &[Option<End>],
        mut last: Node,
    ) -> Node
        requires nodes { links.now.nodes ≡ length self.old.counted }
        requires ends { length ends.now ≡ links.now.nodes }
        requires each_once { IsEachOnce links.now.nodes links.now.lists }
        requires tallied { (k : ℕ) × (slice_get links.now.lists.settled k ≡ Some last)
            × IsTallied self.old (take (k + 1) links.now.lists.settled) ends.now }
        ensures edges { prerequisites_of self.new ≡ prerequisites_of self.old }
        ensures tallied { IsTallied self.new links.now.lists.settled ends.now }
        ensures last { (k : ℕ) × (slice_get links.now.lists.settled k ≡ Some result) × (k + 1 ≡ length links.now.lists.settled) }
    {
        while let Some(node) = links.after(last) {
            self.count(node, ends[node.number()]);
            last = node;
        }
        last
    }
}
