//! Where the nodes of a graph stand, and how they ended.

ghost use Rattle.std.specs.Prelude.{◌≡◌, ℕ, ◌+◌, ◌<◌, ◌≤◌, true, MatchOption, IfOk, None, nat_eq, length, replicate, slice_get, slice_index};
ghost use Rattle.mk_graph.specs.Edges.{row, times};
ghost use Rattle.bd_places.specs.Placed.{first_placed, nodes_of, waits_in, placed_in, placed_joined, IsUnderWay, IsOpen};
ghost use Rattle.bd_places.specs.Settling.{end_of, is_under_way, Settles, IsStanding};
ghost use Rattle.bd_links.specs.SixLists.{all_waiting, split_by, StandsIn};

use crate::tally::Tally;
use crate::{End, settling};
use bd_links::{Links, Node, Stand};
use mk_graph::Edges;
use std::alloc::{AllocError, Global};
use std::marker::Model;

/// The lists, and what is kept beside them to settle nodes. No call takes memory.
#[derive(Debug)]
pub struct Places {
    tally: Tally,
    links: Links,
    ends: Vec<Option<End>>,
}

impl Model for Places {
    ghost use Rattle.bd_places.specs.Placed.{Placed};

    ghost Value = { Placed };

    ghost use Rattle.bd_places.specs.Places.{placed_of, ArePlaces};

    ghost view = { placed_of };

    ghost invariant = { ArePlaces };
}

impl Drop for Places {
    fn drop(self) {
        let Places {
            tally: _,
            links: _,
            ends: _,
        } = self;
    }
}

fn no_ends(alloc: Global, nodes: usize) -> Result<Vec<Option<End>>, AllocError>
    ensures { IfOk result (λ v. v.items ≡ replicate nodes None) }
{
    Ok(vec![in alloc; None; nodes]?)
}

/// Puts the nodes that lack nothing into Ready, in number order.
fn ready_first(missing: &[usize], links: &mut Links)
    requires nodes { length missing.now ≡ links.old.nodes }
    requires waiting { links.old.lists ≡ all_waiting links.old.nodes }
    ensures { links.new ≡ record links.old { lists = split_by (λ n. nat_eq (slice_index missing.now n) 0) links.old.nodes } }
{
    for (node, lacks) in missing.iter().enumerate() {
        if *lacks == 0 {
            links.move_to(Node::new(node), Stand::Ready);
        }
    }
}

impl Places {
    /// The nodes that wait for nothing in Ready, the others in Waiting.
    pub fn new(alloc: Global, counted: Edges, hard: Edges) -> Result<Places, AllocError>
        requires nodes { length hard ≡ length counted }
        requires once { (u n : ℕ) → times n (row counted u) ≤ 1 }
        requires room { length counted + 6 ≤ usize.MAX }
        ensures { IfOk result (λ p. p ≡ first_placed (record { counted = counted; hard = hard })) }
    {
        let nodes = counted.len();
        let mut links = Links::new(alloc, nodes)?;
        let tally = Tally::new(alloc, counted, hard)?;
        let ends = no_ends(alloc, nodes)?;
        ready_first(&tally.missing, &mut links);
        Ok(Places { tally, links, ends })
    }

    /// The number of nodes.
    pub(crate) fn len(&self) -> usize
        ensures nodes { result ≡ nodes_of self.now }
        ensures standing { IsStanding self.now.prerequisites (nodes_of self.now) self.now.standing }
    {
        self.tally.counted.len()
    }

    /// The front of Ready.
    pub fn front(&self) -> Option<Node>
        ensures front { result ≡ slice_get self.now.standing.lists.ready 0 }
        ensures standing { IsStanding self.now.prerequisites (nodes_of self.now) self.now.standing }
    {
        self.links.front(Stand::Ready)
    }

    /// Whether Waiting or Ready holds a node.
    pub fn waits(&self) -> bool
        ensures { result ≡ waits_in self.now.standing.lists }
    {
        self.links.front(Stand::Waiting).is_some() || self.links.front(Stand::Ready).is_some()
    }

    /// The list of a node, if there is such a node.
    pub fn stand(&self, node: Node) -> Option<Stand>
        ensures stand { MatchOption result (nodes_of self.now ≤ node) (λ s. (node < nodes_of self.now) × StandsIn self.now.standing.lists node s) }
        ensures standing { IsStanding self.now.prerequisites (nodes_of self.now) self.now.standing }
    {
        (node.number() < self.len()).then(|| self.links.list_of(node))
    }

    /// How a node ended, if it has.
    pub fn end(&self, node: Node) -> Option<End>
        ensures { result ≡ end_of self.now.standing node }
    {
        self.ends.get(node.number()).copied().flatten()
    }

    /// Puts a node under way at the end of a list of such nodes.
    pub fn put(&mut self, node: Node, to: Stand)
        requires stands { IsUnderWay self.old.standing.lists node }
        requires to { is_under_way to ≡ true }
        ensures placed { self.new ≡ placed_in node to self.old }
        ensures standing { IsStanding self.old.prerequisites (nodes_of self.old) self.old.standing }
    {
        self.links.move_to(node, to);
    }

    /// Joins all of Unflushed to the end of Flushing.
    pub fn join(&mut self)
        requires { self.old.joins < usize.MAX }
        ensures { self.new ≡ placed_joined self.old }
    {
        self.links.join();
    }

    /// Settles a node, and with it what it frees and can't be made.
    pub fn settle(&mut self, node: Node, end: End)
        requires { IsOpen self.old.standing.lists node }
        ensures rest { self.new ≡ record self.old { standing = self.new.standing } }
        ensures settles { Settles self.old.prerequisites node end self.old.standing self.new.standing }
        ensures standing { IsStanding self.old.prerequisites (nodes_of self.old) self.old.standing }
    {
        settling::settle(&mut self.tally, &mut self.links, &mut self.ends, node, end);
    }
}
