//! The six lists, linked by number.

ghost use Rattle.std.specs.Prelude.{◌≡◌, ℕ, ◌+◌, ◌<◌, ◌≤◌, ◌∷◌, ◌++◌, List, IfOk, map, replicate, Some, None, nat_lt, slice_get, if◌then◌else◌};
ghost use Rattle.bd_links.specs.SixLists.{list_in, code, moved, joined, all_waiting, StandsIn, IsEachOnce};
ghost use Rattle.bd_links.specs.Linked.{next_at_first, prev_at_first};
ghost use Rattle.std.specs.List.{range_with_len};
ghost use Rattle.bd_links.specs.declared.stand.Stand.{Stand};
ghost use Rattle.bd_links.specs.declared.stand.Stand.TheVariants.{Waiting};

use crate::mark::{Mark, stand_of};
use crate::ring::Ring;
use crate::{Node, Stand};
use std::alloc::{AllocError, Global};
use std::marker::Model;

/// For each node the one behind it, the one before it and the list that it is in. A list is a ring of its nodes and of a
/// place of its own, its anchor, which has its first node behind it and its last one before it. No call takes memory.
#[derive(Debug)]
pub struct Links {
    nodes: usize,
    joins: usize,
    ring: Ring,
    marks: Vec<Mark>,
}

impl Model for Links {
    ghost use Rattle.bd_links.specs.Linked.{Linked};

    ghost Value = { Linked };

    ghost use Rattle.bd_links.specs.Links.{linked_of, AreLinks};

    ghost view = { linked_of };

    ghost invariant = { AreLinks };
}

impl Drop for Links {
    fn drop(self) {
        let Links {
            nodes: _,
            joins: _,
            ring: _,
            marks: _,
        } = self;
    }
}

/// The place of a list in its ring.
fn anchor(nodes: usize, list: Stand) -> usize
    requires { nodes + 6 ≤ usize.MAX }
    ensures { result ≡ nodes + code list }
{
    match list {
        Stand::Waiting => nodes,
        Stand::Ready => nodes + 1,
        Stand::Running => nodes + 2,
        Stand::Unflushed => nodes + 3,
        Stand::Flushing => nodes + 4,
        Stand::Settled => nodes + 5,
    }
}

/// The node at a place, if one is there.
fn node_at(place: usize, nodes: usize) -> Option<Node>
    ensures { result ≡ (if nat_lt place nodes then Some place else None) }
{
    (place < nodes).then(|| Node::new(place))
}

/// The place behind a place where Waiting has all nodes in number order and the other lists are empty.
fn first_next(nodes: usize, place: usize) -> usize
    requires { place < nodes + 6 }
    ensures { result ≡ next_at_first nodes place }
{
    if place < nodes {
        place + 1
    } else if place == nodes {
        0
    } else {
        place
    }
}

/// The place before a place, then.
fn first_prev(nodes: usize, place: usize) -> usize
    requires { place < nodes + 6 }
    ensures { result ≡ prev_at_first nodes place }
{
    if place == 0 {
        nodes
    } else if place <= nodes {
        place - 1
    } else {
        place
    }
}

fn first_nexts(alloc: Global, nodes: usize) -> Result<Vec<usize>, AllocError>
    requires { nodes + 6 ≤ usize.MAX }
    ensures { IfOk result (λ v. v.items ≡ map (next_at_first nodes) (range_with_len 0 (nodes + 6))) }
{
    (0..nodes + 6)
        .map(|place| first_next(nodes, place))
        .collect(alloc)
}

fn first_prevs(alloc: Global, nodes: usize) -> Result<Vec<usize>, AllocError>
    requires { nodes + 6 ≤ usize.MAX }
    ensures { IfOk result (λ v. v.items ≡ map (prev_at_first nodes) (range_with_len 0 (nodes + 6))) }
{
    (0..nodes + 6)
        .map(|place| first_prev(nodes, place))
        .collect(alloc)
}

fn first_marks(alloc: Global, nodes: usize) -> Result<Vec<Mark>, AllocError>
    ensures { IfOk result (λ v. v.items ≡ replicate nodes (record { stand = Waiting; joins = 0 })) }
{
    let mark = Mark {
        stand: Stand::Waiting,
        joins: 0,
    };
    Ok(vec![in alloc; mark; nodes]?)
}

impl Links {
    /// All nodes in Waiting, in number order.
    pub fn new(alloc: Global, nodes: usize) -> Result<Links, AllocError>
        requires { nodes + 6 ≤ usize.MAX }
        ensures { IfOk result (λ l. l ≡ record { nodes = nodes; joins = 0; lists = all_waiting nodes }) }
    {
        Ok(Links {
            nodes,
            joins: 0,
            ring: Ring {
                next: first_nexts(alloc, nodes)?,
                prev: first_prevs(alloc, nodes)?,
            },
            marks: first_marks(alloc, nodes)?,
        })
    }

    /// The first node of a list.
    pub fn front(&self, list: Stand) -> Option<Node>
        ensures front { result ≡ slice_get (list_in self.now.lists list) 0 }
        ensures each_once { IsEachOnce self.now.nodes self.now.lists }
    {
        node_at(self.ring.next(anchor(self.nodes, list)), self.nodes)
    }

    /// The node behind another in its list.
    pub fn after(&self, node: Node) -> Option<Node>
        requires { node < self.now.nodes }
        ensures { (s : Stand) (k : ℕ) → slice_get (list_in self.now.lists s) k ≡ Some node
            → result ≡ slice_get (list_in self.now.lists s) (k + 1) }
    {
        node_at(self.ring.next(node.number()), self.nodes)
    }

    /// The list that a node is in.
    pub fn list_of(&self, node: Node) -> Stand
        requires { node < self.now.nodes }
        ensures { StandsIn self.now.lists node result }
    {
        stand_of(self.marks[node.number()], self.joins)
    }

    /// Takes a node out of its list and puts it at the end of another.
    pub fn move_to(&mut self, node: Node, list: Stand)
        requires { node < self.old.nodes }
        ensures { self.new ≡ record self.old { lists = moved node list self.old.lists } }
    {
        let place = node.number();
        let end = anchor(self.nodes, list);
        self.ring.unlink(place);
        self.ring.splice(end, place);
        self.marks[place] = Mark {
            stand: list,
            joins: self.joins,
        };
    }

    /// Joins all of Unflushed to the end of Flushing.
    pub fn join(&mut self)
        requires { self.old.joins < usize.MAX }
        ensures { self.new ≡ record self.old { joins = self.old.joins + 1; lists = joined self.old.lists } }
    {
        let from = anchor(self.nodes, Stand::Unflushed);
        let end = anchor(self.nodes, Stand::Flushing);
        let first = self.ring.next(from);
        self.ring.splice(end, first);
        self.ring.unlink(from);
        self.joins += 1;
    }
}
