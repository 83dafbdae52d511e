//! Lists of nodes, one for each node: no node stands in two of them, or twice.

ghost use Rattle.std.specs.Prelude.{◌≡◌, ◌≢◌, ℕ, ◌<◌, [], ◌∷◌, false, length, IfOk, IfSome, IfNone};
ghost use Rattle.mk_graph.specs.Edges.{row, has};

use std::alloc::{AllocError, Global};
use std::marker::Model;

/// Lists linked through two vectors. Nodes are counted from 1 there, so that 0 says that there is none.
pub struct NodeLists {
    /// The first node of each list.
    heads: Vec<u32>,
    /// The node behind each.
    next: Vec<u32>,
}

impl Model for NodeLists {
    ghost use Rattle.std.specs.Prelude.{ℕ, List};
    ghost use Rattle.mk_graph.specs.NodeLists.{lists_of, AreLists};

    ghost Value = { List (List ℕ) };

    ghost view = { λ l. lists_of l.heads.items l.next.items };

    ghost invariant = { λ l. AreLists l.heads.items l.next.items };
}

impl Drop for NodeLists {
    fn drop(self) {
        let NodeLists { heads: _, next: _ } = self;
    }
}

impl NodeLists {
    /// Empty lists of so many nodes. There is no memory for 2^32 or more.
    pub fn new(alloc: Global, nodes: usize) -> Result<NodeLists, AllocError>
        ensures nodes { IfOk result (λ l. length l ≡ nodes) }
        ensures empty { IfOk result (λ l. (p : ℕ) → row l p ≡ []) }
    {
        if nodes > u32::MAX as usize {
            return Err(AllocError);
        }
        Ok(NodeLists {
            heads: Vec::from_elem(alloc, 0, nodes)?,
            next: Vec::from_elem(alloc, 0, nodes)?,
        })
    }

    /// Puts a node that stands in no list in front of that of another.
    pub fn put_first(&mut self, node: usize, list: usize)
        requires node { node < length self.old }
        requires list { list < length self.old }
        requires free { (p : ℕ) → has (row self.old p) node ≡ false }
        ensures nodes { length self.new ≡ length self.old }
        ensures there { row self.new list ≡ node ∷ row self.old list }
        ensures elsewhere { (p : ℕ) → p ≢ list → row self.new p ≡ row self.old p }
    {
        self.next[node] = self.heads[list];
        self.heads[list] = node as u32 + 1;
    }

    /// Takes out the first node of a list.
    pub fn take_first(&mut self, list: usize) -> Option<usize>
        requires { list < length self.old }
        ensures nodes { length self.new ≡ length self.old }
        ensures some { IfSome result (λ n. row self.old list ≡ n ∷ row self.new list) }
        ensures free { IfSome result (λ n. (p : ℕ) → has (row self.new p) n ≡ false) }
        ensures elsewhere { (p : ℕ) → p ≢ list → row self.new p ≡ row self.old p }
        ensures none { IfNone result (row self.old list ≡ []) }
        ensures empty { IfNone result (row self.new list ≡ []) }
    {
        let head = self.heads[list];
        if head == 0 {
            return None;
        }
        let node = (head - 1) as usize;
        self.heads[list] = self.next[node];
        Some(node)
    }
}
