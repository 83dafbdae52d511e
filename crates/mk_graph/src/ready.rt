//! The nodes that can be passed next, below a number.

ghost use Rattle.std.specs.Prelude.{◌≡◌, ℕ, ◌<◌, ◌&&◌, ◌||◌, true, false, not, nat_eq, IfSome, IfNone, OnOk};
ghost use Rattle.mk_graph.specs.Ready.{is_in};

use std::alloc::{AllocError, Global};
use std::collections::BTreeSet;
use std::marker::Model;

/// Nodes that can be passed next. The least one is held beside the set of the others: where there is one at a time, as in
/// most graphs, the set stays empty.
pub struct ReadyNodes {
    least: Option<usize>,
    others: BTreeSet<usize>,
}

impl Model for ReadyNodes {
    ghost use Rattle.std.specs.Prelude.{ℕ, Option};
    ghost use Rattle.std.specs.BTreeSet.{BTreeSet};
    ghost use Rattle.mk_graph.specs.Ready.{IsLeastHeld};

    ghost Value = { Option ℕ × BTreeSet ℕ };

    ghost view = { λ r. (r.least, r.others) };

    ghost invariant = { λ r. IsLeastHeld r.least r.others };
}

impl Drop for ReadyNodes {
    fn drop(self) {
        let ReadyNodes {
            least: _,
            others: _,
        } = self;
    }
}

impl ReadyNodes {
    /// No nodes.
    pub fn new(alloc: Global) -> ReadyNodes
        ensures { (n : ℕ) → is_in result n ≡ false }
    {
        ReadyNodes {
            least: None,
            others: BTreeSet::new(alloc),
        }
    }

    /// Adds a node.
    pub fn insert(&mut self, node: usize) -> Result<(), AllocError>
        ensures { OnOk result ((n : ℕ) → is_in self.new n ≡ (is_in self.old n || nat_eq n node)) }
    {
        let Some(least) = self.least else {
            self.least = Some(node);
            return Ok(());
        };
        if node < least {
            self.others.insert(least)?;
            self.least = Some(node);
        } else if node > least {
            self.others.insert(node)?;
        }
        Ok(())
    }

    /// Takes out the least node.
    pub fn pop_first(&mut self) -> Option<usize>
        ensures some { IfSome result (λ n. is_in self.old n ≡ true) }
        ensures least { IfSome result (λ n. (m : ℕ) → m < n → is_in self.old m ≡ false) }
        ensures others { IfSome result (λ n. (m : ℕ) → is_in self.new m ≡ (is_in self.old m && not (nat_eq m n))) }
        ensures none { IfNone result ((m : ℕ) → is_in self.old m ≡ false) }
        ensures unchanged { IfNone result ((m : ℕ) → is_in self.new m ≡ false) }
    {
        let least = self.least?;
        self.least = self.others.pop_first();
        Some(least)
    }
}
