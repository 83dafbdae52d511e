//! Nodes by number.

ghost use Rattle.std.specs.Prelude.{◌≡◌};

use std::marker::Model;

/// A node of the graph, by its number. Contracts see the number.
#[derive(Clone, Copy, Debug, PartialEq, Eq)]
pub struct Node {
    number: usize,
}

impl Model for Node {
    ghost use Rattle.std.specs.Prelude.{ℕ};

    ghost Value = { ℕ };

    ghost view = { λ n. n.number };

    ghost inverse = { λ n. record { number = n } };
}

impl Node {
    pub fn new(number: usize) -> Node
        ensures { result ≡ number }
    {
        Node { number }
    }

    pub fn number(self) -> usize
        ensures { result ≡ self }
    {
        self.number
    }
}
