//! Tickets of submissions.

ghost use Rattle.std.specs.Prelude.{◌≡◌, IsTrue, ◌↔◌};

use std::marker::Model;

/// The place of a submission among all that a board took, counted from 0. Contracts see the number.
#[derive(Clone, Copy, Debug, PartialEq, Eq)]
pub struct Ticket {
    number: usize,
}

impl Model for Ticket {
    ghost use Rattle.std.specs.Prelude.{ℕ};

    ghost Value = { ℕ };

    ghost view = { λ t. t.number };

    ghost inverse = { λ n. record { number = n } };
}

impl Ticket {
    pub fn new(number: usize) -> Ticket
        ensures { result ≡ number }
    {
        Ticket { number }
    }

    pub fn number(self) -> usize
        ensures { result ≡ self }
    {
        self.number
    }
}
