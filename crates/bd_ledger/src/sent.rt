//! What a node has submitted.

use crate::Ticket;

/// What a node has submitted so far.
#[derive(Clone, Copy, Debug, PartialEq, Eq)]
pub enum Sent {
    Nothing,
    /// That its recipe is about to be run.
    Begun(Ticket),
    /// How its recipe ended.
    End(Ticket),
}
