//! The ledger of a board: each node's name and what it has submitted, the records that are to be drained, and the moves
//! of nodes that go with them.
#![tactic(auto)]

mod ledger;
mod sent;
mod ticket;

pub use ledger::Ledger;
pub use sent::Sent;
pub use ticket::Ticket;
