//! That no board is ever stuck, and that each run ends, over every list of moves; and that a board's calls are such moves. No program
//! runs it.
#![tactic(auto)]

mod calls;
mod laws;

pub use calls::{abandon, advance, claim, drain, settle, submit};
pub use laws::{counted_edges_are_ordered, each_move_does_more, every_run_ends, never_stuck};
