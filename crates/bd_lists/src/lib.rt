//! The board: which node of a graph waits, may run, runs, waits to be written and is settled; and the values without
//! which no recipe runs and no 'done' is submitted.
#![tactic(auto)]

mod board;
mod exec;
mod laws;
mod plain_board;
mod recipe;
mod told;

pub use board::{Advanced, BoardIn, Clearance, Spent};
pub use exec::{Ended, Exec, ExecFault};
pub use laws::{each_in_turn, each_in_turn_in};
pub use plain_board::Board;
pub use recipe::{Recipe, Variable};
pub use told::Told;
