//! Text in which nothing is left that a terminal obeys.
#![tactic(auto)]

mod control;
mod plain;

pub use plain::{Plain, to_plain, write_plain};
