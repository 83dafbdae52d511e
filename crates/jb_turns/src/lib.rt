//! Recipes that wait for their turn: for a place in a pool, for the terminal alone, or for a machine that is less busy.
#![tactic(auto)]

mod turns;

pub use turns::Turns;
