//! Targets taken over before a run as the states of other levels know them.
#![tactic(auto)]

mod knowing;

pub use knowing::{Asked, kept_items, known_of};
