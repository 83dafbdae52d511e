//! Targets taken over before a run as the states of other levels know them, recorded in their own.
#![tactic(auto)]

mod storing;

pub use storing::{Taking, take_known};
