//! Who ends the recipes under way where their run is stopped from outside.
#![tactic(auto)]

mod janitor;
mod script;
mod worker;

pub use janitor::{Duty, Janitor, RECIPES};
pub use worker::worker_name;
