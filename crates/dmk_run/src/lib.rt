//! A run: from options, environment, files and a state's disk to recipes that are run, and a status.
#![tactic(auto)]

mod building;
mod counting;
mod driver;
mod in_turn;
mod judging;
mod known;
mod left;
mod making;
mod settling;
mod standing;

pub use building::build;
pub use driver::{Means, build_at_once};
pub use in_turn::build_targets;
