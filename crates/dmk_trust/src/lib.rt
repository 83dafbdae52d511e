//! Targets taken as they are before a run, where nothing is known of any.
#![tactic(auto)]

mod taking;
mod trusting;

pub use trusting::trust_files;
