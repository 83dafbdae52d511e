//! A build log as it is read: of one of its runs the recipes with their times, what each was made of, and the commits.
#![tactic(auto)]

mod fault;
mod fields;
mod lines;
mod reading;
mod run;
mod spans;

pub use fault::{Fault, Refusal};
pub use lines::read_log;
pub use run::{Commit, End, Ended, Outcome, Recipe, Run};
