//! Targets of a graph that the states of other levels of runs know, and the records with which they are taken over.
#![tactic(auto)]

mod level;
mod picking;
mod telling;

pub use level::Level;
pub use picking::{Wanted, picked};
pub use telling::told_known;
