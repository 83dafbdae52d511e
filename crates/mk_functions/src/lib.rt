//! GNU make's language of references and functions: what a text comes to.
#![tactic(auto)]

mod applied;
mod branches;
mod calls;
mod expansion;
mod fault;
pub mod laws;
mod limits;
mod outside;
mod pieces;
mod references;
mod scope;
mod state;
mod values;
mod variable;

pub use expansion::expand;
pub use fault::{Fault, Stop};
pub use limits::{MAX_CALLS, MAX_PIECES, MAX_VALUE};
pub use outside::{Definitions, Outside};
pub use variable::{Flavor, Origin, Variable};
