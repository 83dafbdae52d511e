//! The statements of a GNU makefile's text that count: read in their order, where definitions change the variables, conditionals decide by
//! these, and what is left is handed to the caller.
#![tactic(auto)]

mod directives;
mod fault;
pub mod laws;
mod other;
mod reading;
mod test;

pub use fault::{NoAnswer, Refused, Unturned, Why};
pub use other::{Other, Reached};
pub use reading::Reading;
