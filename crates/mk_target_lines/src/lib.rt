//! What a line of a GNU makefile that names targets comes to: a rule, a definition for targets, or nothing. Only here is it known how much of the line
//! is expanded.
#![tactic(auto)]

mod came;
mod comes;
mod cut;
mod fault;
pub mod laws;
mod mark;
mod names;
mod one_line;
mod parts;
mod rule;
mod words;

pub use came::{Came, Rule, TargetDefinition};
pub use comes::came_to;
pub use fault::{Fault, Refusal};
pub use names::{Form, Prerequisites, form_of, prerequisite_names};
