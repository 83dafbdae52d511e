//! What a line of a GNU makefile says of variables.
#![tactic(auto)]

mod definition;
pub mod laws;
mod line;
mod name;
mod sign;
mod statement;

pub use definition::{Definition, definition_of};
pub use line::statement_of;
pub use sign::Sign;
pub use statement::{DefineLine, Modifiers, Statement};
