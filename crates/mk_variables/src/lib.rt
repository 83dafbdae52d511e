//! The variables of a GNU makefile: what each name is, and what each statement makes of them.
#![tactic(auto)]

mod entry;
mod exports;
mod fault;
pub mod laws;
mod rank;
mod statements;
mod table;
mod value;

pub use exports::Passed;
pub use fault::Refusal;
pub use table::Table;
