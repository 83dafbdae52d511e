//! The listing of the state that two sides recover, as text in a writer.
#![tactic(auto)]

mod listing;
mod marked;
mod output;
mod text;

pub use listing::{ListFault, list, write_listing};
