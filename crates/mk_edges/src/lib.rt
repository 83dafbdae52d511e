//! The edges of a graph, by what was found of its names, and the order that they make.
#![tactic(auto)]

mod ordering;
mod required;
mod rows;
mod soft;
mod waits;

pub use ordering::{Ordered, ordered_by};
pub use required::required_edges;
pub use rows::parted_rows;
pub use soft::soft_edges;
