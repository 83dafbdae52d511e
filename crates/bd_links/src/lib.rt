//! The six lists of a board, linked by number: each node of a graph stands in one of them.
#![tactic(auto)]

mod links;
mod mark;
mod node;
mod ring;
mod stand;

pub use links::Links;
pub use node::Node;
pub use stand::Stand;
