//! The order of recipes that are run one at a time: the nodes of a graph one behind the other.
#![tactic(auto)]

mod in_order;

pub use in_order::edges_in_order;
