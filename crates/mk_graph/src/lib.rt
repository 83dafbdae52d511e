//! Graphs of nodes named by number: the numbering of names, the order in which nodes are passed, cycles, and the edges
//! that order nodes. Nothing here knows what a node stands for.
#![tactic(auto)]

mod counting;
mod cycles;
mod edges;
mod node_lists;
mod numbering;
mod packed_rows;
mod planning;
mod ready;
mod shared_rows;
mod users;
mod waiting;
mod watching;

pub use counting::{CountedOrder, counted_edges, counted_order};
pub use cycles::Order;
pub use edges::{Edges, Parts};
pub use numbering::{Dependencies, Expected, Numbered, NumberingFault, distinct_names, number};
pub use planning::{one_plan, plan, whole_plan};
pub use waiting::add_waits;
