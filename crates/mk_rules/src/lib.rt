//! The graph of a makefile is built: the names that its goals lead to, and what orders them.
#![tactic(auto)]

mod building;
mod distinct_numbers;
mod explicit;
mod finder;
mod followers;
mod hidden;
mod hidden_marks;
mod limit;
mod marks;
mod mentioned;
mod node_notes;
mod nodes;
mod recorded;
mod unmade;

pub use building::build;
pub use limit::{MAX_NODES, node_limit};
pub use mk_sources::{Tree, TreeFault};
