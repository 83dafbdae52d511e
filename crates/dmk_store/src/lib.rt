//! What a run goes by before it makes anything: its store, opened and compacted, other runs kept from that, and the graph of its goals;
//! and why it has no report.
#![tactic(auto)]

mod graph;
mod guard;
mod machine;
mod opening;
mod status;
mod stop;

pub use graph::graph_of;
pub use guard::{Guard, Hold, hold_state};
pub use machine::{Looks, Machine};
pub use opening::{disk_of, disk_of_store, open_store};
pub use status::status_of;
pub use stop::Stop;
