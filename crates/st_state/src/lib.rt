//! The state: what the records so far say of each target. A record is taken in, or a batch of them; the state is
//! listed in byte order of the names.
#![tactic(auto)]

mod laws;
mod listed;
mod name_order;
mod staged;
mod state;
mod taking;

pub use laws::{entries_can_be_kept, entries_can_be_kept_in};
pub use listed::Listed;
pub use staged::Staged;
pub use state::State;
