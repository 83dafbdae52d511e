//! The state of a store, written anew on the other side of its disk.
#![tactic(auto)]

mod compaction;
mod compaction_in;
mod rewriting;
mod text;

pub use compaction::compact;
pub use compaction_in::compact_in;
