//! Names by number, and appending to vectors. Nothing here knows what a name stands for, or of edges between numbers.
#![tactic(auto)]

mod chains;
mod hashing;
mod names;
mod room;
mod texts;

pub use names::Names;
pub use room::{append, make_room, push, with_room};
