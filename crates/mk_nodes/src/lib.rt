//! The graph of a makefile's names: what it says of each, and what it means. What builds it stands in a crate of its own, of
//! which whoever reads a graph knows nothing.
#![tactic(auto)]

mod file_look;
mod graph;
mod group;
mod hidden_numbers;
mod limits;
mod parts;
mod rare;
mod removing;
mod short_number;
mod stamp;
mod unfinished;

pub use file_look::{FileLook, FileLooks, OLD_TIME, is_taken_as_old};
pub use graph::{Graph, Node};
pub use group::Group;
pub use hidden_numbers::HiddenNumbers;
pub use limits::MAX_STEPS;
pub use rare::{Rare, RareParts};
pub use short_number::ShortNumber;
pub use stamp::Stamp;
pub use unfinished::is_unfinished;
