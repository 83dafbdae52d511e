//! Names as keys of tables. All bytes of a name are handed to the hasher at once, where a vector hands over each by itself.
#![tactic(auto)]

mod ends;
mod name;
mod same;

pub use ends::NameEnds;
pub use name::{Name, NameRef};
