//! What the state has of the files of one target, as a verdict takes it: whether its source is another one, and the marks of its
//! files and prerequisites, one after the other, read where they lie.
#![tactic(auto)]

mod kept;
mod laws;
mod mark;
mod noted;

pub use kept::Kept;
pub use laws::what_is_said;
pub use noted::{Noted, note_of};
