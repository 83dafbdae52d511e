//! What the rule lines of a makefile say of a run: which goals it has where none is named, and what special targets set.
#![tactic(auto)]

mod goals;
mod laws;
mod marked;
mod pools;
mod settings;

pub use goals::goals_of;
pub use laws::{goals_are_named_or_first, marks_are_of_the_lines};
pub use pools::{Pools, Share};
pub use settings::Settings;
