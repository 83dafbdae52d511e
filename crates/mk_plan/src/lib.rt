//! What a node of a graph comes to: its recipe's lines, expanded, and whether it is to be run. A dry run and the workers of a run
//! ask it alike.
#![tactic(auto)]

mod change;
mod explicit_words;
mod fault;
mod finished;
mod kept;
mod laws;
mod nodes;
mod part_words;
mod parts;
mod passing;
mod recipe;
mod simple;
mod target;
mod telling;
mod why;
mod words;

pub use fault::RecipeFault;
pub use laws::{nodes_by_name, one_passing};
pub use mk_seen::{explicit_of, has_text_names, name_of};
pub use parts::{LinePlace, line_place};
pub use passing::{Passed, pass, pass_in};
pub use telling::{Telling, told_lines, why_lines};
pub use why::Why;
