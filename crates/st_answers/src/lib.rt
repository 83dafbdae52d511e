//! What is asked of a recovered state: its targets, what each was made by and of, and what was made of it.
#![tactic(auto)]

mod cleaning;
mod compiling;
mod drawing;
mod inferred;
mod leaving;
mod line_text;
mod of_marks;
mod of_names;
mod of_targets;
mod sources;
mod stale;
mod why;

pub use cleaning::{removable, staying};
pub use compiling::{Compilation, compilations};
pub use drawing::{Edge, Extent, edges_drawn, names_drawn, target_names};
pub use of_names::{is_known, query};
pub use of_targets::{commands, hidden, targets};
pub use stale::stale_targets;
pub use why::{Looks, causes};
