//! How far a run is, and how that is shown: in a line that is drawn on a terminal, or in lines that stay.
#![tactic(auto)]

mod progress;
mod status_line;
mod terminal;

pub use progress::{Progress, write_end};
pub use status_line::StatusLine;
pub use terminal::{Shown, Terminal};
