//! What is told of a run of a build log: as text, as a page, and as a trace for viewers of such.
#![tactic(auto)]

mod bars;
mod escaping;
mod events;
mod html;
mod html_text;
mod lines;
mod seconds;

pub use events::trace;
pub use html::page;
pub use lines::stats;
