//! The log of a build: a line of JSON text for each event, as it happens.
#![tactic(auto)]

mod book;
mod event;
mod json;
mod lanes;
mod log;
mod sink;
mod targets;
mod told;

pub use event::{Head, Totals};
pub use log::{Log, LogFault};
