//! A GNU makefile with the files that it includes, read in its order to what its lines say of targets.
#![tactic(auto)]

mod fault;
mod files;
mod item;
pub mod laws;
mod lines;
mod makefile;
mod names;
mod progress;
mod refuse;
mod site;

pub use fault::{Cause, Fault, Refused};
pub use files::Files;
pub use item::{Item, Said};
pub use makefile::{MAX_INCLUDE_DEPTH, read_makefile};
pub use progress::Progress;
