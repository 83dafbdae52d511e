//! The words of the command line and of MAKEFLAGS, with the environment: what they ask of a run.
#![tactic(auto)]

mod arguments;
mod command_line;
mod definition;
mod descriptors;
mod environment;
mod flags;
mod folders;
mod job_words;
mod loads;
mod mistake;
mod option_table;
mod output;
mod program;
mod request;

pub use command_line::read_words;
pub use environment::{macro_variables, with_environment, with_flags_seen};
pub use flags::handed_on;
pub use job_words::processors;
pub use request::{Asked, INPUT, Later, Request};
