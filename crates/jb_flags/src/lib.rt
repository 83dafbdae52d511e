//! MAKEFLAGS as words, read and written, and what recipes tell makes below by it.
#![tactic(auto)]

mod handing;
mod jobs;
mod laws;
mod load;
mod told;
mod words;
mod workers;

pub use handing::{Handed, Handing, PROFILE, definition_words};
pub use jobs::{has_value, jobs_word};
pub use laws::{one_reading, read_as_written};
pub use load::{Load, load_word};
pub use told::opened_words;
pub use words::{push_quoted, words_of};
pub use workers::{Above, workers_by};
