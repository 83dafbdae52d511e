//! Makefiles evaluated: from the statements of a text, and of the files that it includes, to items, or the first fault.
//! `read_makefile` is the one call; `laws` says in which sense its definition is right.
#![tactic(auto)]

mod definition;
mod doubled;
mod includes;
mod judged;
pub mod laws;
mod listed;
mod makefile;
mod names;
mod output;
mod quiet;
mod refuse;
mod rule;
mod short;
mod special_rule;
mod static_rule;
mod stem;
mod unmade;

pub use doubled::doubled as doubled_text;
pub use includes::Includes;
pub use judged::macro_refused;
pub use makefile::{MAX_INCLUDE_DEPTH, read_makefile};
pub use output::output_text;
