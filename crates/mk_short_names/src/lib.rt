//! Names of files without a `./` in front, which names the same file.
#![tactic(auto)]

mod short;

pub use short::{begins_here, is_short, name_in, short_name};
