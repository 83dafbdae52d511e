//! Locks of runs: empty files that stand for what a lock is of, and what those below are told of the locks that runs hold.
#![tactic(auto)]

mod levels;
mod lock_file;
mod presence;
mod run_name;
mod stopping;

pub use levels::{first_free, lock_path, other_levels, told_below};
pub use lock_file::{LockFile, Tried, is_refusal};
pub use presence::presence_of;
pub use run_name::{is_open_above, is_over, own_name};
pub use stopping::wait_for_janitors;
