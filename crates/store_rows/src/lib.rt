//! Calls stores and, by `record_rows` and `disk_rows`, all else of the state file as the rows of a text say, and tells which
//! answers differ; and calls of files of this machine.
//!
//! cases/store/README.md has the language of rows.
#![tactic(auto)]

mod file_calls;
mod held;
mod keys;
mod power_cuts;
mod sides;
mod store_calls;
mod sweeps;
mod times;

pub use file_calls::call;
pub use held::opened;
pub use power_cuts::every_cut;
use sides::Sides;
use std::io;

/// Prints which rows of a text differ, and how many. Whether none does.
pub fn print_rows(rt: HostRuntime, file: &str, text: &str) -> io::Result<bool> {
    row_files::print_rows::<Sides>(rt, file, text)
}
