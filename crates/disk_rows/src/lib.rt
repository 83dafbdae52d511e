//! Calls of single disks and folders, and of files of this machine, as the rows of a text and commands say.
//!
//! cases/store/README.md has the language of rows.
#![tactic(auto)]

mod cuts;
mod disks;
mod files;
mod folders;
mod script;
mod system_calls;
mod twin;

pub use cuts::{Cut, after};
pub use disks::call_disk;
pub use files::say_file;
pub use folders::call_folder;
pub use system_calls::say_system;
