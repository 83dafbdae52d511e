//! A disk of two sides: its model, and the disk over two files.
#![tactic(auto)]

mod disk;
mod failed_call;
mod fault;
mod file_disk;
mod folder;
mod open_side;
mod refusal;
mod side_calls;
mod system_folder;
mod which;

pub use disk::Disk;
pub use failed_call::{Call, FailedCall, FailedCallMessage};
pub use fault::{DeviceFault, count_fault};
pub use file_disk::FileDisk;
pub use folder::Folder;
pub use system_folder::{SystemFile, SystemFolder};
pub use which::Which;
