//! Doubles of disks and of folders: those that fail calls by a plan, and a folder over any disk.
#![tactic(auto)]

mod faulty_folder;
mod mem_folder;
mod plan;
mod planned;

pub use faulty_folder::FaultyFolder;
pub use mem_folder::MemFolder;
pub use plan::{FailsOne, Plan, Stops};
pub use planned::{FailOnce, Fuse, Planned};
