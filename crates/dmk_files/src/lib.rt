//! What the system answered, kept: looks at files, their texts, what commands wrote, and the names in folders.
//!
//! Each is asked for once. What was answered holds from then on.
#![tactic(auto)]

mod commands;
mod file_calls;
mod file_texts;
mod file_tree;
mod listed;
mod listings;
mod stamps;
mod texts;
mod told;

pub use file_calls::{FileCalls, FileStatus};
pub use file_texts::FileTexts;
pub use file_tree::FileTree;
