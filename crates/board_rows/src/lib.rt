//! Boards as rows call them: graphs of nodes that have labels, what a call answers, and what a caller keeps.
//!
//! cases/board/README.md has the language of rows.
#![tactic(auto)]

mod adding;
mod cleared;
mod desk;
mod distinct;
mod ends;
mod graph;
mod lists;
mod nodes;
mod note;
mod records;
mod script;
mod sets;
mod submission;

pub use desk::Desk;
pub use graph::Graph;
pub use lists::Lists;
pub use nodes::Nodes;
pub use records::read_good;
