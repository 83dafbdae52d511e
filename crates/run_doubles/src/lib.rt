//! What stands in for a disk and a folder of makefiles where runs are tested: a folder in memory, and stores, graphs and boards over
//! memory.
#![tactic(auto)]

mod boards;
mod folder;
mod makefiles;
mod states;

pub use boards::{begun, board, flush, look, submitted, take_in};
pub use folder::{File, Folder};
pub use makefiles::{Asked, graph, lists_any};
pub use states::{listing, new_store, opened, site_of};
