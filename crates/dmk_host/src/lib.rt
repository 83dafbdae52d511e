//! This machine as a run sees it: its files, locks and streams.
#![tactic(auto)]

mod always_run;
mod assumed;
mod base;
mod child_signal;
mod definitions_told;
mod folder;
mod host_files;
mod include_folders;
mod looks;
mod memory;
mod pool_path;
mod reasons;
mod sign;
mod signs;
mod standard_streams;
mod state_below;
mod terminal;
mod trusted_place;
mod unfilled;
mod word_notes;

pub use always_run::{AlwaysLines, LineSettings, beside_recipes};
pub use base::base_asked;
pub use child_signal::run_anew;
pub use definitions_told::tell_definitions;
pub use folder::{FolderFault, enter, tell};
pub use host_files::{HostFiles, HostTrees, read_input};
pub use include_folders::IncludeFolders;
pub use memory::keep_blocks;
pub use pool_path::{PoolPath, reports_path};
pub use reasons::{
    needs_usual_makefile, print_cure, print_gnu_makefile, print_notes, print_other_makefile,
    print_reasons,
};
pub use signs::{SignFault, with_signs};
pub use standard_streams::{
    Patient, buffered, held_streams, streams_are_one, tell_fault, with_patience,
};
pub use state_below::{locks_above, with_locks_told, with_state_below};
pub use terminal::{draws_status, prints_to_log};
pub use trusted_place::TrustedPlace;
pub use word_notes::print_word_notes;
