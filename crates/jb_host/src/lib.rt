//! The shell and the files of this machine.
#![tactic(auto)]

mod dry_shell;
mod folder_syncs;
mod heard;
mod hears;
mod host_place;
mod laws;
mod shared_syncs;
mod sharing;
mod shell;
mod sights;
mod stops;
mod surroundings;
mod writes;

pub use dry_shell::{DryShell, Written};
pub use hears::{Hears, Stream};
pub use host_place::{HostPlace, folder_of};
pub use laws::served_by_later_syncs;
pub use sharing::Sharing;
pub use shell::{BeforeLines, HOLDS, HeldLock, Shell};
pub use stops::Stops;
pub use writes::Writes;
