//! What a run would make, listed or asked for, over the files of this machine.
#![tactic(auto)]

mod asking;
mod levels;
mod look;
mod looking;
mod options_again;
mod shell_asked;

pub use asking::ask;
pub use levels::HostLevels;
