//! What the words ask for, made or told over this machine.
#![tactic(auto)]

mod asked;
mod duty;
mod levels;
mod logging;
mod making;
mod outfit;
mod state_lock;

pub use asked::run_words;
