//! Why a run ends before it prints or answers what was asked for, and the lines and texts that go out.
#![tactic(auto)]

mod cure;
mod fault;
mod messages;
mod output;

pub use cure::{Cure, CureMessage};
pub use fault::Fault;
pub use messages::Message;
pub use output::{print_fault, print_lines, print_note, write_text};
