//! What the programs over a state file share: the file, read beside a run that writes it; faults as they are told; and standard
//! output.
#![tactic(auto)]

mod message;
mod output_stream;
mod reading;
mod sides;

pub use message::Message;
pub use output_stream::standard_output;
pub use reading::{Refusal, read_state, recovered};
pub use sides::{Reading, settled};
