//! One side of the state file: a header, batches of records one after another, and a closed gate.
#![tactic(auto)]

mod batch;
mod batch_writer;
mod commit_fault;
mod creation;
mod fault;
mod from_disk;
mod gated;
mod layout;
mod log;
mod log_in;
mod reader;
mod side;
mod sink;
mod window;

pub use batch::MAX_BODY_BYTES;
pub use batch_writer::MAX_SIDE_BYTES;
pub use commit_fault::CommitFault;
pub use creation::{close_gate, create, create_in, has_closed_gate};
pub use fault::OpenFault;
pub use from_disk::{read_log, read_whole};
pub use gated::append_gated;
pub use layout::{HEADER_BYTES, new_header, new_header_in};
pub use log::Log;
pub use log_in::LogIn;
pub use reader::{read_from, read_from_in};
pub use side::{
    Extent, ExtentIn, Side, every_side_has_a_reading, every_side_has_a_reading_in, one_reading,
    one_reading_in, read_side, read_side_in, side_of, version_of,
};
pub use sink::RecordSink;
