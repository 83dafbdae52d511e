//! Records as they are read and as the state keeps them: the strings of each entry in one piece of memory, from bytes and to them.
#![tactic(auto)]

mod decoder;
mod kept;
mod packed;
mod packed_record;

pub use decoder::{decode, decode_in};
pub use kept::{append_kept, append_kept_in, room_after_kept, room_after_kept_in};
pub use packed::PackedEntry;
pub use packed_record::{Event, PackedRecord};
