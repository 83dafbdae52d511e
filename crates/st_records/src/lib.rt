//! The records of a state file: what they hold, their limits, and their bytes; and the key under which names are hashed.
#![tactic(auto)]

mod encoder;
mod fault;
mod hash_key;
mod laws;
mod limits;
mod measure;
mod record;
mod version;
mod within;

pub use byte_strings::{ByteString, ByteStrings, Iter};
pub use encoder::{put_entry, put_front};
pub use fault::DecodeFault;
pub use hash_key::HashKey;
pub use laws::{
    each_answered, each_answered_in, limits_in_numbers, one_encoding, one_encoding_in, one_fault,
    one_fault_in,
};
pub use limits::{
    MAX_COMMAND_BYTES, MAX_COMMANDS, MAX_EXPLICIT_NAMES, MAX_HIDDEN_NAMES, MAX_NAME_BYTES,
    MAX_NAME_BYTES_IN_ONE, MAX_RECORD_BYTES, MAX_RECORD_BYTES_IN_ONE, RecordFault, room_after,
};
pub use record::{Entry, Explicit, Named, Phase, Record};
pub use version::{Form, Version};
pub use within::still_clean;
