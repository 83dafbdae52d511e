//! Calls that need no disk.
use crate::byte_calls::call_bytes;
use crate::state_calls::{batch, order, replay};
use row_files::{RowFault, Words};
use std::alloc::Global;

/// Answers a call of a state, or one of the bytes of records and of sides, by its name and what stands behind it.
pub fn call(
    alloc: Global,
    said: &mut String,
    name: &str,
    words: &mut Words<'_>,
) -> Result<(), RowFault> {
    match name {
        "replay" => replay(alloc, said, words.rest),
        "discard" => batch(alloc, said, words.rest, false),
        "finish" => batch(alloc, said, words.rest, true),
        "order" => order(alloc, said, words.rest),
        _ => call_bytes(alloc, said, name, words),
    }
}
