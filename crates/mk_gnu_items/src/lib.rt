//! What a GNU makefile says of targets, as the items that the rest of dmk reads, in the language of the wide profile.
#![tactic(auto)]

mod fault;
mod items;
mod names;
mod rules;
mod spelled;
mod stems;

pub use fault::{Cause, Oddity, Refusal, Refused};
pub use items::items_of;
