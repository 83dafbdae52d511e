//! What MAKEFLAGS says of a jobserver, and whether it asks for a dry run or for the wide profile.
#![tactic(auto)]

mod auth;

pub use auth::{Auth, dry, posix, read_auth};
