//! Calls of the bytes of records and of sides, and of states, as the rows of a text say; and the texts of both.
//!
//! cases/store/README.md has the language of rows.
#![tactic(auto)]

mod byte_calls;
mod calls;
mod measured;
mod notation;
mod shown;
mod state_calls;

pub use byte_calls::side_named;
pub use calls::call;
pub use notation::records_of;
pub use shown::{say_once, say_state};
