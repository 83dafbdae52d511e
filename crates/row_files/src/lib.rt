//! Files of rows: each row sets something up, makes calls, and expects answers.
//!
//! A program of rows has a type of `Setup`, which takes the lines of a row before its first call. Once a row is read
//! whole, `Setup::are_met` makes what is called, a `World`, and hands it to `Calls::are_met`, which makes the calls and
//! tells the first answer that isn't the one wanted. `print_rows::<ItsSetup>` reads a text, prints what was told and the
//! counts, and answers whether all is as expected.
//!
//! A row begins with a line `row ..` and ends where the next one begins. A line with ` > ` is a call with its answer, and
//! ends the setup. Empty lines are passed over, and those that begin with `//`. What can't be read or answered is a
//! `RowFault`; `Words` are the words of a line; `hex_digit` and `read_hex` read bytes, and `bytes`
//! has a notation that leaves printable ones as they are.
#![tactic(auto)]

pub mod bytes;
mod calls;
mod hex;
mod report;
mod row_fault;
mod rows;
mod words;

pub use calls::{Calls, World};
pub use hex::{hex_digit, read_hex};
pub use report::Report;
pub use row_fault::{Answered, RowFault};
pub use rows::{Setup, print_rows};
pub use words::{Words, number};
