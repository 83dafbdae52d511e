//! Marks: which files a target was made of, as one text behind the names in its record.
#![tactic(auto)]

mod decoder;
mod encoder;
mod fields;
mod laws;
mod mark;
mod marks;
mod parts;
mod told;

pub use decoder::{Marked, marks_of, read_marks};
pub use encoder::{append_marks, write_marks};
pub use laws::{one_done, one_text};
pub use mark::{Mark, Stamp};
pub use marks::Marks;
pub use parts::{Parts, parts_of};
pub use told::mark_text;
