//! Strings of any bytes: one that owns itself, a list of them in one piece of memory, and the words of a text.
//!
//! Contracts see a [`ByteString`] as a list of numbers and [`ByteStrings`] as a list of such lists. A blank is a space
//! or a TAB, here and in all crates above.
#![tactic(auto)]

mod blanks;
mod byte_string;
mod byte_strings;
mod digits;
mod iter;
mod laws;
mod text_words;

pub use blanks::{first_word, is_blank, trim, trim_end, trim_start};
pub use byte_string::ByteString;
pub use byte_strings::ByteStrings;
pub use digits::number_of;
pub use iter::Iter;
pub use laws::words_of_joined_words;
pub use text_words::{Words, next_word};
