//! The lines of a makefile's text: physical ones, and the logical ones that they are joined to. Bytes that stand outside references,
//! colons that aren't quoted, and rule lines in which a recipe opens, by which it is known how lines are joined.
#![tactic(auto)]

pub mod laws;
mod line;
mod lines;
mod quoted;
mod recipe_search;
mod reference;
mod semicolon;
mod text;

pub use line::{LineText, LogicalLine};
pub use lines::{
    around, begins_with, ends_with, len_before, next_joined_line, next_logical_line, without_first,
    without_last,
};
pub use quoted::{first_sign, split_at_colon};
pub use reference::{first_outside, split_outside};
pub use semicolon::opens_recipe;
pub use text::{is_plain, is_text, is_utf8};
