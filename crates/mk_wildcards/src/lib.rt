//! Patterns of file names, and the names that fit them. No folder is read here.
#![tactic(auto)]

mod element;
mod fits;
mod order;
mod parts;
mod pattern;
mod steps;

pub use element::{Brackets, Element};
pub use fits::fits_name;
pub use order::in_order;
pub use parts::split_part;
pub use pattern::{elements, has_wildcard, is_pattern};
pub use steps::push_steps;
