//! A node of a graph as it is seen: what the graph has under its number, and of each of its files what a look tells and what the
//! state has.
#![tactic(auto)]

mod compared;
mod leaving;
mod looks;
mod marks;
mod names;
mod nodes;
mod same;
mod seen;
mod text_names;

pub use compared::compared_of;
pub use leaving::gives_no_reason;
pub use looks::{look_of, mark_counted};
pub use marks::marks_of;
pub use nodes::{
    entry_of, explicit_of, is_later, is_marked, made_beside, made_of, name_of, source_of, stamp_of,
    stem_of,
};
pub use same::is_same;
pub use seen::{SeenFiles, seen_files};
pub use text_names::has_text_names;
