//! The rule lines of a makefile, taken together: which of them count, which are refused, what they have of each target, and which implicit
//! rules they give.
#![tactic(auto)]

mod counting;
mod doubles;
mod form;
mod forms;
mod laws;
mod makefile;
mod order;
mod supported;
mod table;

pub use doubles::{double_lines, first_double};
pub use form::{Form, Source};
pub use laws::{implicit_rules_in_order, longer_stems_by_less_beside_them, rules_by_name};
pub use makefile::Makefile;
pub use table::TargetTable;
