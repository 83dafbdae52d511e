//! Recipes: what a line of one is, what a target's recipe leaves behind in the state, what it came to, and what its report
//! says. Verdicts are those of `mk_verdict`.
//!
//! A blank is a space or a TAB, as in `byte_strings`.
#![tactic(auto)]

mod exit_status;
mod laws;
mod line;
mod line_status;
mod name_set;
mod report;
mod report_line;

pub use exit_status::outcome;
pub use laws::{hidden_as_mentioned, one_outcome, one_record};
pub use line::{Line, kept_of_expanded, kept_text, recorded, split_line};
pub use line_status::{LineStatus, Outcome};
pub use mk_verdict::{Look, Mark, Prerequisite, Reason, Target, Told, Verdict, judge};
pub use report::{ReportFault, read_report};
