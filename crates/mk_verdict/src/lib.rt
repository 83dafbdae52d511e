//! Verdicts: whether a target is finished, and if it isn't, why, also in a user's words.
#![tactic(auto)]

mod laws;
mod mark;
mod told;
mod verdict;

pub use laws::{
    begun_is_out_of_date, each_judged, made_of_what_is_there, one_verdict,
    up_to_date_is_as_recorded, without_marks_by_times,
};
pub use mark::{Look, MadeFile, Mark};
pub use told::Told;
pub use verdict::{Prerequisite, Reason, Target, Verdict, judge};
