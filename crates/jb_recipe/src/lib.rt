//! One recipe: the environment that it gets, what is written before and behind it, and its run with its lines said.
#![tactic(auto)]

mod conduct;
mod depfile;
mod elsewhere;
mod end_note;
mod failing;
mod files;
mod hidden;
mod laws;
mod looking;
mod not_done;
mod noting;
mod place;
mod places;
mod recipe_run;
mod reporting;
mod said;
mod say;
mod seen;
mod silence;
mod stopped;
mod too_long;
mod turn;
mod variables;

pub use conduct::Conduct;
pub use end_note::{EndNote, Last};
pub use failing::FailedLine;
pub use laws::files_survive;
pub use not_done::NotDone;
pub use noting::{Plan, is_writable};
pub use place::{Place, PlaceFault, sync_made};
pub use recipe_run::{Ran, Spoken, leave_recipe, run_recipe};
pub use said::said_in;
pub use say::{News, Say, Step};
pub use seen::text_seen;
pub use stopped::{Signal, Stopped};
pub use too_long::long_line;
pub use turn::{Turn, turn_of};
pub use variables::{Makeflags, environment};
