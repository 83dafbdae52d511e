//! Dry runs and questions over handed-in parts: from options, environment, files and a state's disk to what is printed and answered.
//!
//! It runs no recipe: `-n` lists the recipes of the targets that are out of date, `-q` asks whether there are any. Lines that are
//! run all the same it tells, and runs none of them. Commands of definitions are run, in a dry run too.
#![tactic(auto)]

mod always_run;
mod driver;
mod laws;
mod passing;
mod planning;
mod recovered;

pub use always_run::AlwaysRun;
pub use driver::drive;
pub use laws::{each_made, one_listing, one_plan};
