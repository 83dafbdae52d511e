//! What a depfile names: the text in make's form in which a compiler says which files it has read; and where it lies. No file is
//! read here.
#![tactic(auto)]

mod gathering;
pub mod laws;
mod lines;
mod mentions;
mod place;
mod reading;
mod refusal;
mod rule;
mod words;

pub use place::depfile_of;
pub use reading::names_of;
pub use refusal::{Cause, Refusal};
