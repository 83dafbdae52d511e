//! Notes on what a makefile asks for that has no meaning here, though another make gives it one: each is said once.
#![tactic(auto)]

mod built_in;
mod front;
mod fronts;
mod leading;
mod names;
mod note;
mod notes;
mod references;
mod statements;
mod undefined;

pub use names::is_macro_elsewhere;
pub use note::Subject;
pub use notes::Notes;
