//! A GNU makefile's text to its statements, before anything is expanded: one for each logical line, but that a `define` is one with its
//! body. Which of them count, and which lines behind a TAB are a recipe's, is told line by line.
#![tactic(auto)]

mod body;
mod content;
mod course;
mod cut;
mod logical;
mod physical;
mod place;
mod said;
mod statement;
mod statements;

pub use content::Line;
pub use course::{Role, Rule};
pub use said::{Define, Fault, Said};
pub use statement::Statement;
pub use statements::{next_statement, statements_of};
