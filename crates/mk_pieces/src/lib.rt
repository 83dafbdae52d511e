//! GNU make's references and calls of functions, as they stand in a text.
#![tactic(auto)]

mod arguments;
mod brackets;
mod function;
pub mod laws;
mod names;
mod piece;

pub use arguments::Arguments;
pub use function::{
    Function, Message, OfThree, OfTwo, OfVariable, OfWords, Question, Refused, function_named,
};
pub use piece::{Piece, Use, named, next_piece};
