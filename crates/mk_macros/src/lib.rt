// Macros of makefiles: what is defined for a name, by rank, and the expansion of the references in a text.
#![tactic(auto)]

mod definitions;
mod dynamic;
mod expansion;
mod fault;
mod function;
mod laws;
mod lookup;
mod mention;
mod plain;
mod reference;
mod simple;
mod substitution;

pub use definitions::{Macros, Rank};
pub use dynamic::{Dynamic, RecipeNames};
pub use fault::{MAX_EXPANSION_BYTES, MAX_WIDE_EXPANSION_BYTES, MacroFault};
pub use function::FUNCTIONS;
pub use laws::{
    an_outcome, each_front_is_as_it_is_spelled, one_outcome, parts_of_words,
    substitutions_change_words,
};
pub use mention::refers_to_newer;
