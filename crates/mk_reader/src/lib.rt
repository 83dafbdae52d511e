//! The text of one makefile to its statements: definitions, rules, special rules and include lines, in their order.
//! `statements_of` is the one call; `laws` says in which sense the definition of a text's lines is right.
#![tactic(auto)]

mod blanks;
mod comment;
mod definition_line;
mod directive;
mod fault;
mod file_name;
mod form;
mod gathered;
mod item;
pub mod laws;
mod line_place;
mod outside;
mod plain_line;
mod refuse;
mod special;
mod statement;
mod statements;

pub use directive::Directive;
pub use fault::{Cause, Feature, MacroCause, ReadFault, Refusal, StaticCause};
pub use file_name::{BUILT_IN, FileName};
pub use item::{
    Definition, DefinitionKind, DefinitionLine, IncludeLine, Item, Recipe, RecipeLine, Rule,
    Special, Statement,
};
pub use special::{SpecialName, is_refused, special_name};
pub use statements::statements_of;
