//! What lines say, in the order of reading.
use mk_target_lines::{Rule, TargetDefinition};

/// What a line says. A rule's recipe is the text behind its `;`, and then the lines of recipes that stand directly behind the rule.
#[derive(Drop)]
pub enum Said {
    Rule(Rule),
    /// A line of the recipe of the rule before it, not expanded.
    Recipe(Vec<u8>),
    Defines(TargetDefinition),
    /// The text of a line of `vpath`, expanded.
    Vpath(Vec<u8>),
}

/// What the line of this number says, in the file of this name.
#[derive(Drop)]
pub struct Item {
    pub file: Vec<u8>,
    pub line: usize,
    pub said: Said,
}
