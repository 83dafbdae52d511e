//! What one logical line can be, as values.
use crate::item::{Definition, DefinitionLine, IncludeLine, RecipeLine, Rule};
use crate::special::SpecialName;

/// A rule, and the special name that its first target is, to which recipe lines may still be added.
#[derive(Drop)]
pub struct UnfinishedRule {
    pub special: Option<SpecialName>,
    pub rule: Rule,
}

#[derive(Drop)]
pub enum Form {
    /// Nothing but blanks and a comment.
    Blank,
    Recipe(RecipeLine),
    Include(IncludeLine),
    Definition(Definition),
    DefinitionLine(DefinitionLine),
    Rule(UnfinishedRule),
}
