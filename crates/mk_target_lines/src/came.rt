//! What a line comes to, as values.
ghost use Rattle.std.specs.Prelude.{◌≡◌};
ghost use Rattle.mk_assignments.specs.Line.{defines};
ghost use Rattle.mk_assignments.specs.Steps.{said_by};
ghost use Rattle.mk_target_lines.specs.Shown.{defined_of, opened_by};

use byte_strings::ByteStrings;
use mk_assignments::{Definition, Modifiers, Sign, Statement};
use mk_statements::Rule as OpenRule;

/// A definition for targets. Of these, a name with a `%` is a pattern of targets.
#[derive(Drop)]
pub struct TargetDefinition {
    pub targets: ByteStrings,
    pub(crate) modifiers: Modifiers,
    pub(crate) name: Vec<u8>,
    pub(crate) sign: Sign,
    pub(crate) value: Vec<u8>,
}

impl TargetDefinition {
    /// What is to be taken for each of the targets. Its name may be empty, which is a fault where it still is when it is expanded.
    pub fn statement(&self) -> Statement<'_>
        ensures { said_by result ≡ defines self.now.modifiers (defined_of self.now) }
    {
        let definition = Definition {
            name: self.name.as_slice(),
            sign: self.sign,
            value: self.value.as_slice(),
        };
        Statement::Defines(self.modifiers, definition)
    }
}

/// A rule. Its names are as they are spelled: one may be a pattern of files, and stand for members of an archive.
#[derive(Drop)]
pub struct Rule {
    /// At least one. Where the first one has a `%`, all of them have, and the rule is an implicit one; behind another one a `%` is a byte of a name.
    pub targets: ByteStrings,
    pub is_double: bool,
    /// Whether its recipe makes all of its targets at once. It is a fault of such a rule where it has no recipe.
    pub is_grouped: bool,
    /// The bytes before and behind the `%` of the target pattern, in a static pattern rule.
    pub pattern: Option<(Vec<u8>, Vec<u8>)>,
    /// The text of which `prerequisite_names` tells the names.
    pub prerequisites: Vec<u8>,
    /// The first line of its recipe, where it has one behind a `;`.
    pub recipe: Option<Vec<u8>>,
}

/// What a line comes to.
#[derive(Drop)]
pub enum Came {
    Nothing,
    /// A rule without targets, which counts for nothing.
    WithoutTargets,
    Defines(TargetDefinition),
    Rule(Rule),
}

impl Came {
    /// What lines behind a TAB belong to, behind this one.
    pub fn opens(&self) -> OpenRule
        ensures { result ≡ opened_by self.now }
    {
        match self {
            Came::Nothing | Came::Defines(_) => OpenRule::Closed,
            Came::WithoutTargets => OpenRule::WithoutTargets,
            Came::Rule(_) => OpenRule::Open,
        }
    }
}
