//! Which lines behind a TAB are a recipe's: those behind a rule that is open among the lines that count.
ghost use Rattle.std.specs.Prelude.{◌≡◌};
ghost use Rattle.mk_statements.specs.Reading.{meaning_by};
ghost use Rattle.mk_statements.specs.Course.{role_in, role_by, rule_behind};
ghost use Rattle.mk_statements.specs.Told.{told_by};

use crate::said::Said;
use crate::statement::Statement;

/// What lines behind a TAB belong to.
#[derive(Clone, Copy, Debug, PartialEq, Eq)]
pub enum Rule {
    /// No rule is open.
    Closed,
    Open,
    /// A rule without targets, whose recipe is passed over.
    WithoutTargets,
}

/// What a statement is in its place.
#[derive(Clone, Copy)]
pub enum Role<'a> {
    /// A line of the recipe of the rule that is open, whatever it would say elsewhere. It is one also where it doesn't count.
    Recipe(&'a [u8]),
    PassedOver,
    Says(Said<'a>),
}

impl Rule {
    pub fn role_of<'a>(self, statement: Statement<'a>) -> Role<'a>
        ensures { role_by result ≡ role_in self (meaning_by statement.entry) }
    {
        match statement {
            Statement::Plain(said) => Role::Says(said),
            Statement::Tab(recipe, said) => match self {
                Rule::Closed => Role::Says(said),
                Rule::Open => Role::Recipe(recipe),
                Rule::WithoutTargets => Role::PassedOver,
            },
        }
    }

    /// What is open behind a line that counts and says this; where it is expanded, what it came to.
    pub fn behind(self, said: Said<'_>, came_to: Rule) -> Rule
        ensures { result ≡ rule_behind self (told_by said.entry) came_to }
    {
        match said {
            Said::Nothing | Said::Conditional(_) | Said::Refused(_) => self,
            Said::Variables(_)
            | Said::Define(_)
            | Said::Includes(_, _)
            | Said::Vpath(_)
            | Said::Loads(_, _) => Rule::Closed,
            Said::Expands(_, _) => came_to,
        }
    }
}
