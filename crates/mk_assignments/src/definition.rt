//! Definitions: a name, a sign, a value.
ghost use Rattle.std.specs.Prelude.{◌≡◌, None, Some, MatchOption};
ghost use Rattle.mk_assignments.specs.Reading.{definition};
ghost use Rattle.mk_assignments.specs.Definition.{Spells};
ghost use Rattle.mk_assignments.specs.Steps.{defined_by};

use crate::name::behind_name;
use crate::sign::{Sign, sign_at};
use byte_strings::trim_start;

/// A definition. Its name and its value are texts of the makefile; which is expanded when is told by the sign.
#[derive(Clone, Copy)]
pub struct Definition<'a> {
    /// Without blanks outside references. It may be empty, which is a fault where it still is when it is expanded.
    pub name: &'a [u8],
    pub sign: Sign,
    /// Blanks at its end are its own.
    pub value: &'a [u8],
}

/// What a text defines that begins with a name.
#[tactic(auto, unfolding(crate::specs::Reading::definition))]
pub fn definition_of(text: &[u8]) -> Option<Definition<'_>>
    ensures { MatchOption result (definition text.now ≡ None) (λ found. definition text.now ≡ Some (defined_by found)) }
{
    let behind = behind_name(text)?;
    let (sign, value) = sign_at(trim_start(behind))?;
    let name = text.split_at(text.len().saturating_sub(behind.len())).0;
    Some(Definition {
        name,
        sign,
        value: trim_start(value),
    })
}
