//! What a line says of variables, as values.
ghost use Rattle.std.specs.Prelude.{◌≡◌};
ghost use Rattle.mk_assignments.specs.Line.{no_modifiers, and_modifier};

use crate::definition::Definition;
use crate::sign::Sign;

/// A word that may stand in front of a definition. `unexport` is none (GNU make 4.3).
#[derive(Clone, Copy)]
pub(crate) enum Modifier {
    Export,
    Override,
    Private,
}

#[derive(Clone, Copy)]
pub struct Modifiers {
    pub is_exported: bool,
    pub is_overriding: bool,
    pub is_private: bool,
}

impl Modifiers {
    pub(crate) fn none() -> Modifiers
        ensures { result ≡ no_modifiers }
    {
        Modifiers {
            is_exported: false,
            is_overriding: false,
            is_private: false,
        }
    }

    pub(crate) fn and(self, word: Modifier) -> Modifiers
        ensures { result ≡ and_modifier word self }
    {
        let mut all = self;
        match word {
            Modifier::Export => all.is_exported = true,
            Modifier::Override => all.is_overriding = true,
            Modifier::Private => all.is_private = true,
        }
        all
    }
}

/// The line that begins a `define`.
#[derive(Clone, Copy)]
pub struct DefineLine<'a> {
    /// A text of the makefile. It may be empty, which is a fault where it still is when it is expanded.
    pub name: &'a [u8],
    /// `=` where the line has none.
    pub sign: Sign,
    /// Whether text stands behind the sign, which is passed over. GNU make tells it as an error, and goes on.
    pub has_text_behind: bool,
}

/// What a line says of variables.
#[derive(Clone, Copy)]
pub enum Statement<'a> {
    Defines(Modifiers, Definition<'a>),
    /// `define`
    Begins(Modifiers, DefineLine<'a>),
    /// `undefine`, of the variable whose name is what this expands to.
    Undefines(Modifiers, &'a [u8]),
    /// `export`, of the words that this expands to; of all variables where it is empty.
    Exports(&'a [u8]),
    /// `unexport`
    Unexports(&'a [u8]),
}
