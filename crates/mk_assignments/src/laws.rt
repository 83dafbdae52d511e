//! What holds of the definitions alone. The functions do nothing: what they ensure are the laws.
ghost use Rattle.std.specs.Prelude.{◌≡◌, ◌↔◌, ℕ, List, Option};
ghost use Rattle.mk_assignments.specs.Definition.{Spells};
ghost use Rattle.mk_assignments.specs.Line.{Said, Says};
ghost use Rattle.mk_assignments.specs.Reading.{Defined, definition};
ghost use Rattle.mk_assignments.specs.Steps.{said};

/// What the code reads of a definition is what the text spells. So each text defines one thing at most.
pub fn each_definition_is_as_it_is_spelled()
    ensures { (text : List ℕ) (told : Option Defined) → (definition text ≡ told) ↔ Spells text told }
{}

/// What is read of a line word by word is what it says.
pub fn each_line_is_as_it_is_spelled()
    ensures { (text : List ℕ) (told : Option Said) → (said text ≡ told) ↔ Says text told }
{}

/// A line says one thing, and one alone.
pub fn one_reading()
    ensures { (text : List ℕ) (one other : Option Said) → Says text one → Says text other → one ≡ other }
{}
