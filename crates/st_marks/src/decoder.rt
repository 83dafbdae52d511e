//! From a text to what it says.

ghost use Rattle.std.specs.Prelude.{◌≡◌, ℕ, List, Option, Some, None, length, replicate, IfSome, IfNone};
ghost use Rattle.std.specs.Option.{option_copied};
ghost use Rattle.st_marks.specs.declared.mark.Mark.{Mark};
ghost use Rattle.st_marks.specs.declared.mark.Mark.TheVariants as mark;
ghost use Rattle.st_marks.specs.Encoding.{IsText};
ghost use Rattle.st_marks.specs.Parts.{said_of};

use crate::fields::{number_of, source_of};
use crate::marks::Marks;

/// What a text says.
#[derive(Drop)]
pub struct Marked<'a> {
    /// The name of the target's source, where an implicit rule gave it one.
    pub source: Option<&'a [u8]>,
    /// Of the target and those that are made with it, of its source, and of its explicit and hidden prerequisites.
    pub marks: Marks<'a>,
}

/// What a text says; None where the bytes are no such text. It takes no memory.
pub fn read_marks(text: &[u8]) -> Option<Marked<'_>>
    ensures found { IfSome result (λ said. IsText (option_copied said.source) said.marks text.now) }
    ensures none { IfNone result ((source : Option (List ℕ)) (marks : List Mark) → IsText source marks text.now → ⊥) }
    // The same as a value.
    ensures said { IfSome result (λ said. said_of text.now ≡ Some (option_copied said.source, said.marks)) }
    ensures nothing { IfNone result (said_of text.now ≡ None) }
{
    let (source, rest) = source_of(text)?;
    let (count, rest) = number_of(rest)?;
    let marks = Marks::read(count, rest)?;
    Some(Marked { source, marks })
}

/// So many marks: those of which a text says, where it is one and there are so many, else unknown ones alone.
pub fn marks_of(text: &[u8], wanted: usize) -> Marks<'_>
    ensures found { (source : Option (List ℕ)) (marks : List Mark) → IsText source marks text.now → length marks ≡ wanted → result ≡ marks }
    ensures unknown { ((source : Option (List ℕ)) (marks : List Mark) → IsText source marks text.now → length marks ≡ wanted → ⊥)
        → result ≡ replicate wanted mark.Unknown }
{
    match read_marks(text) {
        Some(Marked { source: _, marks }) => marks.of_number(wanted),
        None => Marks::unknown(wanted),
    }
}
