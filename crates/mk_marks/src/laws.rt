//! What holds of the definitions alone. The function does nothing: what it ensures is the law.
ghost use Rattle.std.specs.Prelude.{◌≡◌, ◌<◌, ℕ, List, Option, Some, get_or};
ghost use Rattle.st_marks.specs.declared.mark.Mark.{Mark};
ghost use Rattle.st_marks.specs.Encoding.{IsText};
ghost use Rattle.mk_marks.specs.Said.{said};

/// Bytes say just what they are the text of.
pub fn what_is_said()
    ensures written { (source : Option (List ℕ)) (marks : List Mark) (text : List ℕ) → IsText source marks text → said text ≡ Some (source, marks) }
    ensures read { (source : Option (List ℕ)) (marks : List Mark) (text : List ℕ) → ((i : ℕ) → get_or text i 0 < 256)
        → said text ≡ Some (source, marks) → IsText source marks text }
{}
