//! What holds of texts, beside what a call answers. Nothing here runs: the body is empty.

ghost use Rattle.std.specs.Prelude.{◌≡◌, ◌++◌, ℕ, List, Option};
ghost use Rattle.st_marks.specs.declared.mark.Mark.{Mark};
ghost use Rattle.st_marks.specs.Encoding.{IsText};
ghost use Rattle.st_marks.specs.Done.{Done, IsDone};

/// One text for one source and list of marks.
pub fn one_text()
    ensures says { (source other : Option (List ℕ)) (marks others : List Mark) (text : List ℕ) → IsText source marks text → IsText other others text → (source ≡ other) × (marks ≡ others) }
    ensures spelled { (source : Option (List ℕ)) (marks : List Mark) (text other : List ℕ) → IsText source marks text → IsText source marks other → text ≡ other }
{}

/// One done record of version 4 for one target, its commands, its prerequisites and all their marks, and none begins another.
pub fn one_done()
    ensures says { (d e : Done) (a b x y : List ℕ) → IsDone d a → IsDone e b → a ++ x ≡ b ++ y → (d ≡ e) × (x ≡ y) }
    ensures spelled { (d : Done) (a b : List ℕ) → IsDone d a → IsDone d b → a ≡ b }
{}
