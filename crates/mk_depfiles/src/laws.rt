//! What holds of the definitions alone.
ghost use Rattle.std.specs.Prelude.{◌≡◌, ◌↔◌, ℕ, List, Result};
ghost use Rattle.mk_depfiles.specs.Depfile.{Found, names_of};
ghost use Rattle.mk_depfiles.specs.Told.{Names};
ghost use Rattle.mk_depfiles.specs.Words.{words};
ghost use Rattle.mk_depfiles.specs.Written.{Writes};
ghost use Rattle.mk_depfiles.specs.declared.refusal.Cause.{Cause};

/// The words that the code reads in a line are those that it is written for, and it is refused for what isn't written so.
pub fn words_are_as_written()
    ensures { (line : List ℕ) (told : Result (List (List ℕ)) Cause) → (words line ≡ told) ↔ Writes line told }
{}

/// A text has one answer at most: names, or a refusal.
pub fn one_answer()
    ensures { (text : List ℕ) (one other : Found) → Names text one → Names text other → one ≡ other }
{}

/// Each text has an answer, which is what the code gives.
pub fn an_answer()
    ensures { (text : List ℕ) → Names text (names_of text) }
{}
