//! What holds of the definitions alone. The functions do nothing: what they ensure is the law.
ghost use Rattle.std.specs.Prelude.{◌≡◌, ◌≢◌, ℕ, List, []};
ghost use Rattle.std.specs.List.{AllByRecursion};
ghost use Rattle.jb_flags.specs.Words.{Reads, written};

/// A text has one list of words.
pub fn one_reading()
    ensures { (text : List ℕ) (words others : List (List ℕ)) → Reads text words → Reads text others → words ≡ others }
{}

/// Words that were written are read as they were, whatever bytes they hold; no word is empty.
pub fn read_as_written()
    ensures { (words : List (List ℕ)) → AllByRecursion (λ word. word ≢ []) words → Reads (written words) words }
{}
