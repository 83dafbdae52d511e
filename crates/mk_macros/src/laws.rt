// What holds of the definitions alone.
ghost use Rattle.std.specs.Prelude.{◌≡◌, ◌≢◌, ◌↔◌, ℕ, List, [], ◌∷◌, ◌++◌, None};
ghost use Rattle.mk_macros.specs.Words.{place_of, pattern_of, by_pattern, changed_word, directory_of, file_of};
ghost use Rattle.mk_profile.specs.Profile.{is_wide};
ghost use Rattle.mk_profile.specs.declared.profile.Profile.{Profile};
ghost use Rattle.mk_macros.specs.Reference.{Use, reference, named, Front, front};
ghost use Rattle.mk_macros.specs.Spelled.{SpellsUse, SpellsFront};
ghost use Rattle.mk_macros.specs.Expansion.{Meaning, Outcome, Expands, ExpandsTo};
ghost use Rattle.mk_macros.specs.Ranks.{Listed, defined_by, meanings_of};
ghost use Rattle.mk_macros.specs.declared.dynamic.Dynamic.{Dynamic};

/// The front that the code computes of a text is the one that the text spells. So each text has one, in each profile.
/// What brackets come to is read as the reference that it spells.
pub fn each_front_is_as_it_is_spelled()
    ensures fronts { (profile : Profile) (text : List ℕ) (f : Front)
        → (front (is_wide profile) text ≡ f) ↔ SpellsFront (is_wide profile) text f }
    ensures names { (inner name : List ℕ) (use_of : Use) → (named inner ≡ reference name use_of) ↔ SpellsUse inner name use_of }
{}

/// A text has one outcome in each profile, whatever its names stand for.
pub fn one_outcome()
    ensures { (profile : Profile) (meaning : List ℕ → Meaning) (opened : List (List ℕ)) (made text : List ℕ) (a b : Outcome)
        → Expands (is_wide profile) meaning opened made text a → Expands (is_wide profile) meaning opened made text b → a ≡ b }
{}

/// A text has an outcome in each profile, for what definitions and a line give.
pub fn an_outcome()
    ensures { (listed : Listed) (line : Dynamic) (text : List ℕ)
        → (outcome : Outcome) × ExpandsTo (meanings_of (defined_by listed) line) text outcome }
{}

/// A substitution replaces the ending of a word, or what stands before and after its stem, and leaves other words. A new
/// form without a `%` stands for the whole word. The byte 37 is `%`.
pub fn substitutions_change_words()
    ensures ending { (old new stem : List ℕ) → place_of 37 old ≡ None
        → changed_word (by_pattern (pattern_of old new)) (stem ++ old) ≡ stem ++ new }
    ensures other_words { (old new word : List ℕ) → place_of 37 old ≡ None
        → ((stem : List ℕ) → word ≢ stem ++ old) → changed_word (by_pattern (pattern_of old new)) word ≡ word }
    ensures stem { (before after front back stem : List ℕ) → place_of 37 before ≡ None → place_of 37 front ≡ None
        → changed_word (by_pattern (pattern_of (before ++ 37 ∷ after) (front ++ 37 ∷ back))) (before ++ (stem ++ after))
        ≡ front ++ (stem ++ back) }
    ensures other_forms { (before after new word : List ℕ) → place_of 37 before ≡ None
        → ((stem : List ℕ) → word ≢ before ++ (stem ++ after))
        → changed_word (by_pattern (pattern_of (before ++ 37 ∷ after) new)) word ≡ word }
    ensures no_place { (before after new stem : List ℕ) → place_of 37 before ≡ None → place_of 37 new ≡ None
        → changed_word (by_pattern (pattern_of (before ++ 37 ∷ after) new)) (before ++ (stem ++ after)) ≡ new }
{}

/// The directory and the file of a word are what stands before and behind its last slash. The byte 47 is `/`, and 46
/// is `.`.
pub fn parts_of_words()
    ensures directory { (b : ℕ) (before behind : List ℕ) → place_of 47 behind ≡ None
        → directory_of (b ∷ (before ++ 47 ∷ behind)) ≡ b ∷ before }
    ensures root { (behind : List ℕ) → place_of 47 behind ≡ None → directory_of (47 ∷ behind) ≡ 47 ∷ [] }
    ensures file { (before behind : List ℕ) → place_of 47 behind ≡ None → file_of (before ++ 47 ∷ behind) ≡ behind }
    ensures no_slash { (word : List ℕ) → place_of 47 word ≡ None
        → (directory_of word ≡ 46 ∷ []) × (file_of word ≡ word) }
{}
