//! What holds of the definitions alone.
ghost use Rattle.std.specs.Prelude.{◌≡◌, ℕ, true, List, Some, bytes_eq};
ghost use Rattle.std.specs.List.{list_any};
ghost use Rattle.mk_words.specs.Sorted.{IsSortOf};
ghost use Rattle.mk_functions.specs.Variables.{Variable, Variables};
ghost use Rattle.mk_functions.specs.declared.variable.Flavor.TheVariants.{Recursive};
ghost use Rattle.mk_functions.specs.Outcome.{Outcome};
ghost use Rattle.mk_functions.specs.Values.{Answers, sorted_words};
ghost use Rattle.mk_functions.specs.Expansion.{ExpandsTo};

/// A text has one outcome.
pub fn one_outcome()
    ensures { (w : Answers) (variables : Variables) (text : List ℕ) (a b : Outcome) → ExpandsTo w variables text a → ExpandsTo w variables text b → a ≡ b }
{}

/// A text has an outcome, where finitely many names are those of recursive variables.
pub fn an_outcome()
    ensures { (w : Answers) (variables : Variables) (listed : List (List ℕ))
        → ((name : List ℕ) (v : Variable) → variables name ≡ Some v → v.flavor ≡ Recursive → list_any (bytes_eq name) listed ≡ true)
        → (text : List ℕ) → (outcome : Outcome) × ExpandsTo w variables text outcome }
{}

/// What `sort` gives are the same words in the order of their bytes, each once.
pub fn sorted_words_are_a_sort()
    ensures { (ws : List (List ℕ)) → IsSortOf ws (sorted_words ws) }
{}
