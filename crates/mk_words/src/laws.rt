//! What holds of the definitions alone. The function does nothing: what it ensures is the law.
ghost use Rattle.std.specs.Prelude.{◌≡◌, ℕ, List};
ghost use Rattle.mk_words.specs.Sorted.{IsSortOf};

/// Words have one order.
pub fn one_order()
    ensures { (ws a b : List (List ℕ)) → IsSortOf ws a → IsSortOf ws b → a ≡ b }
{}
