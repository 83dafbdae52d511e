//! What holds of the definitions alone. What the functions ensure are the laws.
ghost use Rattle.std.specs.Prelude.{◌≡◌, ℕ, true, List, Option, Some, bytes_eq};
ghost use Rattle.std.specs.List.{list_any};
ghost use Rattle.mk_functions.specs.Variables.{Variable, Variables};
ghost use Rattle.mk_functions.specs.Values.{Answers};
ghost use Rattle.mk_functions.specs.declared.variable.Flavor.TheVariants.{Recursive};
ghost use Rattle.mk_target_lines.specs.Comes.{Told, Comes};

/// A line comes to one thing.
pub fn one_outcome()
    ensures { (w : Answers) (variables : Variables) (recipe : Option (List ℕ)) (text : List ℕ) (one other : Told)
        → Comes w variables recipe text one → Comes w variables recipe text other → one ≡ other }
{
    mk_functions::laws::one_outcome();
}

/// A line comes to something, where finitely many names are those of recursive variables.
pub fn an_outcome()
    ensures { (w : Answers) (variables : Variables) (listed : List (List ℕ))
        → ((name : List ℕ) (v : Variable) → variables name ≡ Some v → v.flavor ≡ Recursive → list_any (bytes_eq name) listed ≡ true)
        → (recipe : Option (List ℕ)) (text : List ℕ) → (told : Told) × Comes w variables recipe text told }
{
    mk_functions::laws::an_outcome();
}
