//! What holds of the definitions alone. What the functions ensure are the laws.
ghost use Rattle.std.specs.Prelude.{◌≡◌, ℕ, List};
ghost use Rattle.mk_variables.specs.Table.{Listed, table_of};
ghost use Rattle.mk_gnu_eval.specs.Item.{Item, Progress, Outcome};
ghost use Rattle.mk_gnu_eval.specs.Reading.{Text, Named};
ghost use Rattle.mk_gnu_eval.specs.World.{World};

/// A text comes to one thing.
pub fn one_outcome()
    ensures { (world : World) (levels : ℕ) (file text : List ℕ) (now : Progress) (one other : Outcome)
        → Text world (Named world levels) file text now one → Text world (Named world levels) file text now other → one ≡ other }
{
    mk_functions::laws::one_outcome();
    mk_variables::laws::one_outcome();
    mk_target_lines::laws::one_outcome();
}

/// A text comes to something, where finitely many names have a variable.
pub fn an_outcome()
    ensures { (world : World) (levels : ℕ) (file text : List ℕ) (listed : Listed) (items : List Item)
        → (outcome : Outcome) × Text world (Named world levels) file text (record { table = table_of listed; items = items }) outcome }
{
    mk_functions::laws::an_outcome();
    mk_variables::laws::an_outcome();
    mk_target_lines::laws::an_outcome();
}
