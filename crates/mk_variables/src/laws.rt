//! What holds of the definitions alone. What the functions ensure are the laws.
ghost use Rattle.std.specs.Prelude.{◌≡◌, ℕ, List};
ghost use Rattle.mk_assignments.specs.Line.{Said};
ghost use Rattle.mk_functions.specs.Values.{Answers};
ghost use Rattle.mk_variables.specs.Table.{Listed, Table, table_of};
ghost use Rattle.mk_variables.specs.Statement.{Told, Takes};

/// A statement makes one thing of the variables.
pub fn one_outcome()
    ensures { (w : Answers) (table : Table) (said : Said) (lines : List ℕ) (one other : Told)
        → Takes w table said lines one → Takes w table said lines other → one ≡ other }
{
    mk_functions::laws::one_outcome();
}

/// A statement makes something of the variables, or is refused.
pub fn an_outcome()
    ensures { (w : Answers) (listed : Listed) (said : Said) (lines : List ℕ) → (told : Told) × Takes w (table_of listed) said lines told }
{
    mk_functions::laws::an_outcome();
}
