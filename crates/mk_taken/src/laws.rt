//! What holds of the definitions alone. What the functions ensure are the laws.
ghost use Rattle.std.specs.Prelude.{◌≡◌, List};
ghost use Rattle.mk_conditionals.specs.declared.branch.Branch.{Branch};
ghost use Rattle.mk_functions.specs.Values.{Answers};
ghost use Rattle.mk_statements.specs.Reading.{Stated};
ghost use Rattle.mk_statements.specs.declared.course.Rule.{Rule};
ghost use Rattle.mk_variables.specs.Table.{Listed, table_of};
ghost use Rattle.mk_taken.specs.Place.{Place, Outcome};
ghost use Rattle.mk_taken.specs.Reading.{Reads};

/// Statements come to one thing.
pub fn one_outcome()
    ensures { (w : Answers) (left : List Stated) (place : Place) (one other : Outcome) → Reads w left place one → Reads w left place other → one ≡ other }
{
    mk_functions::laws::one_outcome();
    mk_variables::laws::one_outcome();
}

/// Statements come to something, where finitely many names have a variable.
pub fn an_outcome()
    ensures { (w : Answers) (left : List Stated) (listed : Listed) (nest : List Branch) (rule : Rule)
        → (outcome : Outcome) × Reads w left (record { table = table_of listed; nest = nest; rule = rule }) outcome }
{
    mk_functions::laws::an_outcome();
    mk_variables::laws::an_outcome();
}
