//! What conditionals' lines make of those that are open.
ghost use Rattle.std.specs.Prelude.{Ok, Err, OnOk, IfErr};
ghost use Rattle.mk_conditionals.specs.Spelled.{with_conditions};
ghost use Rattle.mk_functions.specs.Values.{Answers};
ghost use Rattle.mk_variables.specs.Table.{table_of};
ghost use Rattle.mk_taken.specs.Reading.{Turns};
ghost use Rattle.mk_taken.specs.Shown.{IsUnturned};

use crate::fault::Unturned;
use crate::test::asked;
use mk_conditionals::{Directive, Nest, Test};
use mk_functions::Outside;
use mk_variables::Table;
use std::alloc::Global;

/// Takes the directive of this line. A test is asked where it decides of lines, and nowhere else.
pub(crate) fn turn<O: Outside>(
    nest: &mut Nest,
    alloc: Global,
    table: &Table,
    outside: &mut O,
    number: usize,
    directive: Directive<Test<'_>>,
) -> Result<(), Unturned>
    ensures told { (w : Answers) → O.allows outside.new w
        → OnOk result (Turns w (table_of table.now) nest.old number (with_conditions directive.entry) (Ok nest.new)) }
    ensures refused { (w : Answers) → O.allows outside.new w
        → IfErr result (IsUnturned (λ why. Turns w (table_of table.now) nest.old number (with_conditions directive.entry) (Err why))) }
    ensures narrows { (w : Answers) → O.allows outside.new w → O.allows outside.old w }
{
    match directive {
        Directive::Begins(test) => {
            let holds = asked(alloc, table, outside, nest.is_active(), test)?;
            nest.begin(number, holds)?;
            Ok(())
        }
        Directive::Turns(Some(test)) => {
            let holds = asked(alloc, table, outside, nest.wants_test(), test)?;
            nest.turn_if(holds)?;
            Ok(())
        }
        Directive::Turns(None) => {
            nest.turn()?;
            Ok(())
        }
        Directive::Ends => {
            nest.end()?;
            Ok(())
        }
    }
}
