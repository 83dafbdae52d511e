//! What the tests of conditionals come to.
ghost use Rattle.std.specs.Prelude.{◌≡◌, IfOk, IfErr, Ok, Err, true, is_some, option_map};
ghost use Rattle.mk_conditionals.specs.Spelled.{asked_by, condition_of, equal, defined};
ghost use Rattle.mk_conditionals.specs.Machine.{Answered};
ghost use Rattle.mk_functions.specs.Shown.{variable_of};
ghost use Rattle.mk_functions.specs.Values.{Answers};
ghost use Rattle.mk_variables.specs.Table.{table_of};
ghost use Rattle.mk_taken.specs.Test.{has_text, Asks, Holds};
ghost use Rattle.mk_taken.specs.Reading.{Tests};
ghost use Rattle.mk_taken.specs.Shown.{Unanswered};

use crate::fault::NoAnswer;
use mk_conditionals::{Question, Test, tested_name};
use mk_functions::{Definitions, Outside, Variable, expand};
use mk_variables::Table;
use std::alloc::Global;

fn has_text(variable: Option<Variable<'_>>) -> bool
    ensures { result ≡ has_text (option_map variable_of variable.entry) }
{
    match variable {
        Some(variable) => !variable.text.is_empty(),
        None => false,
    }
}

fn is_equal<V: Definitions, O: Outside>(
    alloc: Global,
    variables: &V,
    outside: &mut O,
    first: &[u8],
    second: &[u8],
) -> Result<bool, NoAnswer>
    ensures told { (w : Answers) → O.allows outside.new w → IfOk result (λ is. Asks w (V.variables variables.now) (equal first.now second.now) (Ok is)) }
    ensures refused { (w : Answers) → O.allows outside.new w
        → IfErr result (Unanswered (λ why. Asks w (V.variables variables.now) (equal first.now second.now) (Err why))) }
    ensures narrows { (w : Answers) → O.allows outside.new w → O.allows outside.old w }
{
    let one = expand(alloc, variables, outside, first)?;
    let two = expand(alloc, variables, outside, second)?;
    Ok(one.as_slice() == two.as_slice())
}

fn is_defined<V: Definitions, O: Outside>(
    alloc: Global,
    variables: &V,
    outside: &mut O,
    text: &[u8],
) -> Result<bool, NoAnswer>
    ensures told { (w : Answers) → O.allows outside.new w → IfOk result (λ is. Asks w (V.variables variables.now) (defined text.now) (Ok is)) }
    ensures refused { (w : Answers) → O.allows outside.new w
        → IfErr result (Unanswered (λ why. Asks w (V.variables variables.now) (defined text.now) (Err why))) }
    ensures narrows { (w : Answers) → O.allows outside.new w → O.allows outside.old w }
{
    let name = expand(alloc, variables, outside, text)?;
    match tested_name(name.as_slice()) {
        Some(name) => Ok(has_text(variables.variable(name))),
        None => Err(NoAnswer::NoTest),
    }
}

fn answer_to<V: Definitions, O: Outside>(
    alloc: Global,
    variables: &V,
    outside: &mut O,
    question: Question<'_>,
) -> Result<bool, NoAnswer>
    ensures told { (w : Answers) → O.allows outside.new w → IfOk result (λ is. Asks w (V.variables variables.now) (asked_by question.entry) (Ok is)) }
    ensures refused { (w : Answers) → O.allows outside.new w
        → IfErr result (Unanswered (λ why. Asks w (V.variables variables.now) (asked_by question.entry) (Err why))) }
    ensures narrows { (w : Answers) → O.allows outside.new w → O.allows outside.old w }
{
    match question {
        Question::Equal(first, second) => is_equal(alloc, variables, outside, first, second),
        Question::Defined(text) => is_defined(alloc, variables, outside, text),
        Question::Invalid => Err(NoAnswer::NoTest),
    }
}

/// Whether a test holds.
fn holds<V: Definitions, O: Outside>(
    alloc: Global,
    variables: &V,
    outside: &mut O,
    test: Test<'_>,
) -> Result<bool, NoAnswer>
    ensures told { (w : Answers) → O.allows outside.new w → IfOk result (λ is. Holds w (V.variables variables.now) (condition_of test.entry) (Ok is)) }
    ensures refused { (w : Answers) → O.allows outside.new w
        → IfErr result (Unanswered (λ why. Holds w (V.variables variables.now) (condition_of test.entry) (Err why))) }
    ensures narrows { (w : Answers) → O.allows outside.new w → O.allows outside.old w }
{
    let is = answer_to(alloc, variables, outside, test.question)?;
    Ok(is != test.is_negated)
}

/// Whether a test holds, where that is asked.
pub(crate) fn asked<O: Outside>(
    alloc: Global,
    table: &Table,
    outside: &mut O,
    is_wanted: bool,
    test: Test<'_>,
) -> Result<Option<bool>, NoAnswer>
    ensures told { (w : Answers) → O.allows outside.new w
        → IfOk result (Answered (Tests w (table_of table.now)) is_wanted tt (condition_of test.entry)) }
    ensures refused { (w : Answers) → O.allows outside.new w
        → IfErr result (Unanswered (λ why. (is_wanted ≡ true) × Tests w (table_of table.now) tt (condition_of test.entry) (Err why))) }
    ensures wanted { IfOk result (λ holds. is_some holds ≡ is_wanted) }
    ensures narrows { (w : Answers) → O.allows outside.new w → O.allows outside.old w }
{
    if !is_wanted {
        return Ok(None);
    }
    let is = holds(alloc, table, outside, test)?;
    Ok(Some(is))
}
