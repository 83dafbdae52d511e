//! Functions whose arguments are all expanded, and `call`.
ghost use Rattle.std.specs.Prelude.{◌≡◌, ◌∷◌, ◌<◌, drop, length, IfOk};
ghost use Rattle.mk_functions.specs.Values.{Answers};
ghost use Rattle.mk_functions.specs.Scope.{variable_in, value_count, padded};
ghost use Rattle.mk_functions.specs.Steps.{called_variable, call_step, applied_step, argument_step};
ghost use Rattle.mk_functions.specs.Shown.{texts, step_of};
ghost use Rattle.mk_functions.specs.Waiting.{site_at, stack_of};

use crate::applied::applied;
use crate::outside::{Definitions, Outside};
use crate::scope::{bound, value_count};
use crate::state::{Entry, State, Step, Waiting};
use crate::values::given;
use crate::variable::Flavor;
use mk_pieces::{Arguments, Function, function_named};
use mk_words::first_word;
use std::alloc::{AllocError, Global};

/// Values with this name in the place of the first.
fn with_name(values: Vec<Vec<u8>>, name: Vec<u8>) -> Vec<Vec<u8>>
    requires { 0 < length values.items }
    ensures { texts result.items ≡ name.items ∷ drop 1 (texts values.items) }
{
    let mut values = values;
    values[0] = name;
    values
}

/// Values, with empty ones behind them up to so many.
fn padded(alloc: Global, count: usize, values: Vec<Vec<u8>>) -> Result<Vec<Vec<u8>>, AllocError>
    ensures { IfOk result (λ v. texts v.items ≡ padded count (texts values.items)) }
{
    let mut values = values;
    while values.len() < count {
        values.push(Vec::new(alloc))?;
    }
    Ok(values)
}

/// A variable that is called with these values, of which the first is taken for its name.
fn called_variable<'a, V: Definitions>(
    alloc: Global,
    variables: &'a V,
    callers: &[Waiting<'_>],
    name: Vec<u8>,
    values: Vec<Vec<u8>>,
) -> Result<Step<'a>, AllocError>
    requires { 0 < length values.items }
    ensures { IfOk result (λ s. step_of s
        ≡ called_variable (variable_in (V.variables variables.now) (site_at (stack_of callers.now)).scope name.items) (value_count (site_at (stack_of callers.now)).scope)
        (name.items ∷ drop 1 (texts values.items))) }
{
    if let Some(value) = bound(callers, name.as_slice()) {
        return Ok(given(Vec::from_slice(alloc, value)?));
    }
    let Some(variable) = variables.variable(name.as_slice()) else {
        return Ok(Step::Adds(Vec::new(alloc)));
    };
    match variable.flavor {
        Flavor::Simple => Ok(given(Vec::from_slice(alloc, variable.text)?)),
        Flavor::Recursive => {
            let values = padded(alloc, value_count(callers), with_name(values, name))?;
            Ok(Step::Asks(Entry::Passes(values), variable.text, State::Last))
        }
    }
}

/// What `call` comes to, by its values.
fn call_step<'a, V: Definitions, O: Outside>(
    alloc: Global,
    variables: &'a V,
    outside: &mut O,
    callers: &[Waiting<'_>],
    values: Vec<Vec<u8>>,
) -> Result<Step<'a>, AllocError>
    ensures step { (w : Answers) → O.allows outside.new w
        → IfOk result (λ s. step_of s ≡ call_step w (V.variables variables.now) (site_at (stack_of callers.now)) (texts values.items)) }
    ensures narrows { (w : Answers) → O.allows outside.new w → O.allows outside.old w }
{
    let Some((first, others)) = values.split_first() else {
        return Ok(Step::Adds(Vec::new(alloc)));
    };
    let name = Vec::from_slice(alloc, first_word(first.as_slice()))?;
    if name.is_empty() {
        return Ok(Step::Adds(Vec::new(alloc)));
    }
    if let Some(f) = function_named(name.as_slice()) {
        return applied(alloc, variables, outside, callers, f, others);
    }
    called_variable(alloc, variables, callers, name, values)
}

fn applied_step<'a, V: Definitions, O: Outside>(
    alloc: Global,
    variables: &'a V,
    outside: &mut O,
    callers: &[Waiting<'_>],
    f: Function,
    values: Vec<Vec<u8>>,
) -> Result<Step<'a>, AllocError>
    ensures step { (w : Answers) → O.allows outside.new w
        → IfOk result (λ s. step_of s ≡ applied_step w (V.variables variables.now) (site_at (stack_of callers.now)) f (texts values.items)) }
    ensures narrows { (w : Answers) → O.allows outside.new w → O.allows outside.old w }
{
    match f {
        Function::Call => call_step(alloc, variables, outside, callers, values),
        _ => applied(alloc, variables, outside, callers, f, values.as_slice()),
    }
}

/// The next argument of a function, or what the function comes to.
pub(crate) fn argument_step<'a, V: Definitions, O: Outside>(
    alloc: Global,
    variables: &'a V,
    outside: &mut O,
    callers: &[Waiting<'_>],
    f: Function,
    values: Vec<Vec<u8>>,
    left: Arguments<'a>,
) -> Result<Step<'a>, AllocError>
    ensures step { (w : Answers) → O.allows outside.new w
        → IfOk result (λ s. step_of s ≡ argument_step w (V.variables variables.now) (site_at (stack_of callers.now)) f (texts values.items) left.entry) }
    ensures narrows { (w : Answers) → O.allows outside.new w → O.allows outside.old w }
{
    let mut left = left;
    match left.next() {
        None => applied_step(alloc, variables, outside, callers, f, values),
        Some(text) => Ok(Step::Asks(Entry::Stays, text, State::Argument(f, values, left))),
    }
}
