//! Functions that are called with the values of their arguments. Further values are passed over.
ghost use Rattle.std.specs.Prelude.{◌≡◌, ◌++◌, [], IfOk};
ghost use Rattle.mk_functions.specs.Variables.{Variables};
ghost use Rattle.mk_functions.specs.Scope.{variable_in};
ghost use Rattle.mk_functions.specs.Outcome.{gives};
ghost use Rattle.mk_functions.specs.Values.{Answers, behind_commas, applied};
ghost use Rattle.mk_functions.specs.Steps.{answers};
ghost use Rattle.mk_functions.specs.Shown.{texts, step_of};
ghost use Rattle.mk_functions.specs.Waiting.{site_at, stack_of};

use crate::fault::Fault;
use crate::outside::{Definitions, Outside};
use crate::state::{Step, Waiting};
use crate::values::{given, of_three, of_two, of_variable, of_words, variable_in};
use mk_pieces::{Function, Message, OfThree, OfTwo, OfVariable, OfWords, Question};
use std::alloc::{AllocError, Global};

fn nothing<'a>(alloc: Global) -> Step<'a>
    ensures { step_of result ≡ answers (gives []) }
{
    Step::Adds(Vec::new(alloc))
}

fn apply_of_words<'a>(alloc: Global, f: OfWords, values: &[Vec<u8>]) -> Result<Step<'a>, AllocError>
    ensures { IfOk result (λ s. (w : Answers) (variables : Variables) → step_of s ≡ answers (applied w variables (Function.OfWords f) (texts values.now))) }
{
    match values.first() {
        None => Ok(nothing(alloc)),
        Some(text) => Ok(given(of_words(alloc, f, text.as_slice())?)),
    }
}

fn apply_of_variable<'a, V: Definitions>(
    alloc: Global,
    variables: &V,
    callers: &[Waiting<'_>],
    f: OfVariable,
    values: &[Vec<u8>],
) -> Result<Step<'a>, AllocError>
    ensures { IfOk result (λ s. (w : Answers)
        → step_of s ≡ answers (applied w (variable_in (V.variables variables.now) (site_at (stack_of callers.now)).scope) (Function.OfVariable f) (texts values.now))) }
{
    match values.first() {
        None => Ok(nothing(alloc)),
        Some(name) => {
            let variable = variable_in(variables, callers, name.as_slice());
            Ok(given(Vec::from_slice(alloc, of_variable(f, variable))?))
        }
    }
}

fn ask<'a, O: Outside>(
    alloc: Global,
    outside: &mut O,
    question: Question,
    values: &[Vec<u8>],
) -> Result<Step<'a>, AllocError>
    ensures step { (w : Answers) → O.allows outside.new w
        → IfOk result (λ s. (variables : Variables) → step_of s ≡ answers (applied w variables (Function.Asks question) (texts values.now))) }
    ensures narrows { (w : Answers) → O.allows outside.new w → O.allows outside.old w }
{
    match values.first() {
        None => Ok(nothing(alloc)),
        Some(text) => Ok(given(outside.answer(alloc, question, text.as_slice())?)),
    }
}

/// A message that further values are a part of, each behind a comma and a space.
fn message_of(alloc: Global, first: &[u8], more: &[Vec<u8>]) -> Result<Vec<u8>, AllocError>
    ensures { IfOk result (λ v. v.items ≡ first.now ++ behind_commas (texts more.now)) }
{
    let mut out = Vec::from_slice(alloc, first)?;
    let mut left = more;
    while let Some((text, others)) = left.split_first() {
        out.push(b',')?;
        out.push(b' ')?;
        out.extend_from_slice(text.as_slice())?;
        left = others;
    }
    Ok(out)
}

fn say<'a, O: Outside>(
    alloc: Global,
    outside: &mut O,
    message: Message,
    values: &[Vec<u8>],
) -> Result<Step<'a>, AllocError>
    ensures step { IfOk result (λ s. (w : Answers) (variables : Variables) → step_of s ≡ answers (applied w variables (Function.Says message) (texts values.now))) }
    ensures narrows { (w : Answers) → O.allows outside.new w → O.allows outside.old w }
{
    if let Some((text, more)) = values.split_first() {
        let said = message_of(alloc, text.as_slice(), more)?;
        outside.say(alloc, message, said.as_slice())?;
    }
    Ok(nothing(alloc))
}

/// What `error` comes to.
fn tell<'a>(alloc: Global, values: &[Vec<u8>]) -> Result<Step<'a>, AllocError>
    ensures { IfOk result (λ s. (w : Answers) (variables : Variables) → step_of s ≡ answers (applied w variables Function.Error (texts values.now))) }
{
    match values.split_first() {
        None => Ok(nothing(alloc)),
        Some((text, more)) => {
            let told = message_of(alloc, text.as_slice(), more)?;
            Ok(Step::Fails(Fault::Told(told)))
        }
    }
}

fn apply_of_two<'a>(alloc: Global, f: OfTwo, values: &[Vec<u8>]) -> Result<Step<'a>, AllocError>
    ensures { IfOk result (λ s. (w : Answers) (variables : Variables) → step_of s ≡ answers (applied w variables (Function.OfTwo f) (texts values.now))) }
{
    match values {
        [first, text, ..] => of_two(alloc, f, first.as_slice(), text.as_slice()),
        _ => Ok(Step::Fails(Fault::TooFew(Function::OfTwo(f)))),
    }
}

fn apply_of_three<'a>(alloc: Global, f: OfThree, values: &[Vec<u8>]) -> Result<Step<'a>, AllocError>
    ensures { IfOk result (λ s. (w : Answers) (variables : Variables) → step_of s ≡ answers (applied w variables (Function.OfThree f) (texts values.now))) }
{
    match values {
        [first, second, text, ..] => of_three(
            alloc,
            f,
            first.as_slice(),
            second.as_slice(),
            text.as_slice(),
        ),
        _ => Ok(Step::Fails(Fault::TooFew(Function::OfThree(f)))),
    }
}

/// What a function comes to, by the values of its arguments.
pub(crate) fn applied<'a, V: Definitions, O: Outside>(
    alloc: Global,
    variables: &V,
    outside: &mut O,
    callers: &[Waiting<'_>],
    f: Function,
    values: &[Vec<u8>],
) -> Result<Step<'a>, AllocError>
    ensures step { (w : Answers) → O.allows outside.new w
        → IfOk result (λ s. step_of s ≡ answers (applied w (variable_in (V.variables variables.now) (site_at (stack_of callers.now)).scope) f (texts values.now))) }
    ensures narrows { (w : Answers) → O.allows outside.new w → O.allows outside.old w }
{
    match f {
        Function::OfWords(f) => apply_of_words(alloc, f, values),
        Function::OfVariable(f) => apply_of_variable(alloc, variables, callers, f, values),
        Function::Asks(question) => ask(alloc, outside, question, values),
        Function::Says(message) => say(alloc, outside, message, values),
        Function::Error => tell(alloc, values),
        Function::OfTwo(f) => apply_of_two(alloc, f, values),
        Function::OfThree(f) => apply_of_three(alloc, f, values),
        Function::Refused(refused) => Ok(Step::Fails(Fault::Refuses(refused))),
        Function::If | Function::Or | Function::And | Function::Foreach | Function::Call => {
            Ok(Step::Fails(Fault::NotCalled(f)))
        }
    }
}
