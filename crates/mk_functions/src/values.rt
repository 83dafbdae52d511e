//! What functions come to whose arguments are known.
ghost use Rattle.std.specs.Prelude.{◌≡◌, ℕ, List, Ok, Err, Result, decimal, IfOk, MatchResult, option_map};
ghost use Rattle.mk_functions.specs.Variables.{flavor_text, origin_text};
ghost use Rattle.mk_functions.specs.Scope.{variable_in};
ghost use Rattle.mk_functions.specs.Outcome.{given};
ghost use Rattle.mk_words.specs.declared.numbers.NumberFault.{NumberFault};
ghost use Rattle.mk_functions.specs.Values.{of_words, of_variable, of_two, of_three, counted};
ghost use Rattle.mk_functions.specs.Steps.{answers};
ghost use Rattle.mk_functions.specs.Shown.{variable_of, step_of};
ghost use Rattle.mk_functions.specs.Waiting.{site_at, stack_of};

use crate::fault::Fault;
use crate::limits::MAX_VALUE;
use crate::outside::Definitions;
use crate::scope::bound;
use crate::state::{Step, Waiting};
use crate::variable::{Flavor, Origin, Variable};
use mk_pieces::{Function, OfThree, OfTwo, OfVariable, OfWords};
use mk_words::{
    NumberFault, add_prefix, add_suffix, basename, dir, filter, filter_out, find_string,
    first_word, join, last_word, notdir, patsubst, sort, strip, subst, suffix, word, word_count,
    word_list,
};
use std::alloc::{AllocError, Global};

/// A value, unless it is too long.
pub(crate) fn given<'a>(bytes: Vec<u8>) -> Step<'a>
    ensures { step_of result ≡ answers (given bytes.items) }
{
    if bytes.len() > MAX_VALUE {
        Step::Fails(Fault::TooLong)
    } else {
        Step::Adds(bytes)
    }
}

/// The digits of a number.
fn digits(alloc: Global, number: usize) -> Result<Vec<u8>, AllocError>
    ensures { IfOk result (λ v. v.items ≡ decimal number) }
{
    let text = format!(in alloc; "{number}")?;
    Ok(text.into_bytes())
}

fn sorted(alloc: Global, text: &[u8]) -> Result<Vec<u8>, AllocError>
    ensures { IfOk result (λ v. v.items ≡ of_words OfWords.Sort text.now) }
{
    let made = sort(alloc, text)?;
    Ok(made)
}

pub(crate) fn of_words(alloc: Global, f: OfWords, text: &[u8]) -> Result<Vec<u8>, AllocError>
    ensures { IfOk result (λ v. v.items ≡ of_words f text.now) }
{
    match f {
        OfWords::Strip => strip(alloc, text),
        OfWords::Sort => sorted(alloc, text),
        OfWords::Words => digits(alloc, word_count(text)),
        OfWords::FirstWord => Vec::from_slice(alloc, first_word(text)),
        OfWords::LastWord => Vec::from_slice(alloc, last_word(text)),
        OfWords::Dir => dir(alloc, text),
        OfWords::NotDir => notdir(alloc, text),
        OfWords::Suffix => suffix(alloc, text),
        OfWords::BaseName => basename(alloc, text),
    }
}

fn flavor_text(flavor: Flavor) -> &'static [u8]
    ensures { result.now ≡ flavor_text flavor }
{
    match flavor {
        Flavor::Recursive => b"recursive",
        Flavor::Simple => b"simple",
    }
}

fn origin_text(origin: Origin) -> &'static [u8]
    ensures { result.now ≡ origin_text origin }
{
    match origin {
        Origin::Default => b"default",
        Origin::Environment => b"environment",
        Origin::EnvironmentOverride => b"environment override",
        Origin::File => b"file",
        Origin::CommandLine => b"command line",
        Origin::Override => b"override",
        Origin::Automatic => b"automatic",
    }
}

pub(crate) fn of_variable<'a>(f: OfVariable, variable: Option<Variable<'a>>) -> &'a [u8]
    ensures { result.now ≡ of_variable f (option_map variable_of variable.entry) }
{
    match (f, variable) {
        (OfVariable::Origin, Some(variable)) => origin_text(variable.origin),
        (OfVariable::Flavor, Some(variable)) => flavor_text(variable.flavor),
        (OfVariable::Value, Some(variable)) => variable.text,
        (OfVariable::Value, None) => &[],
        (OfVariable::Origin | OfVariable::Flavor, None) => b"undefined",
    }
}

/// What a name stands for.
pub(crate) fn variable_in<'a, V: Definitions>(
    variables: &'a V,
    callers: &'a [Waiting<'_>],
    name: &[u8],
) -> Option<Variable<'a>>
    ensures { option_map variable_of result ≡ variable_in (V.variables variables.now) (site_at (stack_of callers.now)).scope name.now }
{
    match bound(callers, name) {
        None => variables.variable(name),
        Some(value) => Some(Variable {
            text: value,
            flavor: Flavor::Simple,
            origin: Origin::Automatic,
        }),
    }
}

/// A value where numbers were asked for, unless one is wrong.
fn counted<'a>(
    alloc: Global,
    f: Function,
    found: Result<&[u8], NumberFault>,
) -> Result<Step<'a>, AllocError>
    ensures { IfOk result (λ s. (asked : Result (List ℕ) NumberFault) → MatchResult found.entry (λ text. asked ≡ Ok text.now) (λ fault. asked ≡ Err fault)
        → step_of s ≡ answers (counted f asked)) }
{
    match found {
        Ok(text) => Ok(given(Vec::from_slice(alloc, text)?)),
        Err(fault) => Ok(Step::Fails(Fault::Miscounts(f, fault))),
    }
}

pub(crate) fn of_two<'a>(
    alloc: Global,
    f: OfTwo,
    first: &[u8],
    text: &[u8],
) -> Result<Step<'a>, AllocError>
    ensures { IfOk result (λ s. step_of s ≡ answers (of_two f first.now text.now)) }
{
    let value = match f {
        OfTwo::Word => return counted(alloc, Function::OfTwo(f), word(first, text)),
        OfTwo::FindString => Vec::from_slice(alloc, find_string(first, text))?,
        OfTwo::Filter => filter(alloc, first, text)?,
        OfTwo::FilterOut => filter_out(alloc, first, text)?,
        OfTwo::AddSuffix => add_suffix(alloc, first, text)?,
        OfTwo::AddPrefix => add_prefix(alloc, first, text)?,
        OfTwo::Join => join(alloc, first, text)?,
    };
    Ok(given(value))
}

pub(crate) fn of_three<'a>(
    alloc: Global,
    f: OfThree,
    first: &[u8],
    second: &[u8],
    text: &[u8],
) -> Result<Step<'a>, AllocError>
    ensures { IfOk result (λ s. step_of s ≡ answers (of_three f first.now second.now text.now)) }
{
    match f {
        OfThree::Subst => Ok(given(subst(alloc, first, second, text)?)),
        OfThree::PatSubst => Ok(given(patsubst(alloc, first, second, text)?)),
        OfThree::WordList => counted(alloc, Function::OfThree(f), word_list(first, second, text)),
    }
}
