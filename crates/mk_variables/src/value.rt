//! The values of definitions: what is taken of their texts.
ghost use Rattle.std.specs.Prelude.{◌≡◌, IfOk, IfErr, OnOk, OnErr, option_map};
ghost use Rattle.mk_functions.specs.Outcome.{gives};
ghost use Rattle.mk_functions.specs.Shown.{variable_of};
ghost use Rattle.mk_functions.specs.Values.{Answers};
ghost use Rattle.mk_functions.specs.Waiting.{IsStop};
ghost use Rattle.mk_variables.specs.Definition.{taken_by, taken_into, IsValue, flavor_by, text_by, joined};
ghost use Rattle.mk_variables.specs.declared.value.Taken.TheVariants.{Output};
ghost use Rattle.mk_variables.specs.Shown.{IsNoValue};

use mk_assignments::Sign;
use mk_functions::{Definitions, Flavor, Outside, Stop, Variable, expand};
use mk_pieces::Question;
use mk_words::subst;
use std::alloc::{AllocError, Global};

/// What a definition takes of its text.
#[derive(Clone, Copy)]
pub(crate) enum Taken {
    AsWritten,
    Expanded,
    /// What the command writes that the text comes to.
    Output,
}

fn taken_into(flavor: Flavor) -> Taken
    ensures { result ≡ taken_into flavor }
{
    match flavor {
        Flavor::Recursive => Taken::AsWritten,
        Flavor::Simple => Taken::Expanded,
    }
}

/// What a sign takes, where this is there.
pub(crate) fn taken_by(sign: Sign, there: Option<Variable<'_>>) -> Taken
    ensures { result ≡ taken_by sign (option_map variable_of there.entry) }
{
    match sign {
        Sign::Recursive | Sign::Conditional => Taken::AsWritten,
        Sign::Simple | Sign::Immediate => Taken::Expanded,
        Sign::Shell => Taken::Output,
        Sign::Appending => match there {
            None => Taken::AsWritten,
            Some(variable) => taken_into(variable.flavor),
        },
    }
}

fn output_of<V: Definitions, O: Outside>(
    alloc: Global,
    variables: &V,
    outside: &mut O,
    text: &[u8],
) -> Result<Vec<u8>, Stop>
    ensures value { (w : Answers) → O.allows outside.new w → IfOk result (λ v. IsValue w (V.variables variables.now) Output text.now (gives v.items)) }
    ensures fault { (w : Answers) → O.allows outside.new w → IfErr result (IsNoValue w (V.variables variables.now) Output text.now) }
    ensures narrows { (w : Answers) → O.allows outside.new w → O.allows outside.old w }
{
    let command = expand(alloc, variables, outside, text)?;
    Ok(outside.answer(alloc, Question::Shell, command.as_slice())?)
}

/// The value of a definition with this text.
pub(crate) fn value_of<V: Definitions, O: Outside>(
    alloc: Global,
    variables: &V,
    outside: &mut O,
    taken: Taken,
    text: &[u8],
) -> Result<Vec<u8>, Stop>
    ensures value { (w : Answers) → O.allows outside.new w → IfOk result (λ v. IsValue w (V.variables variables.now) taken text.now (gives v.items)) }
    ensures fault { (w : Answers) → O.allows outside.new w → IfErr result (IsNoValue w (V.variables variables.now) taken text.now) }
    ensures narrows { (w : Answers) → O.allows outside.new w → O.allows outside.old w }
{
    match taken {
        Taken::AsWritten => Ok(Vec::from_slice(alloc, text)?),
        Taken::Expanded => expand(alloc, variables, outside, text),
        Taken::Output => output_of(alloc, variables, outside, text),
    }
}

pub(crate) fn flavor_by(sign: Sign) -> Flavor
    ensures { result ≡ flavor_by sign }
{
    match sign {
        Sign::Simple => Flavor::Simple,
        Sign::Recursive | Sign::Immediate | Sign::Conditional | Sign::Appending | Sign::Shell =>
            Flavor::Recursive,
    }
}

/// The text of what a sign defines anew.
pub(crate) fn text_by(alloc: Global, sign: Sign, value: Vec<u8>) -> Result<Vec<u8>, AllocError>
    ensures { IfOk result (λ v. v.items ≡ text_by sign value.items) }
{
    match sign {
        Sign::Immediate => subst(alloc, b"$", b"$$", value.as_slice()),
        Sign::Recursive | Sign::Simple | Sign::Conditional | Sign::Appending | Sign::Shell => Ok(
            value,
        ),
    }
}

/// Puts a text behind another one and a space, or alone where there is none.
pub(crate) fn join(text: &mut Vec<u8>, value: &[u8]) -> Result<(), AllocError>
    ensures ok { OnOk result (text.new.items ≡ joined text.old.items value.now) }
    ensures err { OnErr result (text.new.items ≡ text.old.items) }
{
    if text.is_empty() {
        return text.extend_from_slice(value);
    }
    text.reserve(value.len() + 1)?;
    text.push(b' ').unwrap();
    text.extend_from_slice(value).unwrap();
    Ok(())
}
