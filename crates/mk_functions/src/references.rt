//! References to variables.
ghost use Rattle.std.specs.Prelude.{◌≡◌, ◌∷◌, IfOk};
ghost use Rattle.mk_pieces.specs.Shown.{use_of};
ghost use Rattle.mk_pieces.specs.Piece.{named};
ghost use Rattle.mk_functions.specs.Steps.{used, opened_step, reference_step, named_step};
ghost use Rattle.mk_functions.specs.Shown.{taken_of, step_of};
ghost use Rattle.mk_functions.specs.Waiting.{site_at, stack_of};

use crate::fault::Fault;
use crate::outside::Definitions;
use crate::scope::{bound, is_opened};
use crate::state::{Entry, State, Step, Taken, Waiting};
use crate::variable::Flavor;
use mk_pieces::{Use, named};
use mk_words::substitution;
use std::alloc::{AllocError, Global};

/// What a reference takes of a value.
fn used(alloc: Global, taken: Use<'_>, value: &[u8]) -> Result<Vec<u8>, AllocError>
    ensures { IfOk result (λ v. v.items ≡ used (use_of taken.entry) value.now) }
{
    match taken {
        Use::Whole => Vec::from_slice(alloc, value),
        Use::Substituted(from, to) => substitution(alloc, from, to, value),
    }
}

impl Taken {
    fn new(alloc: Global, taken: Use<'_>) -> Result<Taken, AllocError>
        ensures { IfOk result (λ t. taken_of t ≡ use_of taken.entry) }
    {
        match taken {
            Use::Whole => Ok(Taken::Whole),
            Use::Substituted(from, to) => Ok(Taken::Substituted(
                Vec::from_slice(alloc, from)?,
                Vec::from_slice(alloc, to)?,
            )),
        }
    }

    /// What it takes of a value.
    pub(crate) fn of(self, alloc: Global, value: Vec<u8>) -> Result<Vec<u8>, AllocError>
        ensures { IfOk result (λ v. v.items ≡ used (taken_of self) value.items) }
    {
        match self {
            Taken::Whole => Ok(value),
            Taken::Substituted(from, to) => substitution(
                alloc,
                from.as_slice(),
                to.as_slice(),
                value.as_slice(),
            ),
        }
    }
}

/// A reference to a recursive variable.
fn opened_step<'a>(
    alloc: Global,
    callers: &[Waiting<'_>],
    name: &[u8],
    text: &'a [u8],
    taken: Use<'_>,
) -> Result<Step<'a>, AllocError>
    ensures { IfOk result (λ s. step_of s ≡ opened_step (site_at (stack_of callers.now)).opened name.now text.now (use_of taken.entry)) }
{
    let name_text = Vec::from_slice(alloc, name)?;
    if is_opened(callers, name) {
        return Ok(Step::Fails(Fault::RefersToItself(name_text)));
    }
    let taken = Taken::new(alloc, taken)?;
    Ok(Step::Asks(Entry::Opens(name_text), text, State::ValueOf(taken)))
}

pub(crate) fn reference_step<'a, V: Definitions>(
    alloc: Global,
    variables: &'a V,
    callers: &[Waiting<'_>],
    name: &[u8],
    taken: Use<'_>,
) -> Result<Step<'a>, AllocError>
    ensures { IfOk result (λ s. step_of s ≡ reference_step (V.variables variables.now) (site_at (stack_of callers.now)) name.now (use_of taken.entry)) }
{
    if let Some(value) = bound(callers, name) {
        return Ok(Step::Adds(used(alloc, taken, value)?));
    }
    let Some(variable) = variables.variable(name) else {
        return Ok(Step::Adds(Vec::new(alloc)));
    };
    match variable.flavor {
        Flavor::Simple => Ok(Step::Adds(used(alloc, taken, variable.text)?)),
        Flavor::Recursive => opened_step(alloc, callers, name, variable.text, taken),
    }
}

/// A reference by a name that brackets came to.
pub(crate) fn named_step<'a, V: Definitions>(
    alloc: Global,
    variables: &'a V,
    callers: &[Waiting<'_>],
    value: &[u8],
) -> Result<Step<'a>, AllocError>
    ensures { IfOk result (λ s. step_of s ≡ named_step (V.variables variables.now) (site_at (stack_of callers.now)) (named value.now)) }
{
    let (name, taken) = named(value);
    reference_step(alloc, variables, callers, name, taken)
}
