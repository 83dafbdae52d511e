//! The steps of `if`, `or`, `and` and `foreach`.
ghost use Rattle.std.specs.Prelude.{◌≡◌, ◌∷◌, [], if◌then◌else◌, length, reverse, Some, None, option_map, IfOk};
ghost use Rattle.byte_strings.specs.Blanks.{is_nonempty};
ghost use Rattle.mk_words.specs.Words.{words_of};
ghost use Rattle.mk_functions.specs.Outcome.{gives};
ghost use Rattle.mk_functions.specs.Steps.{answers, trimmed, branch_step, chosen_step, if_step, or_step, and_step, foreach_step, made_or_nothing, behind_made, loop_step};
ghost use Rattle.mk_functions.specs.Shown.{texts, step_of};

use crate::fault::Fault;
use crate::limits::MAX_VALUE;
use crate::state::{Entry, Loop, State, Step};
use crate::values::given;
use mk_pieces::{Arguments, Function};
use mk_words::{before_spaces, behind_spaces, next_word};
use std::alloc::{AllocError, Global};

fn trimmed(text: &[u8]) -> &[u8]
    ensures { result.now ≡ trimmed text.now }
{
    before_spaces(behind_spaces(text))
}

fn branch_step(alloc: Global, branches: Arguments<'_>) -> Step<'_>
    ensures { step_of result ≡ branch_step branches.entry }
{
    let mut branches = branches;
    match branches.next() {
        None => Step::Adds(Vec::new(alloc)),
        Some(text) => Step::Asks(Entry::Stays, text, State::Last),
    }
}

/// The first branch, or one of the others.
pub(crate) fn chosen_step<'a>(
    alloc: Global,
    value: &[u8],
    one: &'a [u8],
    others: Arguments<'a>,
) -> Step<'a>
    ensures { step_of result ≡ chosen_step value.now (one.now ∷ others.entry) }
{
    if value.is_empty() {
        branch_step(alloc, others)
    } else {
        Step::Asks(Entry::Stays, one, State::Last)
    }
}

pub(crate) fn if_step(arguments: Arguments<'_>) -> Step<'_>
    ensures { step_of result ≡ if_step arguments.entry }
{
    let mut left = arguments;
    let Some(text) = left.next() else {
        return Step::Fails(Fault::TooFew(Function::If));
    };
    let Some(one) = left.next() else {
        return Step::Fails(Fault::TooFew(Function::If));
    };
    Step::Asks(Entry::Stays, trimmed(text), State::Condition(one, left))
}

pub(crate) fn or_step(alloc: Global, arguments: Arguments<'_>) -> Step<'_>
    ensures { step_of result ≡ or_step arguments.entry }
{
    let mut left = arguments;
    match left.next() {
        None => Step::Adds(Vec::new(alloc)),
        Some(text) => Step::Asks(Entry::Stays, trimmed(text), State::OrArgument(left)),
    }
}

/// Behind a value of `or`.
pub(crate) fn or_value(alloc: Global, value: Vec<u8>, left: Arguments<'_>) -> Step<'_>
    ensures { step_of result ≡ (if is_nonempty value.items then answers (gives value.items) else or_step left.entry) }
{
    if value.is_empty() {
        or_step(alloc, left)
    } else {
        Step::Adds(value)
    }
}

/// Behind a value of `and`.
pub(crate) fn and_value(alloc: Global, value: Vec<u8>, left: Arguments<'_>) -> Step<'_>
    ensures { step_of result ≡ (if is_nonempty value.items then and_step value.items left.entry else answers (gives [])) }
{
    if value.is_empty() {
        Step::Adds(Vec::new(alloc))
    } else {
        and_step(value, left)
    }
}

/// Behind a value that isn't empty.
pub(crate) fn and_step(value: Vec<u8>, arguments: Arguments<'_>) -> Step<'_>
    ensures { step_of result ≡ and_step value.items arguments.entry }
{
    let mut left = arguments;
    match left.next() {
        None => Step::Adds(value),
        Some(text) => Step::Asks(Entry::Stays, trimmed(text), State::AndArgument(left)),
    }
}

pub(crate) fn foreach_step(arguments: Arguments<'_>) -> Step<'_>
    ensures { step_of result ≡ foreach_step arguments.entry }
{
    let mut left = arguments;
    let Some(name) = left.next() else {
        return Step::Fails(Fault::TooFew(Function::Foreach));
    };
    let Some(list) = left.next() else {
        return Step::Fails(Fault::TooFew(Function::Foreach));
    };
    let Some(body) = left.next() else {
        return Step::Fails(Fault::TooFew(Function::Foreach));
    };
    Step::Asks(Entry::Stays, name, State::LoopName(list, body))
}

/// The words of a text, last to first.
fn words_backwards(alloc: Global, text: &[u8]) -> Result<Vec<Vec<u8>>, AllocError>
    ensures { IfOk result (λ v. reverse (texts v.items) ≡ words_of text.now) }
{
    let mut words = Vec::new(alloc);
    let mut rest = text;
    while let Some((word, behind)) = next_word(rest) {
        words.push(Vec::from_slice(alloc, word)?)?;
        rest = behind;
    }
    words.reverse();
    Ok(words)
}

/// What was made, if anything was.
fn made_or_nothing(alloc: Global, made: Option<Vec<u8>>) -> Vec<u8>
    ensures { result.items ≡ made_or_nothing (option_map (λ v. v.items) made) }
{
    match made {
        None => Vec::new(alloc),
        Some(made) => made,
    }
}

fn made_len(made: &Option<Vec<u8>>) -> usize
    ensures { result ≡ length (made_or_nothing (option_map (λ v. v.items) made.now)) }
{
    match made {
        None => 0,
        Some(made) => made.len(),
    }
}

/// The next turn of a loop.
fn loop_step<'a>(alloc: Global, turns: Loop<'a>) -> Result<Step<'a>, AllocError>
    ensures { IfOk result (λ s. step_of s ≡ loop_step turns.entry.name.items turns.entry.body.now (reverse (texts turns.entry.left.items)) (option_map (λ v. v.items) turns.entry.made)) }
{
    let Loop {
        name,
        body,
        mut left,
        made,
    } = turns;
    let Some(word) = left.pop() else {
        return Ok(given(made_or_nothing(alloc, made)));
    };
    if made_len(&made) > MAX_VALUE {
        return Ok(Step::Fails(Fault::TooLong));
    }
    let bound = Vec::from_slice(alloc, name.as_slice())?;
    let turns = Loop {
        name,
        body,
        left,
        made,
    };
    Ok(Step::Asks(Entry::Binds(bound, word), body, State::LoopBody(turns)))
}

/// The first turn of a loop over the words of a value.
pub(crate) fn first_turn<'a>(
    alloc: Global,
    name: Vec<u8>,
    body: &'a [u8],
    value: &[u8],
) -> Result<Step<'a>, AllocError>
    ensures { IfOk result (λ s. step_of s ≡ loop_step name.items body.now (words_of value.now) None) }
{
    let left = words_backwards(alloc, value)?;
    loop_step(
        alloc,
        Loop {
            name,
            body,
            left,
            made: None,
        },
    )
}

/// A value behind what was made.
fn behind_made(made: Option<Vec<u8>>, value: Vec<u8>) -> Result<Vec<u8>, AllocError>
    ensures { IfOk result (λ v. v.items ≡ behind_made (option_map (λ v. v.items) made) value.items) }
{
    let Some(mut out) = made else {
        return Ok(value);
    };
    out.push(b' ')?;
    out.extend_from_slice(value.as_slice())?;
    Ok(out)
}

/// The turn behind this value of the body.
pub(crate) fn next_turn<'a>(
    alloc: Global,
    turns: Loop<'a>,
    value: Vec<u8>,
) -> Result<Step<'a>, AllocError>
    ensures { IfOk result (λ s. step_of s ≡ loop_step turns.entry.name.items turns.entry.body.now (reverse (texts turns.entry.left.items)) (Some (behind_made (option_map (λ v. v.items) turns.entry.made) value.items))) }
{
    let Loop {
        name,
        body,
        left,
        made,
    } = turns;
    let made = behind_made(made, value)?;
    loop_step(
        alloc,
        Loop {
            name,
            body,
            left,
            made: Some(made),
        },
    )
}
