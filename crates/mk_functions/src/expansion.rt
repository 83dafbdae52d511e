//! The loop of an expansion. What waits stands in a list, so no nesting is too deep for it.
ghost use Rattle.std.specs.Prelude.{◌≡◌, ◌≤◌, ◌<◌, ◌++◌, ℕ, List, length, true, false, IfOk, IfErr};
ghost use Rattle.mk_functions.specs.Variables.{Variables};
ghost use Rattle.mk_functions.specs.Values.{Answers};
ghost use Rattle.mk_functions.specs.Outcome.{limit, gives};
ghost use Rattle.mk_functions.specs.Expansion.{ExpandsTo};
ghost use Rattle.mk_functions.specs.Steps.{asks};
ghost use Rattle.mk_functions.specs.Shown.{entry_of, state_of, step_of};
ghost use Rattle.mk_functions.specs.Waiting.{stack_of, LeadsFrom, LeadTo, IsNext, IsStop};

use crate::fault::{Fault, Stop};
use crate::limits::{MAX_PIECES, MAX_VALUE};
use crate::outside::{Definitions, Outside};
use crate::pieces::{piece_step, resumed};
use crate::scope::{called_name, is_too_deep};
use crate::state::{Current, Entry, Next, State, Step, Waiting};
use mk_pieces::next_piece;
use std::alloc::{AllocError, Global};

/// Whether bytes fit behind others.
fn fits(made: &[u8], bytes: &[u8]) -> bool
    ensures within { result ≡ true → length (made.now ++ bytes.now) ≤ limit }
    ensures over { result ≡ false → limit < length (made.now ++ bytes.now) }
{
    made.len() <= MAX_VALUE && bytes.len() <= MAX_VALUE - made.len()
}

/// Lets the text at hand wait for another one.
fn wait<'a>(
    alloc: Global,
    callers: &mut Vec<Waiting<'a>>,
    current: Current<'a>,
    entry: Entry,
    text: &'a [u8],
    state: State<'a>,
) -> Result<Current<'a>, Stop>
    ensures ok { IfOk result (λ now. (w : Answers) (variables : Variables) (whole : List ℕ)
        → LeadsFrom w variables whole (stack_of callers.old.items) current.entry.made.items current.entry.rest.now (asks (entry_of entry) text.now (state_of state.entry))
        → LeadTo w variables whole callers.new.items now) }
    ensures err { IfErr result (λ stop. (w : Answers) (variables : Variables) (whole : List ℕ)
        → LeadsFrom w variables whole (stack_of callers.old.items) current.entry.made.items current.entry.rest.now (asks (entry_of entry) text.now (state_of state.entry))
        → IsStop w variables whole stop) }
{
    let is_deep = is_too_deep(callers, &entry);
    if is_deep {
        let name = called_name(alloc, &entry)?;
        return Err(Stop::Fault(Fault::TooDeep(name)));
    }
    let Current { made, rest } = current;
    callers.push(Waiting {
        entry,
        state,
        made,
        rest,
    })?;
    Ok(Current {
        made: Vec::new(alloc),
        rest: text,
    })
}

/// Takes a step into the text at hand.
fn take<'a>(
    alloc: Global,
    callers: &mut Vec<Waiting<'a>>,
    current: Current<'a>,
    step: Step<'a>,
) -> Result<Current<'a>, Stop>
    ensures ok { IfOk result (λ now. (w : Answers) (variables : Variables) (whole : List ℕ)
        → LeadsFrom w variables whole (stack_of callers.old.items) current.entry.made.items current.entry.rest.now (step_of step.entry)
        → LeadTo w variables whole callers.new.items now) }
    ensures err { IfErr result (λ stop. (w : Answers) (variables : Variables) (whole : List ℕ)
        → LeadsFrom w variables whole (stack_of callers.old.items) current.entry.made.items current.entry.rest.now (step_of step.entry)
        → IsStop w variables whole stop) }
{
    let Current { mut made, rest } = current;
    match step {
        Step::Adds(bytes) => {
            if !fits(&made, &bytes) {
                return Err(Stop::Fault(Fault::TooLong));
            }
            made.extend_from_slice(&bytes)?;
            Ok(Current { made, rest })
        }
        Step::Fails(fault) => Err(Stop::Fault(fault)),
        Step::Asks(entry, text, state) => {
            wait(alloc, callers, Current { made, rest }, entry, text, state)
        }
    }
}

/// Reads on: the next piece of the text at hand, or of the one that waits for it.
fn advance<'a, V: Definitions, O: Outside>(
    alloc: Global,
    variables: &'a V,
    outside: &mut O,
    callers: &mut Vec<Waiting<'a>>,
    current: Current<'a>,
) -> Result<Next<'a>, AllocError>
    ensures next { (w : Answers) → O.allows outside.new w → (whole : List ℕ)
        → LeadTo w (V.variables variables.now) whole callers.old.items current.entry
        → IfOk result (IsNext w (V.variables variables.now) whole callers.new.items) }
    ensures narrows { (w : Answers) → O.allows outside.new w → O.allows outside.old w }
{
    let Current { made, rest } = current;
    if let Some((piece, rest)) = next_piece(rest) {
        let step = piece_step(alloc, variables, outside, callers, piece)?;
        return Ok(Next::Step(Current { made, rest }, step));
    }
    let Some(
        Waiting {
            entry: _,
            state,
            made: before,
            rest,
        },
    ) = callers.pop()
    else {
        return Ok(Next::Done(made));
    };
    let step = resumed(alloc, variables, outside, callers, state, made)?;
    Ok(Next::Step(Current { made: before, rest }, step))
}

/// What a text comes to, with what variables stand for and the world outside answers. A text that has no value is a fault; one in
/// which more than `MAX_PIECES` pieces are looked at is given up.
pub fn expand<'a, V: Definitions, O: Outside>(
    alloc: Global,
    variables: &'a V,
    outside: &mut O,
    text: &'a [u8],
) -> Result<Vec<u8>, Stop>
    ensures value { (w : Answers) → O.allows outside.new w → IfOk result (λ v. ExpandsTo w (V.variables variables.now) text.now (gives v.items)) }
    ensures fault { (w : Answers) → O.allows outside.new w → IfErr result (IsStop w (V.variables variables.now) text.now) }
    ensures narrows { (w : Answers) → O.allows outside.new w → O.allows outside.old w }
{
    let mut callers: Vec<Waiting<'a>> = Vec::new(alloc);
    let mut current = Current {
        made: Vec::new(alloc),
        rest: text,
    };
    let mut left = MAX_PIECES;
    while left > 0 {
        left -= 1;
        match advance(alloc, variables, outside, &mut callers, current)? {
            Next::Done(made) => return Ok(made),
            Next::Step(now, step) => {
                current = take(alloc, &mut callers, now, step)?;
            }
        }
    }
    Err(Stop::TakesTooLong)
}
