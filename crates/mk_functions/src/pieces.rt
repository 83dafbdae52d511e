//! The steps of pieces: what each asks for, or what it comes to.
ghost use Rattle.std.specs.Prelude.{◌≡◌, IfOk};
ghost use Rattle.mk_pieces.specs.Shown.{piece_of};
ghost use Rattle.mk_functions.specs.Values.{Answers};
ghost use Rattle.mk_functions.specs.Steps.{started, piece_step, resumed};
ghost use Rattle.mk_functions.specs.Shown.{state_of, step_of};
ghost use Rattle.mk_functions.specs.Waiting.{site_at, stack_of};

use crate::branches::{
    and_step, and_value, chosen_step, first_turn, foreach_step, if_step, next_turn, or_step,
    or_value,
};
use crate::calls::argument_step;
use crate::fault::Fault;
use crate::outside::{Definitions, Outside};
use crate::references::{named_step, reference_step};
use crate::state::{Entry, State, Step, Waiting};
use mk_pieces::{Arguments, Function, Piece};
use mk_words::first_word;
use std::alloc::{AllocError, Global};

/// The first step of a call.
fn started<'a, V: Definitions, O: Outside>(
    alloc: Global,
    variables: &'a V,
    outside: &mut O,
    callers: &[Waiting<'a>],
    f: Function,
    arguments: Arguments<'a>,
) -> Result<Step<'a>, AllocError>
    ensures step { (w : Answers) → O.allows outside.new w
        → IfOk result (λ s. step_of s ≡ started w (V.variables variables.now) (site_at (stack_of callers.now)) f arguments.entry) }
    ensures narrows { (w : Answers) → O.allows outside.new w → O.allows outside.old w }
{
    match f {
        Function::If => Ok(if_step(arguments)),
        Function::Or => Ok(or_step(alloc, arguments)),
        Function::And => Ok(and_step(Vec::new(alloc), arguments)),
        Function::Foreach => Ok(foreach_step(arguments)),
        Function::Refused(refused) => Ok(Step::Fails(Fault::Refuses(refused))),
        Function::OfWords(_)
        | Function::OfVariable(_)
        | Function::Asks(_)
        | Function::Says(_)
        | Function::Error
        | Function::OfTwo(_)
        | Function::OfThree(_)
        | Function::Call => {
            let values = Vec::new(alloc);
            argument_step(alloc, variables, outside, callers, f, values, arguments)
        }
    }
}

/// The first step of a piece.
pub(crate) fn piece_step<'a, V: Definitions, O: Outside>(
    alloc: Global,
    variables: &'a V,
    outside: &mut O,
    callers: &[Waiting<'a>],
    piece: Piece<'a>,
) -> Result<Step<'a>, AllocError>
    ensures step { (w : Answers) → O.allows outside.new w
        → IfOk result (λ s. step_of s ≡ piece_step w (V.variables variables.now) (site_at (stack_of callers.now)) (piece_of piece.entry)) }
    ensures narrows { (w : Answers) → O.allows outside.new w → O.allows outside.old w }
{
    match piece {
        Piece::Plain(bytes) => Ok(Step::Adds(Vec::from_slice(alloc, bytes)?)),
        Piece::Reference(name, taken) => reference_step(alloc, variables, callers, name, taken),
        Piece::Unclosed => Ok(Step::Fails(Fault::NotClosed)),
        Piece::Computed(inner) => Ok(Step::Asks(Entry::Stays, inner, State::NameIn)),
        Piece::Call(f, arguments) => started(alloc, variables, outside, callers, f, arguments),
    }
}

/// The step behind a value that was waited for.
pub(crate) fn resumed<'a, V: Definitions, O: Outside>(
    alloc: Global,
    variables: &'a V,
    outside: &mut O,
    callers: &[Waiting<'a>],
    state: State<'a>,
    value: Vec<u8>,
) -> Result<Step<'a>, AllocError>
    ensures step { (w : Answers) → O.allows outside.new w
        → IfOk result (λ s. step_of s ≡ resumed w (V.variables variables.now) (site_at (stack_of callers.now)) (state_of state.entry) value.items) }
    ensures narrows { (w : Answers) → O.allows outside.new w → O.allows outside.old w }
{
    match state {
        State::ValueOf(taken) => Ok(Step::Adds(taken.of(alloc, value)?)),
        State::NameIn => named_step(alloc, variables, callers, value.as_slice()),
        State::Argument(f, values, left) => {
            let mut values = values;
            values.push(value)?;
            argument_step(alloc, variables, outside, callers, f, values, left)
        }
        State::Condition(one, others) => Ok(chosen_step(alloc, value.as_slice(), one, others)),
        State::Last => Ok(Step::Adds(value)),
        State::OrArgument(left) => Ok(or_value(alloc, value, left)),
        State::AndArgument(left) => Ok(and_value(alloc, value, left)),
        State::LoopName(list, body) => {
            let name = Vec::from_slice(alloc, first_word(value.as_slice()))?;
            Ok(Step::Asks(Entry::Stays, list, State::LoopList(name, body)))
        }
        State::LoopList(name, body) => first_turn(alloc, name, body, value.as_slice()),
        State::LoopBody(turns) => next_turn(alloc, turns, value),
    }
}
