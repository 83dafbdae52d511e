//! Texts that wait for what others come to. All of them lie in the text that is expanded or in texts of variables, so none is copied.
use crate::fault::Fault;
use mk_pieces::{Arguments, Function};

/// How a text lies in another one.
#[derive(Drop)]
pub(crate) enum Entry {
    Stays,
    Opens(Vec<u8>),
    Binds(Vec<u8>, Vec<u8>),
    Passes(Vec<Vec<u8>>),
}

/// What a reference takes of a value that isn't known yet.
#[derive(Drop)]
pub(crate) enum Taken {
    Whole,
    Substituted(Vec<u8>, Vec<u8>),
}

/// A `foreach` in the middle of its list: the words that are left, last to first, and what was made so far.
#[derive(Drop)]
pub(crate) struct Loop<'a> {
    pub(crate) name: Vec<u8>,
    pub(crate) body: &'a [u8],
    pub(crate) left: Vec<Vec<u8>>,
    pub(crate) made: Option<Vec<u8>>,
}

/// What a piece is that waits for a value (`specs/Steps`).
#[derive(Drop)]
pub(crate) enum State<'a> {
    ValueOf(Taken),
    NameIn,
    Argument(Function, Vec<Vec<u8>>, Arguments<'a>),
    Condition(&'a [u8], Arguments<'a>),
    Last,
    OrArgument(Arguments<'a>),
    AndArgument(Arguments<'a>),
    LoopName(&'a [u8], &'a [u8]),
    LoopList(Vec<u8>, &'a [u8]),
    LoopBody(Loop<'a>),
}

/// What a piece comes to: bytes, a fault, or the value of a text that is asked for first.
#[derive(Drop)]
pub(crate) enum Step<'a> {
    Adds(Vec<u8>),
    Fails(Fault),
    Asks(Entry, &'a [u8], State<'a>),
}

/// A text that waits: how the one lies in it that it waits for, what for, what was made of it, and what is left of it.
#[derive(Drop)]
pub(crate) struct Waiting<'a> {
    pub(crate) entry: Entry,
    pub(crate) state: State<'a>,
    pub(crate) made: Vec<u8>,
    pub(crate) rest: &'a [u8],
}

/// The text at hand: what was made of it, and what is left.
#[derive(Drop)]
pub(crate) struct Current<'a> {
    pub(crate) made: Vec<u8>,
    pub(crate) rest: &'a [u8],
}

/// What comes next: the end, or a step of a piece of the text at hand.
#[derive(Drop)]
pub(crate) enum Next<'a> {
    Done(Vec<u8>),
    Step(Current<'a>, Step<'a>),
}
