//! What texts come to, with the variables and the world outside of a row.
use crate::arguments::{add, argument, number_fault};
use crate::makefiles::Contents;
use crate::outside::{Answer, Told, question_of};
use crate::variables::{flavor_of, origin_of};
use mk_functions::{Fault, Origin, Stop, expand};
use mk_pieces::{Function, Question};
use mk_variables::Table;
use row_files::{Answered, RowFault, Words, bytes};
use std::alloc::{AllocError, Global};

/// What a row sets up for its expansions.
#[derive(Drop)]
pub(crate) struct Setting {
    pub(crate) table: Table,
    pub(crate) outside: Told,
    pub(crate) contents: Contents,
    /// The recipes of the text that was read last, each line with a newline.
    pub(crate) recipes: Vec<u8>,
}

/// What stands behind the first word of a line.
#[derive(Clone, Copy)]
struct Line<'a> {
    name: &'a str,
    sign: &'a str,
    text: &'a str,
}

fn line_of<'a>(words: &mut Words<'a>) -> Line<'a> {
    let (name, sign, text) = (words.next(), words.next(), words.next());
    Line { name, sign, text }
}

/// The answer of a line.
fn answer(alloc: Global, question: Question, line: Line<'_>) -> Result<Answer, RowFault> {
    if line.sign != "=" {
        return Err(RowFault::Word);
    }
    let text = argument(alloc, line.name)?;
    let value = argument(alloc, line.text)?;
    Ok(Answer {
        question,
        text,
        value,
    })
}

impl Setting {
    pub(crate) fn new(alloc: Global) -> Setting {
        Setting {
            table: Table::new(alloc, false),
            outside: Told {
                answers: Vec::new(alloc),
                said: String::new(alloc),
            },
            contents: Contents {
                files: Vec::new(alloc),
            },
            recipes: Vec::new(alloc),
        }
    }

    fn define(&mut self, alloc: Global, origin: Origin, line: Line<'_>) -> Answered {
        let flavor = flavor_of(line.sign).ok_or(RowFault::Word)?;
        let name = argument(alloc, line.name)?;
        let text = argument(alloc, line.text)?;
        Ok(
            self.table
                .put(alloc, origin, flavor, name.as_slice(), text.as_slice())?,
        )
    }

    fn hold_content(&mut self, alloc: Global, line: Line<'_>) -> Answered {
        if line.sign != "=" {
            return Err(RowFault::Word);
        }
        let name = argument(alloc, line.name)?;
        let text = argument(alloc, line.text)?;
        self.hold(name, text)
    }

    /// Takes a line: ORIGIN NAME = TEXT, with `:=` for a simple variable, QUESTION TEXT = ANSWER, `content NAME = TEXT` of a file
    /// that may be included, or `environment-first`, in front of all others. Whether it is one.
    pub(crate) fn takes(&mut self, alloc: Global, line: &str) -> Result<bool, RowFault> {
        if line == "environment-first" {
            self.table = Table::new(alloc, true);
            return Ok(true);
        }
        let mut words = Words { rest: line };
        let word = words.next();
        let line = line_of(&mut words);
        if !words.rest.is_empty() {
            return Ok(false);
        }
        if let Some(origin) = origin_of(word) {
            self.define(alloc, origin, line)?;
            return Ok(true);
        }
        if word == "content" {
            self.hold_content(alloc, line)?;
            return Ok(true);
        }
        let Some(question) = question_of(word) else {
            return Ok(false);
        };
        add(&mut self.outside.answers, answer(alloc, question, line)?)?;
        Ok(true)
    }

    /// What was asked and said, and what a text comes to, or why it has no value.
    pub(crate) fn say_value(&mut self, alloc: Global, text: &[u8], out: &mut String) -> Answered {
        self.outside.said.clear();
        let outcome = expand(alloc, &self.table, &mut self.outside, text);
        say_outcome(&mut self.outside.said, outcome)?;
        Ok(out.push_str(self.outside.said.as_str())?)
    }
}

fn say_outcome(out: &mut String, outcome: Result<Vec<u8>, Stop>) -> Result<(), AllocError> {
    match outcome {
        Ok(value) => bytes::say_all(out, value.as_slice()),
        Err(stop) => say_stop(out, stop),
    }
}

/// Why a text has no value.
pub(crate) fn say_stop(out: &mut String, stop: Stop) -> Result<(), AllocError> {
    match stop {
        Stop::OutOfMemory => Err(AllocError),
        Stop::TakesTooLong => out.push_str("takes-too-long"),
        Stop::Fault(fault) => say_fault(out, fault),
    }
}

fn say_of(out: &mut String, why: &str, what: &[u8]) -> Result<(), AllocError> {
    out.push_str(why)?;
    out.push(':')?;
    bytes::say_all(out, what)
}

fn say_fault(out: &mut String, fault: Fault) -> Result<(), AllocError> {
    match fault {
        Fault::RefersToItself(name) => say_of(out, "refers-to-itself", name.as_slice()),
        Fault::NotClosed => out.push_str("not-closed"),
        Fault::TooLong => out.push_str("too-long"),
        Fault::TooDeep(name) => say_of(out, "too-deep", name.as_slice()),
        Fault::TooFew(f) => say_of(out, "too-few", f.name()),
        Fault::Miscounts(f, why) => say_of(out, number_fault(why), f.name()),
        Fault::Told(text) => say_of(out, "told", text.as_slice()),
        Fault::Refuses(f) => say_of(out, "refused", Function::Refused(f).name()),
        Fault::NotCalled(f) => say_of(out, "not-called", f.name()),
    }
}
