//! The calls of a row, and what they are made of.
use crate::report::Report;
use crate::row_fault::{Answered, RowFault};
use crate::words::Words;
use std::alloc::{AllocError, Global};

/// What the calls of a row are made of.
pub trait World {
    /// Answers a call: writes what is compared with the answer that is wanted.
    fn call(&mut self, alloc: Global, words: &mut Words<'_>, out: &mut String) -> Answered;
}

/// A call, and the answer that is wanted.
#[derive(Clone, Copy)]
pub(crate) struct Call<'a> {
    pub(crate) line: usize,
    pub(crate) text: &'a str,
    pub(crate) wanted: &'a str,
}

impl Call<'_> {
    /// Whether a world gives the answer that is wanted.
    fn is_given<W: World>(
        &self,
        alloc: Global,
        world: &mut W,
        report: &mut Report<'_>,
    ) -> Result<bool, AllocError> {
        let mut got = String::new(alloc);
        let answer = world.call(alloc, &mut Words { rest: self.text }, &mut got);
        self.is_wanted(answer, got.as_str(), report)
    }

    /// Whether an answer is the one that is wanted. Another is told.
    fn is_wanted(
        &self,
        answer: Answered,
        got: &str,
        report: &mut Report<'_>,
    ) -> Result<bool, AllocError> {
        if answer.is_ok() && got == self.wanted {
            return Ok(true);
        }
        report.tell(self.line, self.text)?;
        match answer {
            Ok(()) => report.tell_got(got)?,
            Err(fault) => report.tell_fault(fault)?,
        }
        Ok(false)
    }
}

/// The calls of a row.
#[derive(Drop)]
pub struct Calls<'a> {
    pub(crate) calls: Vec<Call<'a>>,
}

impl Calls<'_> {
    /// Whether a world gives each answer that is wanted. No call is made behind the first that isn't given, which is told.
    pub fn are_met<W: World>(
        &self,
        alloc: Global,
        world: &mut W,
        report: &mut Report<'_>,
    ) -> Result<bool, AllocError> {
        for call in &self.calls {
            if !call.is_given(alloc, world, report)? {
                return Ok(false);
            }
        }
        Ok(true)
    }
}
