//! Texts that are read over the variables of a row.
use crate::expansions::{Setting, say_stop};
use crate::statements::text_of;
use crate::tables::say_refusal;
use mk_conditionals::NestFault;
use mk_functions::{Stop, expand};
use mk_statements::{Line, Rule, statements_of};
use mk_taken::{NoAnswer, Other, Reached, Reading, Refused, Unturned, Why};
use row_files::{Answered, bytes};
use std::alloc::{AllocError, Global};

fn say_nest(out: &mut String, fault: NestFault) -> Result<(), AllocError> {
    match fault {
        NestFault::ExtraneousElse => out.push_str("extraneous-else"),
        NestFault::ExtraneousEndif => out.push_str("extraneous-endif"),
        NestFault::SecondElse => out.push_str("second-else"),
        NestFault::MissingEndif(line) => write!(out, "missing-endif:{line}"),
    }
}

fn say_why(out: &mut String, why: Why) -> Result<(), AllocError> {
    match why {
        Why::Conditional(Unturned::Test(NoAnswer::Stop(stop))) => say_stop(out, stop),
        Why::Conditional(Unturned::Test(NoAnswer::NoTest)) => out.push_str("no-test"),
        Why::Conditional(Unturned::Misplaced(fault)) => say_nest(out, fault),
        Why::Variables(refusal) => say_refusal(out, refusal),
        Why::Line(fault) => out.push_str(text_of(fault)),
    }
}

pub(crate) fn say_refused(out: &mut String, refused: Refused) -> Result<(), AllocError> {
    match refused {
        Refused::At(line, why) => {
            write!(out, "{line}:")?;
            say_why(out, why)
        }
        Refused::Unended(fault) => say_nest(out, fault),
    }
}

/// What a line is by what it came to: one with a `:` is a rule.
fn rule_of(value: &[u8]) -> Option<Rule> {
    let text = byte_strings::trim(value);
    if text.is_empty() {
        return Some(Rule::Closed);
    }
    if text.starts_with(b":") {
        return Some(Rule::WithoutTargets);
    }
    if text.contains(&b':') {
        Some(Rule::Open)
    } else {
        None
    }
}

impl Setting {
    fn keep(&mut self, recipe: &[u8]) -> Result<(), AllocError> {
        let text = byte_strings::trim_start(recipe);
        if text.is_empty() {
            return Ok(());
        }
        self.recipes.extend_from_slice(text)?;
        self.recipes.push(b'\n')?;
        Ok(())
    }

    /// Takes a line that is expanded. Where it ends the reading, it says why.
    fn take_line(
        &mut self,
        alloc: Global,
        number: usize,
        text: &[u8],
    ) -> Result<Option<Rule>, AllocError> {
        match expand(alloc, &self.table, &mut self.outside, text) {
            Ok(value) => match rule_of(value.as_slice()) {
                Some(rule) => Ok(Some(rule)),
                None => {
                    write!(self.outside.said, "{number}:missing-separator")?;
                    Ok(None)
                }
            },
            Err(Stop::OutOfMemory) => Err(AllocError),
            Err(stop) => {
                write!(self.outside.said, "{number}:")?;
                say_stop(&mut self.outside.said, stop)?;
                Ok(None)
            }
        }
    }

    /// Takes a statement that is the caller's, and whether reading goes on.
    fn take_other(
        &mut self,
        alloc: Global,
        reading: &mut Reading,
        number: usize,
        other: Other<'_>,
    ) -> Result<bool, AllocError> {
        match other {
            Other::Recipe(text) => self.keep(text)?,
            Other::Expands(text, recipe) => {
                let Some(rule) = self.take_line(alloc, number, text)? else {
                    return Ok(false);
                };
                reading.came_to(rule);
                if let Some(recipe) = recipe
                    && rule == Rule::Open
                {
                    self.keep(recipe)?;
                }
            }
            Other::Includes(_, _) | Other::Vpath(_) | Other::Loads(_, _) => {}
        }
        Ok(true)
    }

    /// Reads lines from this place on, up to one that isn't read by `mk_taken`: the place behind it, where reading goes on.
    fn read_from<'a>(
        &mut self,
        alloc: Global,
        reading: &mut Reading,
        lines: &'a [Line<'a>],
        place: usize,
    ) -> Result<Option<usize>, AllocError> {
        let Some(left) = lines.get(place..) else {
            return Ok(None);
        };
        match reading.read(alloc, &mut self.table, &mut self.outside, left) {
            Ok(Reached::End) => {
                self.outside.said.push_str("read")?;
                Ok(None)
            }
            Ok(Reached::Other(number, other, behind)) => {
                let next = lines.len().saturating_sub(behind.len());
                let goes_on = self.take_other(alloc, reading, number, other)?;
                Ok(if goes_on { Some(next) } else { None })
            }
            Err(refused) => {
                say_refused(&mut self.outside.said, refused)?;
                Ok(None)
            }
        }
    }

    fn read_lines<'a>(&mut self, alloc: Global, lines: &'a [Line<'a>]) -> Result<(), AllocError> {
        let mut reading = Reading::new(alloc);
        let mut place = 0;
        for _ in 0..=lines.len() {
            match self.read_from(alloc, &mut reading, lines, place)? {
                Some(next) => place = next,
                None => return Ok(()),
            }
        }
        Ok(())
    }

    /// Reads a makefile's text: what was asked and said, and what came of it. Lines that come to something with a `:` are rules.
    pub(crate) fn say_read(&mut self, alloc: Global, text: &[u8], out: &mut String) -> Answered {
        self.outside.said.clear();
        self.recipes.clear();
        let lines = statements_of(alloc, text)?;
        self.read_lines(alloc, lines.as_slice())?;
        Ok(out.push_str(self.outside.said.as_str())?)
    }

    /// The recipes of the text that was read, each line with a newline and without the blanks in front; blank lines are left out.
    pub(crate) fn say_recipes(&mut self, out: &mut String) -> Answered {
        Ok(bytes::say_all(out, self.recipes.as_slice())?)
    }
}
