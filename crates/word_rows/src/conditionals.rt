//! Which lines of a text count, between conditionals.
ghost use Rattle.std.specs.Prelude.{◌≡◌, IfOk, is_some};

use crate::texts::{say_place, say_text};
use mk_conditionals::{Directive, Nest, NestFault, Question, Test, directive_of, tested_name};
use row_files::Answered;
use std::alloc::{AllocError, Global};

/// Why lines are refused.
enum Refused {
    Nest(NestFault),
    InvalidTest,
    OutOfMemory,
}

impl From<NestFault> for Refused {
    fn from(fault: NestFault) -> Refused {
        Refused::Nest(fault)
    }
}

impl From<AllocError> for Refused {
    fn from(_fault: AllocError) -> Refused {
        Refused::OutOfMemory
    }
}

/// Whether a test holds, where nothing is expanded and `D` alone is defined.
fn holds(test: Test<'_>) -> Option<bool> {
    let is_so = match test.question {
        Question::Equal(one, other) => one == other,
        Question::Defined(text) => tested_name(text)? == b"D".as_slice(),
        Question::Invalid => return None,
    };
    Some(is_so != test.is_negated)
}

/// A test is asked where it is wanted.
fn asked(is_wanted: bool, test: Test<'_>) -> Result<Option<bool>, Refused>
    ensures { IfOk result (λ answer. is_some answer ≡ is_wanted) }
{
    if !is_wanted {
        return Ok(None);
    }
    match holds(test) {
        Some(is_so) => Ok(Some(is_so)),
        None => Err(Refused::InvalidTest),
    }
}

fn step(nest: &mut Nest, number: usize, directive: Directive<Test<'_>>) -> Result<(), Refused> {
    match directive {
        Directive::Begins(test) => {
            let holds = asked(nest.is_active(), test)?;
            nest.begin(number, holds)?;
        }
        Directive::Turns(Some(test)) => {
            let holds = asked(nest.wants_test(), test)?;
            nest.turn_if(holds)?;
        }
        Directive::Turns(None) => nest.turn()?,
        Directive::Ends => nest.end()?,
    }
    Ok(())
}

/// Whether more is looked at of a directive than its first words.
fn is_looked_at(nest: &Nest, directive: Directive<Test<'_>>) -> bool {
    match directive {
        Directive::Begins(_) => nest.is_active(),
        Directive::Turns(Some(_)) => nest.wants_test(),
        Directive::Turns(None) | Directive::Ends => true,
    }
}

fn say_plain(out: &mut String, counts: bool, line: &[u8]) -> Result<(), AllocError> {
    if counts && !line.contains(&b'=') {
        return say_text(out, line);
    }
    Ok(())
}

/// What a line says where it counts. A definition says nothing.
fn say_line(nest: &mut Nest, number: usize, line: &[u8], out: &mut String) -> Result<(), Refused> {
    let Some(said) = directive_of(line) else {
        return Ok(say_plain(out, nest.is_active(), line)?);
    };
    if said.has_text_behind && is_looked_at(nest, said.directive) {
        say_place(out, "text-behind", number)?;
    }
    step(nest, number, said.directive)
}

fn say_nest_fault(out: &mut String, number: usize, fault: NestFault) -> Result<(), AllocError> {
    match fault {
        NestFault::ExtraneousElse => say_place(out, "extraneous-else", number),
        NestFault::ExtraneousEndif => say_place(out, "extraneous-endif", number),
        NestFault::SecondElse => say_place(out, "second-else", number),
        NestFault::MissingEndif(line) => say_place(out, "missing-endif", line),
    }
}

fn say_refused(out: &mut String, number: usize, refused: Refused) -> Result<(), AllocError> {
    match refused {
        Refused::Nest(fault) => say_nest_fault(out, number, fault),
        Refused::InvalidTest => say_place(out, "invalid", number),
        Refused::OutOfMemory => Err(AllocError),
    }
}

fn say_lines(nest: &mut Nest, text: &[u8], out: &mut String) -> Result<(), AllocError> {
    let mut number: usize = 0;
    for line in text.split(|byte| *byte == b'\n') {
        number = number.saturating_add(1);
        if let Err(refused) = say_line(nest, number, line, out) {
            return say_refused(out, number, refused);
        }
    }
    match nest.missing() {
        Some(fault) => say_nest_fault(out, number, fault),
        None => Ok(()),
    }
}

/// The lines of a text that count, each as it stands, and what GNU make warns of; or down to the first that is refused.
pub(crate) fn say_taken(alloc: Global, text: &[u8], out: &mut String) -> Answered {
    let mut nest = Nest::new(alloc);
    let said = say_lines(&mut nest, text, out);
    drop(nest);
    said?;
    if out.is_empty() {
        out.push_str("nothing")?;
    }
    Ok(())
}
