//! Recipes that run nothing.
use crate::adding::add;
use bd_lists::{Clearance, Ended, Exec, ExecFault, Variable};
use byte_strings::ByteString;
use mk_recipe::Line;
use std::alloc::{AllocError, Global};
use std::cell::Cell;

/// Runs nothing: a line `gone` can't be run, one `false` fails with 1, `exit N` ends with N, and any other ends well. Counts
/// how often it is asked.
#[derive(Drop)]
pub struct Script {
    pub alloc: Global,
    pub asked: Cell<usize>,
}

/// The status that a line ends with. None where it can't be run.
fn status(text: &[u8]) -> Option<u32> {
    if text == b"gone".as_slice() {
        return None;
    }
    if text == b"false".as_slice() {
        return Some(1);
    }
    match text.strip_prefix(b"exit ".as_slice()) {
        Some(digits) => Some(small(digits)),
        None => Some(0),
    }
}

/// The number of at most three digits.
fn small(digits: &[u8]) -> u32 {
    let mut number = 0u32;
    for digit in digits {
        let value = u32::from(digit.saturating_sub(b'0'));
        number = number.saturating_mul(10).saturating_add(value);
    }
    number.min(256)
}

impl<T> Exec<T> for Script {
    ghost answers = { λ script env line answer. Unit {0} };

    fn run(
        &self,
        _clearance: &Clearance<T>,
        line: &Line,
        _env: &[Variable],
    ) -> Result<Ended, ExecFault> {
        self.asked.set(self.asked.get().saturating_add(1));
        match status(line.text.as_slice()) {
            Some(status) => Ok(Ended {
                status: status.min(256),
                out: ByteString::new(Vec::new(self.alloc)),
                err: ByteString::new(Vec::new(self.alloc)),
            }),
            None => Err(ExecFault),
        }
    }
}

/// The line of a text, of which a `-` in front ignores the status, and a `?` keeps it out of the state.
fn line(alloc: Global, text: &str) -> Result<Line, AllocError> {
    let (is_ignored, text) = match text.strip_prefix("-") {
        Some(text) => (true, text),
        None => (false, text),
    };
    let (is_exempt, text) = match text.strip_prefix("?") {
        Some(text) => (true, text),
        None => (false, text),
    };
    Ok(Line {
        text: ByteString::from_slice(alloc, text.as_bytes())?,
        is_printed: true,
        is_ignored,
        is_exempt,
        is_always_run: false,
    })
}

/// The lines behind each ` $ `.
pub fn lines(alloc: Global, text: &str) -> Result<Vec<Line>, AllocError> {
    let mut lines = Vec::new(alloc);
    if let Some(text) = text.strip_prefix("$ ") {
        push_lines(alloc, &mut lines, text)?;
    }
    Ok(lines)
}

fn push_lines(alloc: Global, lines: &mut Vec<Line>, text: &str) -> Result<(), AllocError> {
    for text in text.split(" $ ") {
        add(lines, line(alloc, text)?)?;
    }
    Ok(())
}
