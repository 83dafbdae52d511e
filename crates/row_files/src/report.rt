//! What is told of rows, and how many there were.
use crate::row_fault::RowFault;
use std::alloc::{AllocError, Global};

/// The rows of a file so far.
#[derive(Drop)]
pub struct Report<'a> {
    file: &'a str,
    pub(crate) passed: usize,
    pub(crate) failed: usize,
    /// What is told of rows that differ.
    pub(crate) text: String,
}

impl<'a> Report<'a> {
    pub(crate) fn new(alloc: Global, file: &'a str) -> Report<'a> {
        Report {
            file,
            passed: 0,
            failed: 0,
            text: String::new(alloc),
        }
    }

    pub(crate) fn count(&mut self, has_passed: bool) {
        if has_passed {
            self.passed = self.passed.saturating_add(1);
        } else {
            self.failed = self.failed.saturating_add(1);
        }
    }

    /// Tells what a line of the file says, or what is wrong with it.
    pub(crate) fn tell(&mut self, line: usize, what: &str) -> Result<(), AllocError> {
        writeln!(self.text, "{}:{line}: {what}", self.file)
    }

    pub(crate) fn tell_got(&mut self, got: &str) -> Result<(), AllocError> {
        writeln!(self.text, "    got {got}")
    }

    /// Tells a fault. Want of memory ends the reading.
    pub(crate) fn tell_fault(&mut self, fault: RowFault) -> Result<(), AllocError> {
        match fault {
            RowFault::OutOfMemory => Err(AllocError),
            _ => writeln!(self.text, "    {fault:?}"),
        }
    }
}
