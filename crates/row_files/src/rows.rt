//! The rows of a text.
use crate::calls::{Call, Calls};
use crate::report::Report;
use crate::row_fault::RowFault;
use std::alloc::{AllocError, Global};
use std::io;

/// The lines of a row before its first call.
pub trait Setup<'a>: Sized + Drop {
    /// What stands before the first line.
    fn new(alloc: Global) -> Self;

    /// Takes a line. Whether it is one of a setup.
    fn takes(&mut self, alloc: Global, line: &'a str) -> Result<bool, RowFault>;

    /// Makes what is called, and the calls. A fault is told as one of the whole setup.
    fn are_met(
        &mut self,
        alloc: Global,
        calls: &Calls<'a>,
        report: &mut Report<'_>,
    ) -> Result<bool, RowFault>;
}

/// A row as far as it was read.
#[derive(Drop)]
struct Row<'a, S: Setup<'a>> {
    line: usize,
    setup: S,
    calls: Calls<'a>,
    /// One of its lines can't be read.
    is_refused: bool,
}

impl<'a, S: Setup<'a>> Row<'a, S> {
    fn new(alloc: Global, line: usize) -> Row<'a, S> {
        Row {
            line,
            setup: S::new(alloc),
            calls: Calls {
                calls: Vec::new(alloc),
            },
            is_refused: false,
        }
    }

    /// Takes a line of the row: one of its setup, or a call with what is expected. Whether it is one.
    fn takes(&mut self, alloc: Global, line: usize, text: &'a str) -> Result<bool, RowFault> {
        match text.split_once(" > ") {
            Some((text, wanted)) => {
                self.calls.calls.push(Call { line, text, wanted })?;
                Ok(true)
            }
            None => Ok(self.calls.calls.is_empty() && self.setup.takes(alloc, text)?),
        }
    }

    /// Reads a line of the row, and tells the first that can't be read.
    fn read(
        &mut self,
        alloc: Global,
        line: usize,
        text: &'a str,
        report: &mut Report<'_>,
    ) -> Result<(), AllocError> {
        let fault = match self.takes(alloc, line, text) {
            Ok(true) => return Ok(()),
            Ok(false) => RowFault::Word,
            Err(fault) => fault,
        };
        if self.is_refused {
            return Ok(());
        }
        self.is_refused = true;
        report.tell(line, text)?;
        report.tell_fault(fault)
    }

    /// Whether each call gives what is wanted. A row without calls, or with a line that can't be read, has failed.
    fn is_met(&mut self, alloc: Global, report: &mut Report<'_>) -> Result<bool, AllocError> {
        if self.is_refused {
            return Ok(false);
        }
        if self.calls.calls.is_empty() {
            report.tell(self.line, "a row without calls")?;
            return Ok(false);
        }
        match self.setup.are_met(alloc, &self.calls, report) {
            Ok(are_met) => Ok(are_met),
            Err(fault) => {
                report.tell(self.line, "the setup of this row")?;
                report.tell_fault(fault)?;
                Ok(false)
            }
        }
    }
}

fn is_passed_over(line: &str) -> bool {
    line.is_empty() || line.strip_prefix("//").is_some()
}

fn begins_row(line: &str) -> bool {
    line.strip_prefix("row ").is_some()
}

/// Makes the calls of the row that was read, and counts it.
fn finish<'a, S: Setup<'a>>(
    alloc: Global,
    row: &mut Option<Row<'a, S>>,
    report: &mut Report<'_>,
) -> Result<(), AllocError> {
    if let Some(row) = row {
        let is_met = row.is_met(alloc, report)?;
        report.count(is_met);
    }
    Ok(())
}

fn read_line<'a, S: Setup<'a>>(
    alloc: Global,
    row: &mut Option<Row<'a, S>>,
    line: usize,
    text: &'a str,
    report: &mut Report<'_>,
) -> Result<(), AllocError> {
    if is_passed_over(text) {
        return Ok(());
    }
    if begins_row(text) {
        finish(alloc, row, report)?;
        *row = Some(Row::new(alloc, line));
        return Ok(());
    }
    match row {
        Some(row) => row.read(alloc, line, text, report),
        None => {
            report.count(false);
            report.tell(line, "no row has begun")
        }
    }
}

fn read_lines<'a, S: Setup<'a>>(
    alloc: Global,
    row: &mut Option<Row<'a, S>>,
    text: &'a str,
    report: &mut Report<'_>,
) -> Result<(), AllocError> {
    let mut line = 0usize;
    for text in text.lines() {
        line = line.saturating_add(1);
        read_line(alloc, row, line, text, report)?;
    }
    finish(alloc, row, report)?;
    if row.is_none() && report.failed == 0 {
        report.count(false);
        return report.tell(line, "no rows");
    }
    Ok(())
}

/// Reads the rows of a text, tells of those that differ, and counts them. A text without rows has failed.
fn read_rows<'a, S: Setup<'a>>(
    alloc: Global,
    text: &'a str,
    report: &mut Report<'_>,
) -> Result<(), AllocError> {
    let mut row: Option<Row<'a, S>> = None;
    read_lines(alloc, &mut row, text, report)
}

fn print_report(rt: HostRuntime, report: &Report<'_>) -> io::Result<bool> {
    print!(rt; "{}", report.text)?;
    println!(rt; "{} passed, {} failed", report.passed, report.failed)?;
    Ok(report.failed == 0)
}

/// Prints which rows of a text differ, and how many. Whether each gave what it expects.
pub fn print_rows<'a, S: Setup<'a>>(
    rt: HostRuntime,
    file: &str,
    text: &'a str,
) -> io::Result<bool> {
    let mut report = Report::new(rt.alloc(), file);
    read_rows::<S>(rt.alloc(), text, &mut report)?;
    print_report(rt, &report)
}
