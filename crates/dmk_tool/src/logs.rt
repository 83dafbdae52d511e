//! What is told of a build log.

ghost use Rattle.std.specs.Prelude.{◌≡◌, ◌⊎◌};

use crate::request::{LogAsked, LogForm};
use crate::streams::tell;
use bl_reading::{Fault, Refusal, Run, read_log};
use bl_reports::{page, stats, trace};
use st_programs::standard_output;
use std::io::{self, Read, Write};
use std::{fmt, fs};

const STANDARD_INPUT: &str = "-";

/// What is wrong with a file, and in which line of it.
#[derive(Drop)]
struct Wrong<'a, T: Drop> {
    file: &'a str,
    line: Option<usize>,
    what: &'a T,
}

impl<T: fmt::Display + Drop> fmt::Display for Wrong<'_, T> {
    fn fmt<W: fmt::Write>(&self, f: &mut fmt::Formatter<W>) -> fmt::Result {
        let file = self.file;
        let what = self.what;
        match self.line {
            Some(line) => write!(f, "{file}:{line}: {what}"),
            None => write!(f, "{file}: {what}"),
        }
    }
}

/// Answers what is asked of a log: 0, or 2 at a fault, which is told.
pub fn answer_of_log(rt: HostRuntime, asked: &LogAsked) -> u8
    ensures { (result ≡ 0) ⊎ (result ≡ 2) }
{
    let Some(run) = run_of(rt, asked) else {
        return 2;
    };
    if let Some(line) = run.cut_off {
        tell_wrong(
            rt,
            "note: ",
            asked.log.as_str(),
            Some(line),
            &"cut off, passed over",
        );
    }
    match write_form(rt, &asked.form, &run) {
        true => 0,
        false => 2,
    }
}

fn tell_wrong<T: fmt::Display + Drop>(
    rt: HostRuntime,
    front: &str,
    file: &str,
    line: Option<usize>,
    what: &T,
) {
    let wrong = Wrong { file, line, what };
    tell(rt, front, &wrong);
}

/// The run that is asked of; None at a fault, which is told.
fn run_of(rt: HostRuntime, asked: &LogAsked) -> Option<Run> {
    let file = asked.log.as_str();
    match bytes_of(rt, file) {
        Ok(log) => run_in(rt, file, log.as_slice(), asked.run),
        Err(error) => {
            tell_wrong(rt, "", file, None, &error);
            None
        }
    }
}

fn run_in(rt: HostRuntime, file: &str, log: &[u8], wanted: Option<usize>) -> Option<Run> {
    match read_log(rt.alloc(), log, wanted) {
        Ok(run) => Some(run),
        Err(Refusal { line, fault }) => {
            tell_wrong(rt, "", file, line, &fault);
            None
        }
    }
}

fn bytes_of(rt: HostRuntime, file: &str) -> io::Result<Vec<u8>> {
    if file != STANDARD_INPUT {
        return fs::read(&rt, file);
    }
    let mut log = Vec::new(rt.alloc());
    let _count = rt.stdin().read_to_end(&mut log)?;
    Ok(log)
}

/// Writes what is asked for, and tells whether all of it was written; what wasn't is told.
fn write_form(rt: HostRuntime, form: &LogForm, run: &Run) -> bool {
    match form {
        LogForm::Stats => match stats(rt.alloc(), run) {
            Ok(text) => write_to(rt, None, text.as_slice()),
            Err(_) => tell_no_memory(rt),
        },
        LogForm::Timeline { page, trace } => {
            let is_traced = match trace {
                Some(file) => write_trace(rt, file.as_str(), run),
                None => true,
            };
            let is_drawn = match page {
                Some(file) => write_page(rt, Some(file.as_str()), run),
                None => trace.is_some() || write_page(rt, None, run),
            };
            is_traced && is_drawn
        }
    }
}

fn write_page(rt: HostRuntime, file: Option<&str>, run: &Run) -> bool {
    match page(rt.alloc(), run) {
        Ok(text) => write_to(rt, file, text.as_bytes()),
        Err(_) => tell_no_memory(rt),
    }
}

fn write_trace(rt: HostRuntime, file: &str, run: &Run) -> bool {
    match trace(rt.alloc(), run) {
        Ok(text) => write_to(rt, Some(file), text.as_bytes()),
        Err(_) => tell_no_memory(rt),
    }
}

fn tell_no_memory(rt: HostRuntime) -> bool {
    tell(rt, "", &Fault::OutOfMemory);
    false
}

/// Writes a text into a file, or to standard output where there is none.
fn write_to(rt: HostRuntime, file: Option<&str>, text: &[u8]) -> bool {
    let written = match file {
        Some(file) => fs::write(&rt, file, text),
        None => write_out(rt, text),
    };
    match written {
        Ok(()) => true,
        Err(error) => {
            tell_wrong(rt, "", file.unwrap_or("standard output"), None, &error);
            false
        }
    }
}

fn write_out(rt: HostRuntime, text: &[u8]) -> io::Result<()> {
    let mut out = standard_output(rt);
    out.write_all(text)?;
    out.flush()
}
