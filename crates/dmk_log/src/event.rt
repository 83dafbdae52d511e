//! What there is to tell of a run, each event in a line of its own.

use crate::json::Line;
use byte_strings::ByteStrings;
use std::alloc::{AllocError, Global};

/// The version of the lines.
const VERSION: u64 = 1;

/// What is known of a run where its first line is written.
#[derive(Drop)]
pub struct Head {
    /// The words of the command line.
    pub words: Vec<String>,
    pub is_wide: bool,
    /// How many recipes may run at once.
    pub workers: u64,
    /// The name of the state file; None where no state is kept.
    pub state: Option<String>,
    /// When it began, in nanoseconds since 1970.
    pub began: u64,
}

/// Why a target is made, in the words of `-d`.
#[derive(Clone, Copy)]
pub(crate) enum Verdict<'a> {
    UpToDate,
    OutOfDate {
        reason: &'a [u8],
        file: Option<&'a [u8]>,
    },
}

/// How the lines of a recipe ended.
#[derive(Clone, Copy)]
pub(crate) enum Outcome {
    Status(u32),
    Signal(u32),
}

/// What a run came to.
#[derive(Clone, Copy)]
pub struct Totals {
    pub made: usize,
    pub failed: usize,
    pub not_made: usize,
}

impl Totals {
    /// These, and those of a further part of the run.
    pub(crate) fn with(self, more: Totals) -> Totals {
        Totals {
            made: self.made.saturating_add(more.made),
            failed: self.failed.saturating_add(more.failed),
            not_made: self.not_made.saturating_add(more.not_made),
        }
    }
}

fn words_of(alloc: Global, words: &[String]) -> Result<ByteStrings, AllocError> {
    let mut all = ByteStrings::empty(alloc);
    for word in words {
        all.push(word.as_bytes())?;
    }
    Ok(all)
}

/// The first line of a run.
pub(crate) fn run_line(alloc: Global, head: &Head) -> Result<Vec<u8>, AllocError> {
    let mut line = Line::of(alloc, "run")?;
    line.number("version", VERSION)?;
    line.names("words", &words_of(alloc, &head.words)?)?;
    line.text("profile", if head.is_wide { "posix" } else { "strict" })?;
    line.number("workers", head.workers)?;
    if let Some(state) = &head.state {
        line.text("state", state.as_str())?;
    }
    line.number("unix_ns", head.began)?;
    line.at(0)
}

/// A target with a recipe was judged.
pub(crate) fn judged_line(
    alloc: Global,
    target: &[u8],
    verdict: Verdict<'_>,
    prerequisites: &ByteStrings,
    time: u64,
) -> Result<Vec<u8>, AllocError> {
    let mut line = Line::of(alloc, "judged")?;
    line.name("target", target)?;
    match verdict {
        Verdict::UpToDate => line.text("verdict", "up to date")?,
        Verdict::OutOfDate { reason, file } => {
            line.text("verdict", "out of date")?;
            line.name("reason", reason)?;
            if let Some(file) = file {
                line.name("file", file)?;
            }
        }
    }
    line.names("prerequisites", prerequisites)?;
    line.at(time)
}

/// The recipe of a target begins.
pub(crate) fn begun_line(
    alloc: Global,
    target: &[u8],
    worker: usize,
    time: u64,
) -> Result<Vec<u8>, AllocError> {
    let mut line = Line::of(alloc, "begun")?;
    line.name("target", target)?;
    line.number("worker", worker as u64)?;
    line.at(time)
}

/// It has ended.
pub(crate) fn ended_line(
    alloc: Global,
    target: &[u8],
    worker: usize,
    outcome: Outcome,
    time: u64,
) -> Result<Vec<u8>, AllocError> {
    let mut line = Line::of(alloc, "ended")?;
    line.name("target", target)?;
    line.number("worker", worker as u64)?;
    match outcome {
        Outcome::Status(status) => line.number("status", u64::from(status))?,
        Outcome::Signal(signal) => line.number("signal", u64::from(signal))?,
    }
    line.at(time)
}

/// The last line of a run.
pub(crate) fn end_line(
    alloc: Global,
    status: u8,
    totals: Totals,
    time: u64,
) -> Result<Vec<u8>, AllocError> {
    let mut line = Line::of(alloc, "end")?;
    line.number("status", u64::from(status))?;
    line.number("made", totals.made as u64)?;
    line.number("failed", totals.failed as u64)?;
    line.number("not_made", totals.not_made as u64)?;
    line.at(time)
}
