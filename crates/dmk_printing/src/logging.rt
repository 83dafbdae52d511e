//! What the log of a run is told.

use crate::counts::Counts;
use crate::printer::Printer;
use dmk_log::{Log, Totals};
use jb_recipe::{News, NotDone, Step, Stopped};
use mk_graph::Edges;
use mk_names::Names;
use mk_plan::Telling;
use mk_recipe::Outcome;
use std::io::Write;
use std::sync::Wait;

impl<'a, R: Wait, O: Write + Drop, E: Write + Drop> Printer<'a, R, O, E> {
    /// What happens from here on is told to this log too.
    pub fn log_to(&mut self, log: Option<&'a Log<O>>) {
        self.log = log;
    }

    /// Whether the run has a log.
    pub fn is_logged(&self) -> bool {
        self.log.is_some()
    }

    /// How much is told of why targets are made, where so much is asked for: to the log that is told to which it isn't.
    pub fn telling(&self, asked: Telling, makes_all: bool) -> Telling {
        match (self.log, asked) {
            (Some(_), Telling::Nothing) if makes_all => Telling::AllMade,
            (Some(_), Telling::Nothing) => Telling::Reasons,
            _ => asked,
        }
    }

    /// Tells the log how many recipes may run at once, and the state's name, if one is kept.
    pub fn log_run(&self, workers: usize, state: Option<&str>) {
        if let Some(log) = self.log {
            log.runs_with(self.rt, workers, state);
        }
    }

    /// Tells the log the names of a graph, and what each is made from directly.
    pub fn log_names(&self, names: &Names, made_of: &Edges) {
        if let Some(log) = self.log {
            log.knows(self.rt, names, made_of);
        }
    }

    /// A part of the run has ended, whose recipes came to this. It is told at the end where that `is_told`, and to the log.
    pub fn count(&self, counts: Counts, is_told: bool) {
        if let Some(log) = self.log {
            log.count(
                self.rt,
                Totals {
                    made: counts.made,
                    failed: counts.failed,
                    not_made: counts.left,
                },
            );
        }
        if is_told {
            self.streams.lock(self.rt).count(counts);
        }
    }
}

/// The signal that ended a recipe, where one did.
fn signal_of(not_done: Option<&NotDone>) -> Option<u32> {
    match not_done {
        Some(
            NotDone::Stopped(Stopped::By(signal)) | NotDone::StoppedAndRemoved(Stopped::By(signal)),
        ) => u32::try_from(signal.0).ok(),
        _ => None,
    }
}

/// A run with this log is a step further.
pub(crate) fn log_step<R: Wait, O: Write + Drop>(rt: &R, log: &Log<O>, step: Step<'_>) {
    match step {
        Step::Planned(_) => {}
        Step::Begins(target) => log.begins(rt, target),
        Step::Runs(text) => log.runs(rt, text),
        Step::Ends(target, Outcome::Done) => log.ends(rt, target, 0),
        Step::Ends(target, Outcome::Failed(status)) => log.ends(rt, target, status),
    }
}

/// Tells a log news. Whether they are for it alone.
pub(crate) fn log_news<R: Wait, O: Write + Drop>(rt: &R, log: &Log<O>, news: News<'_>) -> bool {
    match news {
        News::Failed {
            target,
            not_done,
            ..
        } => {
            log.failed(rt, target, signal_of(not_done));
            false
        }
        News::Unwritten { .. } => log.hides(),
        _ => false,
    }
}
