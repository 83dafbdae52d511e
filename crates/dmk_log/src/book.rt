//! What a log knows of its run, and the lines that it writes of that.

use crate::event::{
    Head, Outcome, Totals, begun_line, end_line, ended_line, judged_line, run_line,
};
use crate::lanes::Lanes;
use crate::sink::Sink;
use crate::targets::Targets;
use crate::told::{FRONT, Told, told_in};
use byte_strings::ByteString;
use mk_graph::Edges;
use mk_names::Names;
use plain_text::Plain;
use std::alloc::{AllocError, Global};
use std::fmt::Display;
use std::io::Write;
use std::time::Instant;

/// The status of a recipe that was stopped or not started, in what is told of its end.
const NO_STATUS: u32 = 256;

/// That of a command which can't be started, as a shell tells it (POSIX, 2.8.2).
const NOT_STARTED: u32 = 127;

pub(crate) struct Book<O: Write + Drop> {
    pub(crate) host: HostRuntime,
    pub(crate) alloc: Global,
    pub(crate) path: String,
    pub(crate) began: Option<Instant>,
    /// None once a line couldn't be written.
    pub(crate) sink: Option<Sink<O>>,
    /// What the first line says, until that is written.
    pub(crate) head: Option<Head>,
    pub(crate) lanes: Lanes,
    pub(crate) targets: Targets,
    /// Lines of recipes that are about to be run and look as if they told why a target is made.
    pub(crate) alike: Vec<ByteString>,
    /// There was no memory for one of them.
    pub(crate) forgets: bool,
    /// The time that was told last.
    pub(crate) time: u64,
    pub(crate) totals: Totals,
}

impl<O: Write + Drop> Drop for Book<O> {
    fn drop(self) {
        let Book {
            host: _,
            alloc: _,
            path: _,
            began: _,
            sink: _,
            head: _,
            lanes: _,
            targets: _,
            alike: _,
            forgets: _,
            time: _,
            totals: _,
        } = self;
    }
}

impl<O: Write + Drop> Book<O> {
    /// How long the run has taken, in nanoseconds. It never goes back.
    fn now(&mut self) -> u64 {
        if let Some(began) = self.began {
            if let Ok(passed) = began.elapsed(&self.host) {
                let time = u64::try_from(passed.as_nanos()).unwrap_or(u64::MAX);
                self.time = self.time.max(time);
            }
        }
        self.time
    }

    /// Nothing more is written, which is told once.
    fn give_up<F: Display>(&mut self, fault: &F) {
        self.sink = None;
        let mut err = self.host.stderr();
        let _ = writeln!(
            Plain::over(&mut err),
            "dmk: note: the log {} ends here: {fault}",
            self.path
        );
    }

    fn put(&mut self, line: Result<Vec<u8>, AllocError>) {
        let Some(sink) = &mut self.sink else {
            drop(line);
            return;
        };
        match line {
            Ok(line) => {
                let written = sink.write(&line);
                drop(line);
                if let Err(error) = written {
                    self.give_up(&error);
                }
            }
            Err(error) => self.give_up(&error),
        }
    }

    /// The first line is written now, if it wasn't.
    pub(crate) fn begin_run(&mut self) {
        let Some(head) = self.head.take() else {
            return;
        };
        let line = run_line(self.alloc, &head);
        drop(head);
        self.put(line);
    }

    /// These are the names of the run from here on, and what each is made from.
    pub(crate) fn know(&mut self, names: &Names, made_of: &Edges) {
        match Targets::of(self.alloc, names, made_of) {
            Ok(targets) => self.targets = targets,
            Err(error) => self.give_up(&error),
        }
    }

    /// A line of a recipe is about to be run.
    pub(crate) fn runs(&mut self, text: &[u8]) {
        if text.starts_with(FRONT) && self.note_alike(text).is_err() {
            self.forgets = true;
        }
    }

    fn note_alike(&mut self, text: &[u8]) -> Result<(), AllocError> {
        let text = ByteString::from_slice(self.alloc, text)?;
        self.alike.push(text)?;
        Ok(())
    }

    /// Whether a line that is said tells why a target is made, and isn't one of a recipe.
    pub(crate) fn is_told(&mut self, text: &[u8]) -> bool {
        if self.forgets || !text.starts_with(FRONT) {
            return false;
        }
        let place = self.alike.iter().position(|line| line.as_slice() == text);
        match place {
            Some(place) => {
                drop(self.alike.swap_remove(place));
                false
            }
            None => true,
        }
    }

    /// A line is told.
    pub(crate) fn told(&mut self, text: &[u8]) {
        match told_in(self.alloc, &self.targets, text) {
            Ok(Some(told)) => self.judged(told),
            Ok(None) => {}
            Err(error) => self.give_up(&error),
        }
    }

    fn judged(&mut self, told: Told<'_>) {
        self.begin_run();
        let time = self.now();
        let line = self.judged_line(told, time);
        self.put(line);
    }

    fn judged_line(&self, told: Told<'_>, time: u64) -> Result<Vec<u8>, AllocError> {
        let prerequisites = self.targets.prerequisites(self.alloc, told.target)?;
        judged_line(
            self.alloc,
            self.targets.name(told.target),
            told.verdict,
            &prerequisites,
            time,
        )
    }

    /// The recipe of a target begins.
    pub(crate) fn begins(&mut self, target: &[u8]) {
        self.begin_run();
        let time = self.now();
        let line = match self.lanes.begin(self.alloc, target) {
            Ok(worker) => begun_line(self.alloc, target, worker, time),
            Err(error) => Err(error),
        };
        self.put(line);
    }

    /// Its lines came to this status. Where it has none, what became of it is told later.
    pub(crate) fn ends(&mut self, target: &[u8], status: u32) {
        if status < NO_STATUS {
            self.ended(target, Outcome::Status(status));
        }
    }

    /// A target isn't made, by this signal where one ended its recipe.
    pub(crate) fn failed(&mut self, target: &[u8], signal: Option<u32>) {
        self.ended(
            target,
            match signal {
                Some(signal) => Outcome::Signal(signal),
                None => Outcome::Status(NOT_STARTED),
            },
        );
    }

    /// What is told of a recipe that doesn't run is passed over: it was told before.
    fn ended(&mut self, target: &[u8], outcome: Outcome) {
        let Some(worker) = self.lanes.end(target) else {
            return;
        };
        let time = self.now();
        let line = ended_line(self.alloc, target, worker, outcome, time);
        self.put(line);
    }

    /// The run is over.
    pub(crate) fn end(&mut self, status: u8) {
        self.begin_run();
        let time = self.now();
        let line = end_line(self.alloc, status, self.totals, time);
        self.put(line);
    }
}
