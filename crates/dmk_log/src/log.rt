//! The log of a run. Several threads tell it what happens, so a lock is taken for each event, and the lines stand in the order of their
//! times.

use crate::book::Book;
use crate::event::{Head, Totals};
use crate::lanes::Lanes;
use crate::sink::{OUTPUT, Sink, open};
use crate::targets::Targets;
use mk_graph::Edges;
use mk_names::Names;
use std::alloc::{AllocError, Global};
use std::io::{self, Write};
use std::sync::{Mutex, Wait};
use std::time::{Instant, SystemTime};
use thiserror::Error;

/// Why there is no log.
#[derive(Debug, Drop, Error)]
pub enum LogFault {
    #[error("out of memory")]
    OutOfMemory,
    /// The file of this name, by this error of the system.
    #[error("cannot open the log {0}: {1}")]
    NotOpened(String, io::Error),
}

impl From<AllocError> for LogFault {
    fn from(_error: AllocError) -> LogFault {
        LogFault::OutOfMemory
    }
}

pub struct Log<O: Write + Drop> {
    /// Why targets are made is told to the log alone.
    hides: bool,
    is_output: bool,
    book: Mutex<Book<O>>,
}

impl<O: Write + Drop> Drop for Log<O> {
    fn drop(self) {
        let Log {
            hides: _,
            is_output: _,
            book: _,
        } = self;
    }
}

/// Nanoseconds since 1970; 0 where the system doesn't tell.
fn unix_time(host: HostRuntime) -> u64 {
    let Ok(now) = SystemTime::now(&host) else {
        return 0;
    };
    match now.duration_since(SystemTime::UNIX_EPOCH) {
        Ok(passed) => u64::try_from(passed.as_nanos()).unwrap_or(u64::MAX),
        Err(_) => 0,
    }
}

fn sink_of<O: Write + Drop>(host: HostRuntime, path: &str, output: O) -> io::Result<Sink<O>> {
    if path == OUTPUT {
        return Ok(Sink::Output(output));
    }
    drop(output);
    Ok(Sink::File(open(host, path)?))
}

fn book_of<O: Write + Drop>(
    host: HostRuntime,
    path: String,
    head: Head,
    output: O,
) -> Result<Book<O>, LogFault> {
    let alloc = host.alloc();
    let targets = Targets::none(alloc)?;
    let sink = match sink_of(host, path.as_str(), output) {
        Ok(sink) => sink,
        Err(error) => {
            drop(targets);
            drop(head);
            return Err(LogFault::NotOpened(path, error));
        }
    };
    Ok(Book {
        host,
        alloc,
        path,
        began: Instant::now(&host).ok(),
        sink: Some(sink),
        head: Some(head),
        lanes: Lanes::none(alloc),
        targets,
        alike: Vec::new(alloc),
        forgets: false,
        time: 0,
        totals: Totals {
            made: 0,
            failed: 0,
            not_made: 0,
        },
    })
}

impl<O: Write + Drop> Log<O> {
    /// A log in the file of this name, which it is added to, or on this output where the name is `-`. Where `hides`, why targets are made
    /// is told to the log alone. Nothing is written yet.
    pub fn open(
        host: HostRuntime,
        path: String,
        head: Head,
        hides: bool,
        output: O,
    ) -> Result<Log<O>, LogFault> {
        let is_output = path.as_str() == OUTPUT;
        let mut head = head;
        head.began = unix_time(host);
        let book = book_of(host, path, head, output)?;
        Ok(Log {
            hides,
            is_output,
            book: Mutex::new(book),
        })
    }

    /// Whether it goes to standard output.
    pub fn is_output(&self) -> bool {
        self.is_output
    }

    /// Whether news are told for the log alone that are told beside reasons.
    pub fn hides(&self) -> bool {
        self.hides
    }

    /// So many recipes may run at once, and the state has this name, if one is kept.
    pub fn runs_with<R: Wait>(&self, rt: &R, workers: usize, state: Option<&str>) {
        let mut book = self.book.lock(rt);
        let alloc = book.alloc;
        if let Some(head) = &mut book.head {
            head.workers = workers as u64;
            if let Some(state) = state {
                head.state = String::from_str(alloc, state).ok();
            }
        }
    }

    /// These are the names of the run from here on, and what each is made from directly.
    pub fn knows<R: Wait>(&self, rt: &R, names: &Names, made_of: &Edges) {
        self.book.lock(rt).know(names, made_of);
    }

    /// A line of a recipe is about to be run.
    pub fn runs<R: Wait>(&self, rt: &R, text: &[u8]) {
        self.book.lock(rt).runs(text);
    }

    /// A line is said. Whether it is for the log alone.
    pub fn line<R: Wait>(&self, rt: &R, text: &[u8]) -> bool {
        let mut book = self.book.lock(rt);
        if !book.is_told(text) {
            return false;
        }
        book.told(text);
        self.hides
    }

    /// The recipe of a target begins.
    pub fn begins<R: Wait>(&self, rt: &R, target: &[u8]) {
        self.book.lock(rt).begins(target);
    }

    /// The lines of its recipe came to this status: 256 where they have none, and what became of them is told later.
    pub fn ends<R: Wait>(&self, rt: &R, target: &[u8], status: u32) {
        self.book.lock(rt).ends(target, status);
    }

    /// A target isn't made, by this signal where one ended its recipe.
    pub fn failed<R: Wait>(&self, rt: &R, target: &[u8], signal: Option<u32>) {
        self.book.lock(rt).failed(target, signal);
    }

    /// A part of the run came to this.
    pub fn count<R: Wait>(&self, rt: &R, totals: Totals) {
        let mut book = self.book.lock(rt);
        book.totals = book.totals.with(totals);
    }

    /// The run is over, with this status.
    pub fn end<R: Wait>(&self, rt: &R, status: u8) {
        self.book.lock(rt).end(status);
    }
}
