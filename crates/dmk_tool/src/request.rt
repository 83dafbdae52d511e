//! What the words ask for.

use st_answers::Extent;
use std::alloc::{AllocError, AllocFailed};
use thiserror::Error;

/// What is asked of a state.
#[derive(Drop)]
pub enum Question {
    /// Which targets it has, or just those that are `stale`.
    Targets { stale: bool },
    /// All that it has, as a listing or as JSON.
    List { json: bool },
    /// What it has of each of these names.
    Names(Topic, Vec<Vec<u8>>),
    /// Why these targets aren't as they were made.
    Why(Vec<Vec<u8>>),
    /// A compilation database, with each command where `all` are wanted.
    Database { all: bool },
    /// What is drawn from these names, or from all targets where there are none.
    Graph(Vec<Vec<u8>>, Extent),
    /// That files of targets are removed.
    Clean(Cleaning),
}

/// Which files are removed.
#[derive(Drop)]
pub struct Cleaning {
    /// Those of these targets; of all where there is none.
    pub names: Option<Vec<Vec<u8>>>,
    /// Whether it is just told what would be removed.
    pub dry_run: bool,
    /// Whether files outside the tree below the working folder are, too.
    pub outside: bool,
}

/// What is asked of a name.
#[derive(Clone, Copy, PartialEq, Eq)]
pub enum Topic {
    Commands,
    Hidden,
    /// All that is known of it.
    Everything,
}

/// A question, and the file whose state is asked.
#[derive(Drop)]
pub struct Asked {
    pub file: String,
    pub question: Question,
}

/// A build log, and what is told of it.
#[derive(Drop)]
pub struct LogAsked {
    pub log: String,
    /// Which run of it, counted from 1; the last one where there is none.
    pub run: Option<usize>,
    pub form: LogForm,
}

/// How a run is told.
#[derive(Drop)]
pub enum LogForm {
    Stats,
    /// A page and a trace, in these files; the page on standard output where there is neither.
    Timeline {
        page: Option<String>,
        trace: Option<String>,
    },
}

#[derive(Drop)]
pub enum Request {
    Ask(Asked),
    Read(LogAsked),
    /// Nothing more: what there was to say was said. The program ends with this status.
    Leave(u8),
}

/// Why the words aren't followed, where nothing was said of it yet.
#[derive(Clone, Copy, Debug, PartialEq, Eq, Error)]
pub enum WordsFault {
    #[error("out of memory")]
    OutOfMemory,
    /// One that isn't the name of a target.
    #[error("a word of the command line isn't UTF-8")]
    NotText,
    /// The help or the version was asked for and couldn't be printed.
    #[error("cannot write")]
    Write,
}

impl From<AllocError> for WordsFault {
    fn from(_fault: AllocError) -> WordsFault {
        WordsFault::OutOfMemory
    }
}

impl<T: Drop> From<AllocFailed<T>> for WordsFault {
    fn from(_fault: AllocFailed<T>) -> WordsFault {
        WordsFault::OutOfMemory
    }
}
