//! What is printed while recipes run.

use crate::NotDone;
use bd_lists::Ended;
use mk_plan::{LinePlace, RecipeFault};
use mk_recipe::Outcome;

/// What a run has to tell about its targets, on standard error.
#[derive(Clone, Copy)]
pub enum News<'a> {
    /// Its recipe failed with this status: 256 where it was stopped or not started, or where it passed and the target isn't done.
    Failed {
        target: &'a [u8],
        status: u32,
        not_done: Option<&'a NotDone>,
        /// Where the line stands that failed, if that is told.
        place: Option<LinePlace<'a>>,
        /// What that line ran, where it wasn't printed and is told.
        command: Option<&'a [u8]>,
    },
    /// A record of it may not stand in the state.
    NotRecorded {
        target: &'a [u8],
        /// The line of its recipe that is too long for one, if that is why, and its place is told.
        long: Option<LinePlace<'a>>,
    },
    /// A line of its recipe can't be expanded.
    NotExpanded {
        fault: &'a RecipeFault,
    },
    /// Its recipe passed and wrote no report, since a compiler was told to write what it read elsewhere. It is told once in a run.
    Unreported {
        target: &'a [u8],
    },
    /// Its recipe passed and didn't write this file, into which it writes what it read, as the makefile says.
    Unwritten {
        target: &'a [u8],
        path: &'a [u8],
    },
    /// What MAKEFLAGS names isn't used: recipes run one by one.
    SlotsUnused,
    /// No pool could be served, so recipes are told of none.
    NotServed,
    /// A token couldn't be read from the jobserver or given back. It is told once in a run.
    JobserverFailed,
    /// So many workers run, fewer than were asked for: no more could be started.
    FewerWorkers {
        workers: usize,
        asked: usize,
    },
}

/// How far a run is, for whoever follows it.
#[derive(Clone, Copy)]
pub enum Step<'a> {
    /// So many recipes are to be run, as far as is known before the first one is.
    Planned(usize),
    /// The recipe of this target begins.
    Begins(&'a [u8]),
    /// A line of a recipe is about to be run, whether it is printed or not.
    Runs(&'a [u8]),
    /// The lines of its recipe came to this. What it left may be a fault yet.
    Ends(&'a [u8], Outcome),
}

/// What prints. It is called while no lock of the run is held, by several threads, so it takes a lock of its own.
pub trait Say {
    /// Whether somebody follows how far a run is. To count its recipes before it takes time.
    fn is_followed(&self) -> bool;

    /// The run is a step further. What is printed of it stays in a log, and makes way for the next step on a terminal.
    fn step(&self, step: Step<'_>);

    /// A line of a recipe, without its prefixes, that is about to be run; or one that says why the recipe is.
    fn line(&self, text: &[u8]);

    /// All that the lines of a recipe wrote, as one block: on standard output what they wrote there, in their order, and on
    /// standard error likewise.
    fn block(&self, ended: &[Ended]);

    /// A line on standard error.
    fn tell(&self, news: News<'_>);
}
