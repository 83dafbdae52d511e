//! A run, as its log tells it. Times are nanoseconds since it began.

use bl_log::Span;
use mk_graph::Edges;
use mk_names::Names;

/// How a recipe ended.
#[derive(Clone, Copy, Debug, PartialEq, Eq)]
pub enum Outcome {
    Status(u64),
    Signal(u64),
}

/// What is told of a recipe that ended; of what isn't told nothing is known.
#[derive(Clone, Copy, Debug)]
pub struct Ended {
    pub outcome: Outcome,
    pub bytes: Option<u64>,
    pub processor_nanoseconds: Option<u64>,
    pub time: u64,
}

#[derive(Clone, Copy, Debug)]
pub struct Recipe {
    /// Which of the names is its target's.
    pub target: u32,
    pub worker: u64,
    pub begin: u64,
    /// None where the run was cut off.
    pub ended: Option<Ended>,
}

/// A batch that is on the disk.
#[derive(Clone, Copy, Debug)]
pub struct Commit {
    pub records: u64,
    pub took_nanoseconds: u64,
    pub time: u64,
}

#[derive(Clone, Copy, Debug)]
pub struct End {
    pub status: u64,
    pub made: u64,
    pub failed: u64,
    pub not_made: u64,
}

pub struct Run {
    /// Which run of the log it is, counted from 1.
    pub number: usize,
    /// The words of its command line, a blank between them.
    pub words: String,
    pub workers: u64,
    pub names: Names,
    /// In the order in which they began.
    pub recipes: Vec<Recipe>,
    /// Of each recipe from when to when it ran; of one that didn't end up to the last time that is told.
    pub spans: Vec<Span>,
    /// Of each recipe those of its prerequisites.
    pub prerequisites: Edges,
    pub commits: Vec<Commit>,
    /// How many targets with a recipe were looked at, and how many of these were up to date.
    pub judged: u64,
    pub up_to_date: u64,
    /// None where the run was cut off.
    pub end: Option<End>,
    /// The last time that is told.
    pub time: u64,
    /// The last line of the log where it is cut off, and so passed over.
    pub cut_off: Option<usize>,
}

impl Run {
    /// The name of a recipe's target; an empty one where there is no such recipe.
    pub fn target(&self, recipe: usize) -> &[u8] {
        if recipe >= self.recipes.len() {
            return &[];
        }
        let number = self.recipes[recipe].target as usize;
        if number < self.names.len() {
            self.names.name(number)
        } else {
            &[]
        }
    }
}

impl Drop for Run {
    fn drop(self) {
        let Self {
            number: _,
            words: _,
            workers: _,
            names: _,
            recipes: _,
            spans: _,
            prerequisites: _,
            commits: _,
            judged: _,
            up_to_date: _,
            end: _,
            time: _,
            cut_off: _,
        } = self;
    }
}
