//! A fake of all that a run calls: recipe lines, reports and files, what is printed, and a pool of tokens.

use crate::pool::Tap;
use crate::way::Way;
use jb_recipe::PlaceFault;
use jb_slots::End;
use std::alloc::{AllocError, Global};
use std::sync::{Mutex, Wait};
use std::time::Clock;

/// What came of the calls so far.
pub struct Notes {
    /// What was printed. A line on standard error has a `!` in front, a call about a file a `~`.
    pub said: Vec<u8>,
    /// The lines that were run.
    pub ran: Vec<u8>,
    /// The tokens that lie in the pool.
    pub tokens: Vec<u8>,
    /// How many tokens were read.
    pub reads: u32,
    /// Whether a token came back from a worker that hadn't read it.
    pub are_mixed: bool,
    /// How many lines that meet, and how many reads of a broken pool, have begun.
    pub begun: u8,
}

// The lines that are run take no memory up to this size.
const ROOM: usize = 4000;

impl Drop for Notes {
    fn drop(self) {
        let Notes {
            said: _,
            ran: _,
            tokens: _,
            reads: _,
            are_mixed: _,
            begun: _,
        } = self;
    }
}

impl Notes {
    /// One more that others wait for has begun.
    pub fn begin(&mut self) {
        self.begun = self.begun.saturating_add(1);
    }
}

/// A worker's end of the pool.
pub type TokenEnd<'f, R> = End<Tap<'f, R>>;

pub struct Fake<R: Wait + Clock + Copy> {
    pub rt: R,
    pub alloc: Global,
    pub sync: Result<(), PlaceFault>,
    pub keeps_reports: bool,
    pub is_broken: bool,
    pub notes: Mutex<Notes>,
}

impl<R: Wait + Clock + Copy> Drop for Fake<R> {
    fn drop(self) {
        let Fake {
            rt: _,
            alloc: _,
            sync: _,
            keeps_reports: _,
            is_broken: _,
            notes: _,
        } = self;
    }
}

impl<R: Wait + Clock + Copy> Fake<R> {
    pub fn new(rt: R, alloc: Global, way: &Way) -> Result<Fake<R>, AllocError> {
        let tokens = Vec::from_slice(alloc, way.tokens.unwrap_or(b""))?;
        let ran = Vec::with_capacity(alloc, ROOM)?;
        Ok(Fake {
            rt,
            alloc,
            sync: way.sync,
            keeps_reports: way.keeps_reports,
            is_broken: way.tokens.is_none(),
            notes: Mutex::new(Notes {
                said: Vec::new(alloc),
                ran,
                tokens,
                reads: 0,
                are_mixed: false,
                begun: 0,
            }),
        })
    }

    /// An end of the pool that has room to note so many tokens.
    pub fn end<'f>(&'f self, alloc: Global, room: usize) -> Result<TokenEnd<'f, R>, AllocError> {
        End::new(alloc, Tap::new(self), room)
    }

    /// So many ends of the pool, each with room for a token a node.
    pub fn ends<'f>(
        &'f self,
        workers: usize,
        nodes: usize,
    ) -> Result<Vec<TokenEnd<'f, R>>, AllocError> {
        let mut ends = Vec::with_capacity(self.alloc, workers)?;
        for _ in 0..workers {
            ends.push(self.end(self.alloc, nodes)?)?;
        }
        Ok(ends)
    }

    pub fn into_notes(self) -> Notes {
        let Fake {
            rt: _,
            alloc: _,
            sync: _,
            keeps_reports: _,
            is_broken: _,
            notes,
        } = self;
        notes.into_inner()
    }
}
