//! How many recipes of a run have ended, and the line that says so where nothing is drawn.

use jb_recipe::Step;
use std::io::{self, Write};

/// How far a run is.
#[derive(Clone, Copy)]
pub struct Progress {
    planned: usize,
    /// So many have ended.
    pub ended: usize,
    /// So many run.
    pub running: usize,
}

impl Progress {
    /// No recipe was begun.
    pub fn none() -> Progress {
        Progress {
            planned: 0,
            ended: 0,
            running: 0,
        }
    }

    /// The run is a step further.
    pub fn go_on(&mut self, step: Step<'_>) {
        match step {
            Step::Planned(planned) => self.planned = self.ended.saturating_add(planned),
            Step::Begins(_) => self.running = self.running.saturating_add(1),
            Step::Runs(_) => {}
            Step::Ends(_, _) => {
                self.running = self.running.saturating_sub(1);
                self.ended = self.ended.saturating_add(1);
            }
        }
    }

    /// How many recipes are to be run, as far as is known.
    pub fn all(self) -> usize {
        self.planned.max(self.ended.saturating_add(self.running))
    }
}

/// The line of a target whose recipe has ended. It may be no text.
pub fn write_end<O: Write>(out: &mut O, progress: Progress, target: &[u8]) -> io::Result<()> {
    let all = progress.all();
    let ended = progress.ended;
    write!(out, "[{ended}/{all}] ")?;
    out.write_all(target)?;
    out.write_all(b"\n")?;
    out.flush()
}
