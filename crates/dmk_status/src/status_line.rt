//! The line that says how far a run is, on a terminal: it is drawn in place, and gives way to all else that is printed.

use crate::progress::Progress;
use jb_recipe::Step;
use std::alloc::{AllocError, Global};
use std::io::Write;

/// Goes to the front of a line and clears it.
const CLEARED: &[u8] = b"\r\x1b[K";

/// How far a run is, in one line: how many recipes have ended of all that are to be run, and the line that was begun last.
pub struct StatusLine {
    alloc: Global,
    /// How many columns of the terminal it may take.
    columns: usize,
    /// The line of a recipe that was begun last.
    text: String,
    /// For how many seconds the run has stood as it does, as they were counted.
    seconds: u64,
    /// A recipe was begun, and the run isn't over.
    is_wanted: bool,
    /// It stands on the terminal, as far as the run has come.
    is_drawn: bool,
}

impl Drop for StatusLine {
    fn drop(self) {
        let StatusLine {
            alloc: _,
            columns: _,
            text: _,
            seconds: _,
            is_wanted: _,
            is_drawn: _,
        } = self;
    }
}

/// Appends the front of a text that takes at most so many columns: no character takes more of them than it has bytes. What isn't to be
/// seen is a blank, so that the line stays one.
fn push_front(line: &mut String, text: &str, columns: usize) -> Result<(), AllocError> {
    let mut left = columns;
    for character in text.chars() {
        let Some(rest) = left.checked_sub(character.len_utf8()) else {
            break;
        };
        left = rest;
        line.push(if character.is_control() {
            ' '
        } else {
            character
        })?;
    }
    Ok(())
}

impl StatusLine {
    /// Nothing is drawn yet.
    pub fn new(alloc: Global, columns: usize) -> StatusLine {
        StatusLine {
            alloc,
            columns,
            text: String::new(alloc),
            seconds: 0,
            is_wanted: false,
            is_drawn: false,
        }
    }

    /// The run is a step further.
    pub fn go_on(&mut self, step: Step<'_>) {
        self.seconds = 0;
        match step {
            Step::Begins(_) => self.is_wanted = true,
            Step::Runs(text) => {
                if let Ok(text) = String::from_utf8_lossy(self.alloc, text) {
                    self.text = text;
                }
            }
            Step::Planned(_) | Step::Ends(_, _) => {}
        }
    }

    /// A second has passed. The terminal may have another width since then.
    pub fn tick(&mut self, columns: Option<usize>) {
        self.seconds = self.seconds.saturating_add(1);
        self.columns = columns.unwrap_or(self.columns);
    }

    /// Whether it stands on the terminal.
    pub fn is_drawn(&self) -> bool {
        self.is_drawn
    }

    /// The run is over.
    pub fn end(&mut self) {
        self.is_wanted = false;
    }

    /// It gives way to what is printed next.
    pub fn clear<E: Write>(&mut self, err: &mut E) {
        if self.is_drawn {
            let _ = err.write_all(CLEARED);
            let _ = err.flush();
            self.is_drawn = false;
        }
    }

    /// Draws it in the place of what was drawn before. A terminal that doesn't take it has none.
    pub fn draw<E: Write>(&mut self, err: &mut E, progress: Progress) {
        if !self.is_wanted {
            return;
        }
        if let Ok(line) = self.line(progress) {
            let _ = write!(err, "\r{line}\x1b[K");
            let _ = err.flush();
            self.is_drawn = true;
        }
    }

    // Where even the counts have no room, nothing is shown.
    fn line(&self, progress: Progress) -> Result<String, AllocError> {
        let all = progress.all();
        let mut line = format!(in self.alloc; "[{}/{all}] ", progress.ended)?;
        let behind = self.behind(progress.running)?;
        let taken = line.len().saturating_add(behind.len());
        match self.columns.checked_sub(taken) {
            Some(left) => {
                push_front(&mut line, self.text.as_str(), left)?;
                line.push_str(behind.as_str())?;
            }
            None => line.clear(),
        }
        Ok(line)
    }

    // How many recipes run, where that is more than the one that is shown, and for how long they have, where that is more than
    // a moment.
    fn behind(&self, running: usize) -> Result<String, AllocError> {
        let lasts = self.seconds > 1;
        match running {
            0 => Ok(String::new(self.alloc)),
            1 if lasts => format!(in self.alloc; " ({} s)", self.seconds),
            1 => Ok(String::new(self.alloc)),
            _ if lasts => format!(in self.alloc; " ({running} run, {} s)", self.seconds),
            _ => format!(in self.alloc; " ({running} run)"),
        }
    }
}
