//! The recipes that run, the oldest first, and what they wrote.

use crate::held::Held;
use jb_host::Stream;
use std::alloc::{AllocError, Global};

/// What is to be printed on the two streams.
pub(crate) struct Written {
    pub(crate) out: Vec<u8>,
    pub(crate) err: Vec<u8>,
}

impl Drop for Written {
    fn drop(self) {
        let Written { out: _, err: _ } = self;
    }
}

impl Written {
    fn nothing(alloc: Global) -> Written {
        Written {
            out: Vec::new(alloc),
            err: Vec::new(alloc),
        }
    }
}

/// A recipe that runs.
pub(crate) struct Running {
    number: u64,
    /// The thread that runs its lines, as the system names it.
    worker: String,
    out: Held,
    err: Held,
}

impl Drop for Running {
    fn drop(self) {
        let Running {
            number: _,
            worker: _,
            out: _,
            err: _,
        } = self;
    }
}

impl Running {
    /// Keeps what was written, and says whether a line that is kept is whole.
    fn keep(&mut self, stream: Stream, bytes: &[u8]) -> Result<bool, AllocError> {
        match stream {
            Stream::Out => self.out.keep(bytes)?,
            Stream::Err => self.err.keep(bytes)?,
        }
        Ok(self.out.has_lines() || self.err.has_lines())
    }

    pub(crate) fn take_all(&mut self, alloc: Global) -> Written {
        Written {
            out: self.out.take_all(alloc),
            err: self.err.take_all(alloc),
        }
    }

    fn take_lines(&mut self, alloc: Global) -> Written {
        Written {
            out: self.out.take_lines(alloc),
            err: self.err.take_lines(alloc),
        }
    }
}

/// What is to be printed of what a recipe wrote.
#[derive(Clone, Copy)]
pub(crate) enum Due {
    Nothing,
    /// It has the front, and lines of it are whole.
    Lines,
    /// There is no memory to keep it.
    All,
}

/// The recipes that run, in the order in which they began. What the first one writes is printed as it comes, what the others write is
/// kept until they end or are the first.
pub(crate) struct Queue {
    alloc: Global,
    running: Vec<Running>,
    /// How many recipes began.
    begun: u64,
}

impl Drop for Queue {
    fn drop(self) {
        let Queue {
            alloc: _,
            running: _,
            begun: _,
        } = self;
    }
}

impl Queue {
    pub(crate) fn new(alloc: Global) -> Queue {
        Queue {
            alloc,
            running: Vec::new(alloc),
            begun: 0,
        }
    }

    /// A recipe begins, whose lines this thread runs. Where there is no memory for it, it has no number.
    pub(crate) fn begin(&mut self, worker: String) {
        self.begun = self.begun.wrapping_add(1);
        let _ = self.running.push(Running {
            number: self.begun,
            worker,
            out: Held::new(self.alloc),
            err: Held::new(self.alloc),
        });
    }

    /// The number of the recipe whose lines this thread runs.
    pub(crate) fn number(&self, worker: &str) -> Option<u64> {
        for running in &self.running {
            if running.worker.as_str() == worker {
                return Some(running.number);
            }
        }
        None
    }

    /// Keeps what a recipe wrote, if there is memory, and says what is to be printed.
    pub(crate) fn keep(&mut self, number: u64, stream: Stream, bytes: &[u8]) -> Due {
        let place = self
            .running
            .iter()
            .position(|running| running.number == number);
        let Some(place) = place else {
            return Due::All;
        };
        let Ok(has_lines) = self.running[place].keep(stream, bytes) else {
            return Due::All;
        };
        if place == 0 && has_lines {
            Due::Lines
        } else {
            Due::Nothing
        }
    }

    /// The lines of the first recipe that are whole.
    pub(crate) fn take_lines(&mut self) -> Written {
        match self.running.first_mut() {
            Some(first) => first.take_lines(self.alloc),
            None => Written::nothing(self.alloc),
        }
    }

    /// All that is kept of the recipe with this number.
    pub(crate) fn take_all(&mut self, number: u64) -> Written {
        let place = self
            .running
            .iter()
            .position(|running| running.number == number);
        match place {
            Some(place) => self.running[place].take_all(self.alloc),
            None => Written::nothing(self.alloc),
        }
    }

    /// The recipes whose end wasn't told, and where their memory comes from.
    pub(crate) fn into_running(self) -> (Global, Vec<Running>) {
        let Queue {
            alloc,
            running,
            begun: _,
        } = self;
        (alloc, running)
    }

    /// The recipe with this number has ended: all that is kept of it.
    pub(crate) fn end(&mut self, number: u64) -> Written {
        let written = self.take_all(number);
        self.running.retain(|running| running.number != number);
        written
    }
}
