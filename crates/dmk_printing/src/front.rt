//! Recipes whose output is printed as it comes, one at a time.

use crate::queue::{Due, Queue};
use crate::streams::Streams;
use jb_host::Stream;
use jb_janitor::worker_name;
use std::alloc::Global;
use std::io::Write;
use std::sync::{Mutex, Wait};

/// What a printer has by which the output of recipes is printed as it comes.
///
/// Its lock is taken while that of the streams is held, and never the other way round: so a recipe whose output is kept waits for
/// nobody who prints.
pub struct Front {
    host: HostRuntime,
    /// Both streams are one file.
    pub(crate) are_one: bool,
    queue: Mutex<Queue>,
}

impl Drop for Front {
    fn drop(self) {
        let Front {
            host: _,
            are_one: _,
            queue: _,
        } = self;
    }
}

impl Front {
    pub fn new(host: HostRuntime, alloc: Global, are_one: bool) -> Front {
        Front {
            host,
            are_one,
            queue: Mutex::new(Queue::new(alloc)),
        }
    }

    /// A recipe begins, whose lines this thread runs. What they write is collected where the system doesn't tell of the thread.
    pub(crate) fn begin<R: Wait>(&self, rt: &R) {
        if let Some(worker) = worker_name(self.host) {
            self.queue.lock(rt).begin(worker);
        }
    }

    /// The number of the recipe whose lines this thread runs.
    pub(crate) fn number<R: Wait>(&self, rt: &R) -> Option<u64> {
        let worker = worker_name(self.host)?;
        self.queue.lock(rt).number(worker.as_str())
    }

    pub(crate) fn keep<R: Wait>(&self, rt: &R, number: u64, stream: Stream, bytes: &[u8]) -> Due {
        self.queue.lock(rt).keep(number, stream, bytes)
    }

    /// Prints the whole lines of the recipe that is first.
    pub(crate) fn print_lines<R: Wait, O: Write + Drop, E: Write + Drop>(
        &self,
        rt: &R,
        streams: &mut Streams<O, E>,
    ) {
        let written = self.queue.lock(rt).take_lines();
        streams.written(&written.out, &written.err);
    }

    /// Prints all that is kept of the recipe with this number.
    pub(crate) fn print_all<R: Wait, O: Write + Drop, E: Write + Drop>(
        &self,
        rt: &R,
        streams: &mut Streams<O, E>,
        number: u64,
    ) {
        let written = self.queue.lock(rt).take_all(number);
        streams.written(&written.out, &written.err);
    }

    /// The recipe with this number has ended: the rest of what it wrote is printed, and the lines of the one that is first now.
    pub(crate) fn end<R: Wait, O: Write + Drop, E: Write + Drop>(
        &self,
        rt: &R,
        streams: &mut Streams<O, E>,
        number: u64,
    ) {
        let written = self.queue.lock(rt).end(number);
        streams.written(&written.out, &written.err);
        self.print_lines(rt, streams);
    }

    /// The run is over: all is printed that is kept of recipes whose end nobody told, as where memory was refused for it.
    pub(crate) fn print_rest<O: Write + Drop, E: Write + Drop>(self, streams: &mut Streams<O, E>) {
        let Front {
            host: _,
            are_one: _,
            queue,
        } = self;
        let (alloc, running) = queue.into_inner().into_running();
        for mut recipe in running {
            let written = recipe.take_all(alloc);
            streams.written(&written.out, &written.err);
        }
    }
}
