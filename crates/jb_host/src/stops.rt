//! Why the lines that workers run last were stopped or not started: the shell notes it, and who records the end of the recipe asks.

use jb_janitor::worker_name;
use jb_recipe::Stopped;
use std::alloc::Global;
use std::sync::{Mutex, Wait};

/// What one worker's last line came to.
#[derive(Drop)]
struct Stop {
    /// The worker's thread, as the system names it.
    worker: String,
    why: Stopped,
}

/// What is noted of lines that were stopped or not started, for each worker the last one.
#[derive(Drop)]
pub struct Stops<'a, R: Wait> {
    rt: &'a R,
    host: HostRuntime,
    noted: Mutex<Vec<Stop>>,
}

impl<'a, R: Wait> Stops<'a, R> {
    pub fn new(rt: &'a R, host: HostRuntime) -> Stops<'a, R> {
        Stops {
            rt,
            host,
            noted: Mutex::new(Vec::new(host.alloc())),
        }
    }

    // Where the system doesn't tell, nothing is noted.
    fn worker(&self) -> Option<String> {
        worker_name(self.host)
    }

    /// Notes what became of a line that this worker ran.
    pub(crate) fn note(&self, why: Stopped) {
        let Some(worker) = self.worker() else {
            return;
        };
        let mut noted = self.noted.lock(self.rt);
        let _ = noted.push(Stop { worker, why });
    }

    /// What was noted of the last line that this worker ran; it is forgotten.
    pub(crate) fn take(&self) -> Option<Stopped> {
        if self.noted.lock(self.rt).is_empty() {
            return None;
        }
        let worker = self.worker()?;
        let mut noted = self.noted.lock(self.rt);
        let mut last = None;
        for _ in 0..noted.len() {
            let place = noted
                .iter()
                .position(|stop| stop.worker.as_str() == worker.as_str());
            let Some(place) = place else {
                break;
            };
            last = Some(noted[place].why);
            noted.remove(place);
        }
        last
    }
}
