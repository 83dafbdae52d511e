//! Where workers that were started wait until it is known how many of them stay.

use std::sync::{Condvar, Mutex, Wait};

#[derive(Drop)]
struct Standing {
    /// How many stay, once it is known.
    staying: Option<usize>,
    is_open: bool,
}

/// Where workers that were started wait until it is known how many of them stay.
///
/// Where no more threads can be started, the room is used up that recipes need for their processes too: so some of the workers
/// leave before the others begin.
#[derive(Drop)]
pub(crate) struct Gate {
    standing: Mutex<Standing>,
    changed: Condvar,
}

/// How many workers stay of those that were started: all, if these are as many as were asked for, else half of them, and at least one.
pub(crate) fn staying(started: usize, asked: usize) -> usize {
    if started < asked {
        started - started / 2
    } else {
        started
    }
}

impl Gate {
    pub(crate) fn new() -> Gate {
        Gate {
            standing: Mutex::new(Standing {
                staying: None,
                is_open: false,
            }),
            changed: Condvar::new(),
        }
    }

    /// The workers of this number and above leave.
    pub(crate) fn send_home<R: Wait>(&self, rt: &R, staying: usize) {
        self.standing.lock(rt).staying = Some(staying);
        self.changed.notify_all();
    }

    /// The others begin.
    pub(crate) fn open<R: Wait>(&self, rt: &R) {
        self.standing.lock(rt).is_open = true;
        self.changed.notify_all();
    }

    /// Waits until the worker of this number may begin, or is to leave: then it is false.
    pub(crate) fn passes<R: Wait>(&self, rt: &R, worker: usize) -> bool {
        let standing = self
            .changed
            .wait_while(rt, self.standing.lock(rt), |standing| {
                !standing.is_open && stays(standing.staying, worker)
            });
        stays(standing.staying, worker)
    }
}

// Whether a worker stays, as far as is known.
fn stays(staying: Option<usize>, worker: usize) -> bool {
    match staying {
        Some(staying) => worker < staying,
        None => true,
    }
}
