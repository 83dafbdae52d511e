//! The files of targets that are taken as they are.

use crate::standard_streams::tell_fault;
use jb_host::HostPlace;
use jb_marks::{Sight, Sights};
use jb_recipe::{Place, PlaceFault, Stopped, Turn};
use std::alloc::{AllocError, Global};
use std::sync::Wait;
use std::{fmt, io};

/// What isn't done with a target's file as it should be.
#[derive(Drop)]
struct Untrusted<'a> {
    call: &'static str,
    target: &'a str,
    error: io::Error,
}

impl fmt::Display for Untrusted<'_> {
    fn fmt<W: fmt::Write>(&self, f: &mut fmt::Formatter<W>) -> fmt::Result {
        let Untrusted {
            call,
            target,
            error,
        } = self;
        write!(f, "note: cannot {call} {target}: {error}")
    }
}

/// Files that no recipe of this run has made. What can't be opened or synced of them is told, and is done with as always.
#[derive(Drop)]
pub struct TrustedPlace<'a, R: Wait> {
    pub host: HostRuntime,
    pub place: &'a HostPlace<'a, R>,
}

impl<R: Wait> TrustedPlace<'_, R> {
    fn tell(&self, call: &'static str, target: &[u8], error: io::Error) {
        let target = std::str::from_utf8(target).unwrap_or("");
        tell_fault(
            self.host,
            &Untrusted {
                call,
                target,
                error,
            },
        );
    }
}

impl<R: Wait> Sights for TrustedPlace<'_, R> {
    ghost told = { λ place name sight. Unit {0} };

    ghost ticked = { λ place tick. Unit {0} };

    fn look(&self, name: &[u8]) -> Sight {
        self.place.look(name)
    }

    fn tick(&self) -> i128 {
        self.place.tick()
    }
}

impl<R: Wait> Place for TrustedPlace<'_, R> {
    ghost gone = { λ place path. Unit {0} };

    ghost synced = { λ place path. Unit {0} };

    fn enter(&self, turn: Turn) -> Result<bool, AllocError> {
        self.place.enter(turn)
    }

    fn leave(&self, turn: Turn) {
        self.place.leave(turn);
    }

    fn remove(&self, path: &[u8]) -> io::Result<()> {
        self.place.remove(path)
    }

    fn report(&self, alloc: Global, path: &[u8]) -> Result<Option<Vec<u8>>, PlaceFault> {
        self.place.report(alloc, path)
    }

    fn stopped(&self) -> Option<Stopped> {
        self.place.stopped()
    }

    fn stamp(&self, target: &[u8]) -> Option<i128> {
        self.place.stamp(target)
    }

    fn pass_tick(&self, tick: i128) {
        self.place.pass_tick(tick);
    }

    fn sync(&self, target: &[u8]) -> Result<(), PlaceFault> {
        if let Some(error) = self.place.why_unopened(target) {
            self.tell("open", target, error);
        }
        let answer = self.place.sync(target);
        if let Err(PlaceFault::Device(error)) = answer {
            self.tell("sync", target, error);
        }
        answer
    }
}
