//! Empty reports, and targets that can or can't be put on the disk.

use crate::fake::Fake;
use jb_marks::{Sight, Sights};
use jb_recipe::{Place, PlaceFault, Stopped, Turn};
use std::alloc::{AllocError, Global};
use std::io::{self, ErrorKind};
use std::sync::Wait;
use std::time::Clock;

impl<R: Wait + Clock + Copy> Sights for Fake<R> {
    ghost told = { λ fake name sight. Unit {0} };

    ghost ticked = { λ fake tick. Unit {0} };

    fn look(&self, _name: &[u8]) -> Sight {
        Sight::NoFile
    }

    fn tick(&self) -> i128 {
        0
    }
}

impl<R: Wait + Clock + Copy> Place for Fake<R> {
    ghost gone = { λ fake path. Unit {0} };

    ghost synced = { λ fake path. Unit {0} };

    fn enter(&self, _turn: Turn) -> Result<bool, AllocError> {
        Ok(false)
    }

    fn leave(&self, _turn: Turn) {}

    fn remove(&self, path: &[u8]) -> io::Result<()> {
        self.say(b"~remove ", path);
        if self.keeps_reports {
            return Err(ErrorKind::PermissionDenied.into());
        }
        Ok(())
    }

    fn report(&self, alloc: Global, path: &[u8]) -> Result<Option<Vec<u8>>, PlaceFault> {
        self.say(b"~report ", path);
        Ok(Some(Vec::new(alloc)))
    }

    fn stopped(&self) -> Option<Stopped> {
        None
    }

    fn stamp(&self, _target: &[u8]) -> Option<i128> {
        None
    }

    fn pass_tick(&self, _tick: i128) {}

    fn sync(&self, target: &[u8]) -> Result<(), PlaceFault> {
        self.say(b"~sync ", target);
        self.sync
    }
}
