//! The lock on a state: on an empty file beside it, which stays. Recipes inherit a handle to it, and so hold the lock too.

use dmk_locks::{LockFile, Tried, is_open_above, is_over, lock_path};
use dmk_store::{Guard, Hold};
use jb_host::HeldLock;
use std::alloc::AllocError;
use std::fs;
use std::io::{self, ErrorKind};
use std::sync::OnceLock;

/// The name of a state, the path of the lock on it, and which locks are held above.
#[derive(Drop)]
pub struct LockPlace {
    state: String,
    path: String,
    /// The locks that the runs above hold, as the environment has them.
    above: String,
}

/// Takes the lock on a state, and puts it where recipes are given it.
#[derive(Drop)]
pub struct StateLock<'a> {
    rt: HostRuntime,
    place: LockPlace,
    held: &'a OnceLock<HeldLock>,
    /// It was had, or what there was to say of that was said.
    is_settled: bool,
}

/// What is wrong where no lock is had.
#[derive(Drop)]
enum LockFault {
    OutOfMemory,
    /// It can't be had here.
    NotToBeHad(io::Error),
}

impl From<AllocError> for LockFault {
    ghost from_gives = { λ _ _. Unit {0} };

    fn from(_error: AllocError) -> LockFault {
        LockFault::OutOfMemory
    }
}

impl From<io::Error> for LockFault {
    ghost from_gives = { λ _ _. Unit {0} };

    fn from(error: io::Error) -> LockFault {
        match error.kind() {
            ErrorKind::OutOfMemory => LockFault::OutOfMemory,
            _ => LockFault::NotToBeHad(error),
        }
    }
}

impl LockPlace {
    pub fn of(rt: HostRuntime, state: &str, above: &str) -> Result<LockPlace, AllocError> {
        Ok(LockPlace {
            state: String::from_str(rt.alloc(), state)?,
            path: lock_path(rt, state)?,
            above: String::from_str(rt.alloc(), above)?,
        })
    }
}

impl<'a> StateLock<'a> {
    pub fn new(rt: HostRuntime, place: LockPlace, held: &'a OnceLock<HeldLock>) -> StateLock<'a> {
        StateLock {
            rt,
            place,
            held,
            is_settled: false,
        }
    }

    // What stands under the state's name and is no ordinary file is refused when it is opened: it has no lock.
    fn is_ordinary_or_missing(&self) -> bool {
        match fs::metadata(&self.rt, self.place.state.as_str()) {
            Ok(found) => found.is_file(),
            Err(error) => error.kind() == ErrorKind::NotFound,
        }
    }

    // Whether a run above has the lock, and waits for this one. One that is over doesn't; but a shell that it left above this one may.
    fn is_held_above(&self, opened: &LockFile) -> Result<bool, AllocError> {
        let mut is_named = false;
        for name in self.place.above.split(' ') {
            if let Some(run) = opened.run_of(self.rt, name)? {
                if !is_over(self.rt, run)? {
                    return Ok(true);
                }
                is_named = true;
            }
        }
        Ok(is_named && is_open_above(self.rt, opened)?)
    }

    // Puts the lock where recipes find it.
    fn keep(&self, opened: LockFile) -> Result<Hold, LockFault> {
        let name = opened.name(self.rt)?;
        let above = self.place.above.as_str();
        let names = if above.is_empty() {
            name
        } else {
            format!(in self.rt.alloc(); "{above} {name}")?
        };
        let LockFile { file, .. } = opened;
        let _ = self.held.try_set(HeldLock { file, names });
        Ok(Hold::Held)
    }

    // One attempt; the opened file where another run has the lock.
    fn try_once(&self) -> Result<Result<Hold, LockFile>, LockFault> {
        for _ in 0..u64::MAX {
            match LockFile::try_lock(self.rt, self.place.path.as_str())? {
                Tried::Locked(opened) => {
                    if opened.is_at(self.rt, self.place.path.as_str()) {
                        return Ok(Ok(self.keep(opened)?));
                    }
                }
                Tried::Taken(opened) => {
                    if self.is_held_above(&opened)? {
                        return Ok(Ok(Hold::HeldAbove));
                    }
                    return Ok(Err(opened));
                }
            }
        }
        Err(LockFault::NotToBeHad(ErrorKind::TimedOut.into()))
    }

    fn wait_for_it(&self) -> Result<Hold, LockFault> {
        for _ in 0..u64::MAX {
            match self.try_once()? {
                Ok(hold) => return Ok(hold),
                Err(opened) => {
                    opened.wait()?;
                    if opened.is_at(self.rt, self.place.path.as_str()) {
                        return self.keep(opened);
                    }
                }
            }
        }
        Err(LockFault::NotToBeHad(ErrorKind::TimedOut.into()))
    }
}

impl Guard for StateLock<'_> {
    // A second one answers that it is held: by this run itself it would be waited for.
    fn attempt(&mut self) -> Result<Option<Hold>, AllocError> {
        if self.is_settled || !self.is_ordinary_or_missing() {
            return Ok(Some(Hold::Held));
        }
        self.is_settled = true;
        match self.try_once() {
            Ok(Ok(hold)) => Ok(Some(hold)),
            Ok(Err(_)) => Ok(None),
            Err(LockFault::NotToBeHad(reason)) => Ok(Some(Hold::NotLocked(reason))),
            Err(LockFault::OutOfMemory) => Err(AllocError),
        }
    }

    fn wait(&mut self) -> Result<Hold, AllocError> {
        match self.wait_for_it() {
            Ok(hold) => Ok(hold),
            Err(LockFault::NotToBeHad(reason)) => Ok(Hold::NotLocked(reason)),
            Err(LockFault::OutOfMemory) => Err(AllocError),
        }
    }
}
