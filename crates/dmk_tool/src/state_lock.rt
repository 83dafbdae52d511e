//! The lock on a state, as a run has it: on an empty file beside the state, which stays.

use std::alloc::AllocError;
use std::fs::{self, File, OpenOptions, TryLockError};
use std::io::{self, ErrorKind};
use std::os::unix::fs::{MetadataExt, OpenOptionsExt};

/// Others neither read such a file nor lock it.
const OWN_MODE: u32 = 0o600;

/// How often it is tried to open a file in whose place another one is put meanwhile.
const MAX_ATTEMPTS: usize = 100;

/// A lock that is held as long as this is there.
#[derive(Drop)]
pub struct StateLock {
    _file: File,
}

/// Why no lock is had.
#[derive(Drop)]
pub enum LockFault {
    OutOfMemory,
    /// A run has it.
    Taken,
    /// What stands at its place is no empty file.
    NoLockFile,
    System(io::Error),
}

impl From<AllocError> for LockFault {
    fn from(_fault: AllocError) -> LockFault {
        LockFault::OutOfMemory
    }
}

/// Takes the lock on the state of this name, and waits for nobody.
pub fn lock_state(rt: HostRuntime, state: &str) -> Result<StateLock, LockFault> {
    let path = lock_path(rt, state)?;
    for _ in 0..MAX_ATTEMPTS {
        if let Some(file) = lock_at(rt, path.as_str())? {
            return Ok(StateLock { _file: file });
        }
    }
    Err(LockFault::NoLockFile)
}

/// Beside the file, and of a link beside what it leads to: a state has one lock under all its names.
fn lock_path(rt: HostRuntime, state: &str) -> Result<String, AllocError> {
    let alloc = rt.alloc();
    if let Ok(found) = fs::symlink_metadata(&rt, state) {
        if found.is_symlink() {
            if let Ok(led_to) = fs::canonicalize(&rt, state) {
                let led_to = led_to.into_string();
                return format!(in alloc; "{led_to}.lock");
            }
        }
    }
    format!(in alloc; "{state}.lock")
}

/// Makes the file where there is none, and locks it; None where another one stands in its place meanwhile.
fn lock_at(rt: HostRuntime, path: &str) -> Result<Option<File>, LockFault> {
    make(rt, path)?;
    let file = match File::open(&rt, path) {
        Ok(file) => file,
        Err(error) if error.kind() == ErrorKind::NotFound => return Ok(None),
        Err(error) => return Err(LockFault::System(error)),
    };
    match file.try_lock() {
        Ok(()) => {}
        Err(TryLockError::WouldBlock) => return Err(LockFault::Taken),
        Err(TryLockError::Error(error)) => return Err(LockFault::System(error)),
    }
    if is_at(rt, path, &file)? {
        Ok(Some(file))
    } else {
        Ok(None)
    }
}

// What stands there already, and be it a link to nothing, is left.
fn make(rt: HostRuntime, path: &str) -> Result<(), LockFault> {
    let made = OpenOptions::new()
        .write(true)
        .create_new(true)
        .mode(OWN_MODE)
        .open(&rt, path);
    match made {
        Ok(_file) => Ok(()),
        Err(error) if error.kind() == ErrorKind::AlreadyExists => Ok(()),
        Err(error) => Err(LockFault::System(error)),
    }
}

/// Whether the file that was opened stands at the path itself. A link and what isn't an empty file are refused, as by a run.
fn is_at(rt: HostRuntime, path: &str, file: &File) -> Result<bool, LockFault> {
    let Ok(found) = fs::symlink_metadata(&rt, path) else {
        return Ok(false);
    };
    if !found.is_file() || found.len() != 0 {
        return Err(LockFault::NoLockFile);
    }
    match file.metadata() {
        Ok(opened) => Ok(opened.dev() == found.dev() && opened.ino() == found.ino()),
        Err(error) => Err(LockFault::System(error)),
    }
}
