//! The name of the FIFO that dmk serves, which no other run serves meanwhile.

use dmk_locks::{LockFile, Tried, is_refusal};
use jb_runner::{Source, source_of};
use mk_profile::Profile;
use std::alloc::AllocError;
use std::{env, fs, io};

/// How many runs may serve a FIFO of one state's name at once.
const MAX_NAMES: usize = 99;

/// The name of a FIFO, kept from other runs by a lock on a file beside it for as long as this is held.
#[derive(Drop)]
pub struct PoolPath {
    rt: HostRuntime,
    /// Absolute; empty where it can't be told.
    path: String,
    lock: Option<LockFile>,
}

/// The state file's name, beside which reports stand: in the wide profile its absolute path, since recipes change their folder. What
/// writes a report takes what stands before the first blank as its path, so a path with one stays as it is.
pub fn reports_path(rt: HostRuntime, profile: Profile, state: &str) -> Result<String, AllocError> {
    let path = absolute_path(rt, state)?;
    if profile.is_wide() && !path.is_empty() && !path.contains(' ') {
        return Ok(path);
    }
    String::from_str(rt.alloc(), state)
}

/// The absolute path of a name; empty where the current folder's name can't be had.
fn absolute_path(rt: HostRuntime, name: &str) -> Result<String, AllocError> {
    let alloc = rt.alloc();
    if name.starts_with("/") {
        return String::from_str(alloc, name);
    }
    let Ok(folder) = env::current_dir(&rt) else {
        return Ok(String::new(alloc));
    };
    let folder = folder.as_str();
    format!(in alloc; "{folder}/{name}")
}

/// The absolute path of the state file's name with `.fifo`; empty where the current folder's name can't be had. Recipes run
/// make in other folders.
fn usual_path(rt: HostRuntime, state: &str) -> Result<String, AllocError> {
    let mut path = absolute_path(rt, state)?;
    if !path.is_empty() {
        path.push_str(".fifo")?;
    }
    Ok(path)
}

fn lock_path(rt: HostRuntime, path: &str) -> Result<String, AllocError> {
    format!(in rt.alloc(); "{path}.lock")
}

// The lock file of a name, locked; None where another run serves the name.
fn try_lock(rt: HostRuntime, path: &str) -> io::Result<Option<LockFile>> {
    for _ in 0..u64::MAX {
        match LockFile::try_lock(rt, path)? {
            Tried::Locked(lock) => {
                if lock.is_at(rt, path) {
                    return Ok(Some(lock));
                }
            }
            Tried::Taken(_) => return Ok(None),
        }
    }
    Ok(None)
}

impl PoolPath {
    fn without_lock(rt: HostRuntime, path: String) -> PoolPath {
        PoolPath {
            rt,
            path,
            lock: None,
        }
    }

    /// The state file's name with `.fifo`, or, where another run serves that, with a number behind it, and so where something else than
    /// a lock file of this user's stands. Nothing is locked where by MAKEFLAGS no pool will be served, nor where there are no locks to
    /// be had.
    pub fn new(
        rt: HostRuntime,
        state: &str,
        makeflags: &[u8],
        workers: usize,
    ) -> Result<PoolPath, AllocError> {
        let usual = usual_path(rt, state)?;
        if source_of(makeflags, workers) != Source::Server || usual.is_empty() {
            return Ok(PoolPath::without_lock(rt, usual));
        }
        for number in 1..=MAX_NAMES {
            let path = if number == 1 {
                usual.clone()?
            } else {
                format!(in rt.alloc(); "{usual}.{number}")?
            };
            let locked = lock_path(rt, path.as_str())?;
            match try_lock(rt, locked.as_str()) {
                Ok(None) => {}
                Ok(lock) => return Ok(PoolPath { rt, path, lock }),
                Err(error) if is_refusal(&error) => {}
                Err(_) => return Ok(PoolPath::without_lock(rt, usual)),
            }
        }
        Ok(PoolPath::without_lock(rt, String::new(rt.alloc())))
    }

    pub fn as_bytes(&self) -> &[u8] {
        self.path.as_bytes()
    }

    /// Lets the name go.
    pub fn release(self) {
        let PoolPath { rt, path, lock } = self;
        if lock.is_some() {
            if let Ok(locked) = lock_path(rt, path.as_str()) {
                let _ = fs::remove_file(&rt, locked.as_str());
            }
        }
    }
}
