//! Which state a run of a level has: a run below one over its own state has the next one to itself.

use crate::run_name::{is_over, own_name};
use std::alloc::AllocError;
use std::fs;
use std::os::unix::fs::MetadataExt;

/// How many levels below a run's own are looked for at most.
const MAX_LEVELS: usize = 64;

/// The path of the lock on the state of this name: beside the file, and of a link beside what it leads to, so that a state has one
/// lock under all its names.
pub fn lock_path(rt: HostRuntime, state: &str) -> Result<String, AllocError> {
    let alloc = rt.alloc();
    if let Ok(found) = fs::symlink_metadata(&rt, state) {
        if found.is_symlink() {
            if let Ok(led_to) = fs::canonicalize(&rt, state) {
                let led_to = led_to.into_string();
                return format!(in alloc; "{led_to}.lock");
            }
        }
    }
    format!(in alloc; "{state}.lock")
}

/// What a lock's name begins with where it is that of the file of this path; None where there is no file.
fn lock_prefix(rt: HostRuntime, path: &str) -> Result<Option<String>, AllocError> {
    match fs::symlink_metadata(&rt, path) {
        Ok(found) => {
            let device = found.dev();
            let number = found.ino();
            Ok(Some(format!(in rt.alloc(); "{device}:{number}:")?))
        }
        Err(_) => Ok(None),
    }
}

/// Whether one of the runs above, that goes on, has the lock on the state of this name.
fn is_held_above(rt: HostRuntime, above: &str, state: &str) -> Result<bool, AllocError> {
    let Some(prefix) = lock_prefix(rt, lock_path(rt, state)?.as_str())? else {
        return Ok(false);
    };
    for name in above.split(' ') {
        if let Some(run) = name.strip_prefix(prefix.as_str()) {
            if !is_over(rt, run)? {
                return Ok(true);
            }
        }
    }
    Ok(false)
}

/// The first of FILE, FILE.1, FILE.1.1 .. on which no run above has the lock, by their names. Each has one at most; and no side B has such
/// a name.
pub fn first_free(rt: HostRuntime, above: &str, state: &str) -> Result<String, AllocError> {
    let mut name = String::from_str(rt.alloc(), state)?;
    for _ in above.split(' ') {
        if !is_held_above(rt, above, name.as_str())? {
            break;
        }
        name = format!(in rt.alloc(); "{name}.1")?;
    }
    Ok(name)
}

/// The name of the level below a state's, which a run above has; None where there is none.
fn level_above(rt: HostRuntime, above: &str, state: &str) -> Result<Option<String>, AllocError> {
    match state.strip_suffix(".1") {
        Some(name) if is_held_above(rt, above, name)? => Ok(Some(String::from_str(
            rt.alloc(),
            name,
        )?)),
        _ => Ok(None),
    }
}

/// The states that are there of other levels than this one's: first those that the runs above have, the nearest first, then those below
/// it. One is looked for behind another.
pub fn other_levels(rt: HostRuntime, above: &str, state: &str) -> Result<Vec<String>, AllocError> {
    let alloc = rt.alloc();
    let mut levels = Vec::new(alloc);
    let mut name = String::from_str(alloc, state)?;
    for _ in above.split(' ') {
        let Some(next) = level_above(rt, above, name.as_str())? else {
            break;
        };
        levels.push(String::from_str(alloc, next.as_str())?)?;
        name = next;
    }
    name = String::from_str(alloc, state)?;
    for _ in 0..MAX_LEVELS {
        name = format!(in alloc; "{name}.1")?;
        if fs::symlink_metadata(&rt, name.as_str()).is_err() {
            break;
        }
        levels.push(String::from_str(alloc, name.as_str())?)?;
    }
    Ok(levels)
}

/// The names of the locks that those below find taken: those of the runs above, and that on the state of this name, where it has a file.
pub fn told_below(rt: HostRuntime, above: &str, state: &str) -> Result<String, AllocError> {
    let alloc = rt.alloc();
    match lock_prefix(rt, lock_path(rt, state)?.as_str())? {
        Some(prefix) => {
            let run = own_name(rt)?;
            format!(in alloc; "{above} {prefix}{run}")
        }
        None => String::from_str(alloc, above),
    }
}
