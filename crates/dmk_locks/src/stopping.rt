//! Runs that were stopped, and whose janitors are still at work.

use crate::presence::is_left_here;
use crate::run_name::is_over;
use std::alloc::AllocError;
use std::time::Duration;
use std::{fs, thread};

/// How long it is waited between two looks.
const BETWEEN_LOOKS: u64 = 5;

/// How often it is looked: no janitor is at work as long as that.
const MAX_LOOKS: usize = 1_000;

/// Whether all of those are over whose names stand here, a line each. Where none does, its writer is about to write it.
fn are_over(rt: HostRuntime, names: &[u8]) -> Result<bool, AllocError> {
    let Ok(text) = str::from_utf8(names) else {
        return Ok(false);
    };
    for name in text.lines() {
        if !is_over(rt, name)? {
            return Ok(false);
        }
    }
    Ok(!text.is_empty())
}

/// The names of the janitors that are at work; None where none is.
fn names_at(rt: HostRuntime, path: &str) -> Option<Vec<u8>> {
    let found = fs::symlink_metadata(&rt, path).ok()?;
    if !found.is_file() {
        return None;
    }
    fs::read(&rt, path).ok()
}

/// Waits until no run is in the current folder that is over.
fn wait_for_those_here(rt: HostRuntime) -> Result<(), AllocError> {
    for _ in 0..MAX_LOOKS {
        if !is_left_here(rt)? {
            break;
        }
        thread::sleep(&rt, Duration::from_millis(BETWEEN_LOOKS));
    }
    Ok(())
}

/// Waits until the janitors of runs that were stopped are done, in the current folder or over the state of this name: what these left is no
/// good before. One that was killed isn't waited for. Where a janitor isn't seen to be in the folder, it is waited for once it is at work.
pub fn wait_for_janitors(rt: HostRuntime, state: &str) -> Result<(), AllocError> {
    wait_for_those_here(rt)?;
    let path = format!(in rt.alloc(); "{state}.stopping")?;
    for _ in 0..MAX_LOOKS {
        let Some(names) = names_at(rt, path.as_str()) else {
            return Ok(());
        };
        if are_over(rt, &names)? {
            break;
        }
        drop(names);
        thread::sleep(&rt, Duration::from_millis(BETWEEN_LOOKS));
    }
    let _ = fs::remove_file(&rt, path.as_str());
    Ok(())
}
