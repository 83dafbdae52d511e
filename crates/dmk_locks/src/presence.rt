//! Which runs are in a folder: each has a lock on bytes of the folder that stand for it. Whoever may read a folder can lock so; nobody is
//! kept from anything by it, a recipe's `flock .` neither, and nothing is there to be removed. It goes with the last handle: the janitor
//! has one, so a run that is over is in its folder as long as its janitor.

use crate::run_name::is_over;
use std::alloc::AllocError;
use std::fs::{self, File};
use std::io::{self, Read};
use std::os::fd::AsRawFd;
use std::os::unix::fs::MetadataExt;

/// How many processes there may be at once (pid_max in proc(5)).
const PROCESSES: u64 = 4_194_304;

/// The words of a line of /proc/locks behind its number, counted from 0 (proc_locks(5)); behind a kind the next ones are counted anew.
const PLACE: usize = 3;

/// What is shorter of /proc/locks is told at once, so as of one moment: a page holds it, and no line is as long as the rest of that.
const TOLD_AT_ONCE: usize = 3_968;

/// What is read at once.
const READ_AT_ONCE: usize = 16_384;

/// How often it is looked where they are more.
const LOOKS: usize = 2;

/// Bytes of a folder: the first one tells when a run began and its process, their number tells its namespace.
#[derive(Clone, Copy)]
struct Bytes {
    first: u64,
    count: u64,
}

impl Bytes {
    // Those that stand for the run of a name; None where they would lie beyond all bytes.
    fn of(run: &str) -> Option<Bytes> {
        let mut parts = run.split(':');
        let namespace = parts.next()?.parse::<u64>().ok()?;
        let process = parts.next()?.parse::<u64>().ok()?;
        let began = parts.next()?.parse::<u64>().ok()?;
        if process >= PROCESSES {
            return None;
        }
        let first = began.checked_mul(PROCESSES)?.checked_add(process)?;
        Some(Bytes {
            first,
            count: namespace,
        })
    }

    // Those of a line of /proc/locks, where it tells of such a lock on a folder of this number. Its device is left out: there are systems
    // on which the one that is told here is another one than that of the file.
    fn in_line(line: &str, folder: u64) -> Option<Bytes> {
        let mut words = line.split_ascii_whitespace();
        if words.nth(1)? != "OFDLCK" {
            return None;
        }
        let number = words.nth(PLACE)?.rsplit(':').next()?;
        if number.parse::<u64>().ok()? != folder {
            return None;
        }
        let first = words.next()?.parse::<u64>().ok()?;
        let last = words.next()?.parse::<u64>().ok()?;
        Some(Bytes {
            first,
            count: last.checked_sub(first)?.checked_add(1)?,
        })
    }

    // The name of the run that they stand for.
    fn run(&self, rt: HostRuntime) -> Result<String, AllocError> {
        let namespace = self.count;
        let process = self.first % PROCESSES;
        let began = self.first / PROCESSES;
        format!(in rt.alloc(); "{namespace}:{process}:{began}")
    }
}

/// The run of this name is in the current folder as long as somebody has a handle of what comes back. None where the folder can't be
/// read, or the system has no such locks.
pub fn presence_of(rt: HostRuntime, run: &str) -> Option<File> {
    let bytes = Bytes::of(run)?;
    let folder = File::open(&rt, ".").ok()?;
    let answer = os::try_lock_range(
        folder.as_raw_fd(),
        os::RangeLock::Shared,
        bytes.first,
        bytes.count,
    );
    if answer == 0 { Some(folder) } else { None }
}

/// The locks of all folders and files, a line each (proc_locks(5)).
fn all_locks(rt: HostRuntime) -> io::Result<Vec<u8>> {
    let mut text = Vec::with_capacity(rt.alloc(), READ_AT_ONCE)?;
    let mut file = File::open(&rt, "/proc/locks")?;
    let _ = file.read_to_end(&mut text)?;
    Ok(text)
}

/// Whether these locks tell of a run in a folder of this number that is over.
fn tell_of_left(rt: HostRuntime, locks: &[u8], folder: u64) -> Result<bool, AllocError> {
    let Ok(locks) = str::from_utf8(locks) else {
        return Ok(false);
    };
    for line in locks.lines() {
        if let Some(bytes) = Bytes::in_line(line, folder) {
            if is_over(rt, bytes.run(rt)?.as_str())? {
                return Ok(true);
            }
        }
    }
    Ok(false)
}

/// Whether a run is in the current folder that is over: its janitor hasn't ended yet. Where the locks are told in several parts, one may be
/// left out as another goes in between, so it is looked twice.
pub fn is_left_here(rt: HostRuntime) -> Result<bool, AllocError> {
    let Ok(found) = fs::metadata(&rt, ".") else {
        return Ok(false);
    };
    let folder = found.ino();
    for _ in 0..LOOKS {
        let Ok(locks) = all_locks(rt) else {
            break;
        };
        if tell_of_left(rt, &locks, folder)? {
            return Ok(true);
        }
        if locks.len() < TOLD_AT_ONCE {
            break;
        }
    }
    Ok(false)
}
