//! What a run is known by to those that it starts, so that they see whether it is over: a shell that a recipe left behind still has the
//! run's variables.

use crate::lock_file::LockFile;
use std::alloc::AllocError;
use std::fs;
use std::os::unix::fs::MetadataExt;

/// How many processes stand above one at most, as far as they are looked at.
const MAX_ABOVE: usize = 1_000;

/// The fields of /proc/PID/stat behind the program's name, counted from 0 (proc(5)).
const STATE: usize = 0;

const PARENT: usize = 1;

const START: usize = 19;

/// What the system says of a process behind the program's name, which may hold anything.
#[derive(Drop)]
struct ProcessStatus {
    fields: String,
}

impl ProcessStatus {
    // None where it can't be had: there is no such process, or none that is seen.
    fn of(rt: HostRuntime, process: &str) -> Result<Option<ProcessStatus>, AllocError> {
        let path = format!(in rt.alloc(); "/proc/{process}/stat")?;
        let Ok(bytes) = fs::read(&rt, path.as_str()) else {
            return Ok(None);
        };
        let Some(fields) = bytes.rsplit(|byte| *byte == b')').next() else {
            return Ok(None);
        };
        match str::from_utf8(fields) {
            Ok(fields) => Ok(Some(ProcessStatus {
                fields: String::from_str(rt.alloc(), fields.trim())?,
            })),
            Err(_) => Ok(None),
        }
    }

    fn field(&self, number: usize) -> &str {
        self.fields.as_str().split(' ').nth(number).unwrap_or("")
    }

    // Whether it has ended, and only waits for that to be asked.
    fn is_over(&self) -> bool {
        matches!(self.field(STATE), "Z" | "X")
    }
}

/// The number of the process's own namespace of process numbers, 0 where it can't be told.
fn own_namespace(rt: HostRuntime) -> u64 {
    match fs::metadata(&rt, "/proc/self/ns/pid") {
        Ok(found) => found.ino(),
        Err(_) => 0,
    }
}

/// The name of this run: its namespace, its process and when that began. Where that can't be told, a name of which nobody can see
/// whether it is over.
pub fn own_name(rt: HostRuntime) -> Result<String, AllocError> {
    let alloc = rt.alloc();
    match ProcessStatus::of(rt, "self")? {
        Some(status) => {
            let namespace = own_namespace(rt);
            let process = libc::getpid();
            let start = status.field(START);
            format!(in alloc; "{namespace}:{process}:{start}")
        }
        None => Ok(String::new(alloc)),
    }
}

/// Whether the run of this name is seen to be over.
pub fn is_over(rt: HostRuntime, run: &str) -> Result<bool, AllocError> {
    let mut parts = run.split(':');
    let namespace = parts.next().unwrap_or("");
    let process = parts.next().unwrap_or("");
    let start = parts.next().unwrap_or("");
    // Of another namespace nothing is seen, and where the first process is hidden others may be.
    let is_seen = namespace.parse::<u64>().ok() == Some(own_namespace(rt))
        && process.parse::<u32>().is_ok()
        && fs::metadata(&rt, "/proc/1").is_ok();
    if !is_seen {
        return Ok(false);
    }
    match ProcessStatus::of(rt, process)? {
        Some(status) => Ok(status.is_over() || status.field(START) != start),
        None => Ok(true),
    }
}

/// How many descriptors of a process are of the file; 0 where that can't be told.
fn openings(rt: HostRuntime, process: &str, opened: &LockFile) -> Result<usize, AllocError> {
    let alloc = rt.alloc();
    let folder = format!(in alloc; "/proc/{process}/fd")?;
    let Ok(entries) = fs::read_dir(&rt, folder.as_str()) else {
        return Ok(0);
    };
    let mut found = 0usize;
    for entry in entries {
        let Ok(entry) = entry else {
            break;
        };
        if fs::metadata(&rt, entry.path()).is_ok_and(|found| opened.is_file_of(&found)) {
            found = found.saturating_add(1);
        }
    }
    Ok(found)
}

/// Whether this process has the file open beside this opening, or one above it has: then this one would wait for itself, or for who
/// waits for it.
pub fn is_open_above(rt: HostRuntime, opened: &LockFile) -> Result<bool, AllocError> {
    if openings(rt, "self", opened)? > 1 {
        return Ok(true);
    }
    let mut process = String::from_str(rt.alloc(), "self")?;
    for _ in 0..MAX_ABOVE {
        let Some(status) = ProcessStatus::of(rt, process.as_str())? else {
            return Ok(false);
        };
        process = String::from_str(rt.alloc(), status.field(PARENT))?;
        if process.as_str() == "0" {
            return Ok(false);
        }
        if openings(rt, process.as_str(), opened)? > 0 {
            return Ok(true);
        }
    }
    Ok(false)
}
