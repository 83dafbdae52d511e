//! A jobserver that came as two open descriptors, as GNU make before 4.4 hands it on: the same pool by a path.

use jb_auth::{Auth, read_auth};
use std::alloc::AllocError;
use std::fs::{self, Metadata};
use std::os::unix::fs::{FileTypeExt, MetadataExt};

/// What a word that names a jobserver begins with.
const AUTH: &[u8] = b"--jobserver-auth=";

/// The process that runs. What that leads to is its number, by which those below see it too.
const OWN: &str = "/proc/self";

/// The numbers of two descriptors, as MAKEFLAGS names them; None where it names none.
fn numbers_in(makeflags: &[u8]) -> Option<(&str, &str)> {
    if read_auth(makeflags) != Auth::Descriptors {
        return None;
    }
    let mut last = None;
    for word in makeflags.split(|byte| *byte == b' ') {
        last = word.strip_prefix(AUTH).or(last);
    }
    str::from_utf8(last?).ok()?.split_once(',')
}

/// What the system says of the file of this path, where it is a pipe.
fn pipe_at(rt: HostRuntime, path: &str) -> Option<Metadata> {
    let found = fs::metadata(&rt, path).ok()?;
    if found.file_type().is_fifo() {
        Some(found)
    } else {
        None
    }
}

fn is_same(one: &Metadata, other: &Metadata) -> bool {
    one.dev() == other.dev() && one.ino() == other.ino()
}

/// The path of the pipe that two descriptors are the ends of; None where they aren't open, or are something else.
fn pipe_of(rt: HostRuntime, read: &str, write: &str) -> Result<Option<String>, AllocError> {
    let alloc = rt.alloc();
    let Ok(own) = fs::canonicalize(&rt, OWN) else {
        return Ok(None);
    };
    let own = own.into_string();
    let path = format!(in alloc; "{own}/fd/{read}")?;
    let other = format!(in alloc; "{own}/fd/{write}")?;
    let Some(one) = pipe_at(rt, path.as_str()) else {
        return Ok(None);
    };
    match pipe_at(rt, other.as_str()) {
        Some(other) if is_same(&one, &other) => Ok(Some(path)),
        _ => Ok(None),
    }
}

/// MAKEFLAGS with the path of that pool in the place of each word that names a jobserver.
fn with_path(rt: HostRuntime, makeflags: &[u8], path: &str) -> Result<Vec<u8>, AllocError> {
    let mut flags = Vec::new(rt.alloc());
    let mut is_first = true;
    for word in makeflags.split(|byte| *byte == b' ') {
        if !is_first {
            flags.push(b' ')?;
        }
        is_first = false;
        if word.starts_with(AUTH) {
            flags.extend_from_slice(AUTH)?;
            flags.extend_from_slice(b"fifo:")?;
            flags.extend_from_slice(path.as_bytes())?;
        } else {
            flags.extend_from_slice(word)?;
        }
    }
    Ok(flags)
}

/// MAKEFLAGS as it is read in the wide profile: a jobserver of two open descriptors is one of a FIFO, which this process has under a
/// path for as long as it runs. Else it is as it came.
pub(crate) fn with_pool_path(rt: HostRuntime, makeflags: &[u8]) -> Result<Vec<u8>, AllocError> {
    if let Some((read, write)) = numbers_in(makeflags) {
        if let Some(path) = pipe_of(rt, read, write)? {
            return with_path(rt, makeflags, path.as_str());
        }
    }
    Vec::from_slice(rt.alloc(), makeflags)
}
