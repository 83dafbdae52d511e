//! The program that runs, by the path that it was started by: what makes below are called by in the wide profile.
use std::alloc::{AllocError, Global};
use std::env;
use std::fs::{self, Metadata};
use std::os::unix::fs::MetadataExt;

/// The file that runs, whatever its name.
const RUNNING: &str = "/proc/self/exe";

/// What the system writes behind the name of a running file that is no longer there.
const DELETED: &str = " (deleted)";

/// What a shell takes as it is where it stands in a word behind a slash.
fn is_plain(byte: u8) -> bool {
    byte.is_ascii_alphanumeric() || byte >= 128 || b"/._-+,:=@%".contains(&byte)
}

/// A path as the text of a macro that a shell takes as one word; None where no text is that.
fn word_of(alloc: Global, path: &str) -> Result<Option<Vec<u8>>, AllocError> {
    let mut text = Vec::new(alloc);
    for byte in path.as_bytes() {
        if *byte == b'\n' {
            return Ok(None);
        }
        if !is_plain(*byte) {
            text.push(b'\\')?;
        }
        if *byte == b'$' {
            text.push(b'$')?;
        }
        text.push(*byte)?;
    }
    Ok(Some(text))
}

/// The file of a path is the one that runs; where that can't be seen, it is any file.
fn is_running(rt: HostRuntime, path: &str, running: Option<&Metadata>) -> bool {
    match (fs::metadata(&rt, path), running) {
        (Ok(found), Some(running)) => found.dev() == running.dev() && found.ino() == running.ino(),
        (Ok(found), None) => found.is_file(),
        (Err(_), _) => false,
    }
}

/// A path from the folder that is worked in, made absolute.
fn absolute(alloc: Global, here: &str, path: &str) -> Result<String, AllocError> {
    if path.starts_with("/") {
        return String::from_str(alloc, path);
    }
    let rest = path.trim_start_matches("./");
    let here = here.strip_suffix("/").unwrap_or(here);
    format!(in alloc; "{here}/{rest}")
}

/// Where a shell finds a name in the folders of PATH.
fn on_path(
    rt: HostRuntime,
    here: &str,
    folders: &str,
    name: &str,
    running: Option<&Metadata>,
) -> Result<Option<String>, AllocError> {
    let alloc = rt.alloc();
    for folder in folders.split(':') {
        let folder = if folder.is_empty() { "." } else { folder };
        let place = format!(in alloc; "{folder}/{name}")?;
        let path = absolute(alloc, here, place.as_str())?;
        if is_running(rt, path.as_str(), running) {
            return Ok(Some(path));
        }
    }
    Ok(None)
}

/// The path that a word starts the running program by, from this folder; None where it starts another one.
fn path_of(
    rt: HostRuntime,
    here: &str,
    folders: &str,
    word: &str,
    running: Option<&Metadata>,
) -> Result<Option<String>, AllocError> {
    if !word.contains('/') {
        return on_path(rt, here, folders, word, running);
    }
    let path = absolute(rt.alloc(), here, word)?;
    if is_running(rt, path.as_str(), running) {
        Ok(Some(path))
    } else {
        Ok(None)
    }
}

/// The name that the system has for the running program.
fn system_path(rt: HostRuntime) -> Result<Option<String>, AllocError> {
    match env::current_exe(&rt) {
        Ok(path) if !path.as_str().ends_with(DELETED) => {
            Ok(Some(String::from_str(rt.alloc(), path.as_str())?))
        }
        _ => Ok(None),
    }
}

/// The absolute path of the program, as the text of a macro: the one that it was started by, in a folder or on PATH, or else the one
/// that the system knows. None where there is none.
pub fn started_by(
    rt: HostRuntime,
    word: &str,
    folders: &str,
) -> Result<Option<Vec<u8>>, AllocError> {
    let running = fs::metadata(&rt, RUNNING).ok();
    let found = match env::current_dir(&rt) {
        Ok(here) => path_of(rt, here.as_str(), folders, word, running.as_ref())?,
        Err(_) => None,
    };
    let path = match found {
        Some(path) => Some(path),
        None => system_path(rt)?,
    };
    match path {
        Some(path) => word_of(rt.alloc(), path.as_str()),
        None => Ok(None),
    }
}
