//! The folder that a run works in.

use plain_text::to_plain;
use std::alloc::{AllocError, Global};
use std::env;
use std::io::{self, Write};
use thiserror::Error;

/// Why a folder isn't entered, or not told.
#[derive(Drop, Debug, Error)]
pub enum FolderFault {
    #[error("cannot enter {0}: {1}")]
    NotEntered(String, io::Error),
    #[error("cannot write")]
    Write,
    #[error("out of memory")]
    OutOfMemory,
}

impl From<AllocError> for FolderFault {
    fn from(_fault: AllocError) -> FolderFault {
        FolderFault::OutOfMemory
    }
}

/// Enters the folders, each from the one before. The first that can't be entered ends it.
pub fn enter(rt: HostRuntime, folders: &[String]) -> Result<(), FolderFault> {
    for folder in folders {
        if let Err(error) = env::set_current_dir(&rt, folder.as_str()) {
            let name = String::from_str(rt.alloc(), folder.as_str())?;
            return Err(FolderFault::NotEntered(name, error));
        }
    }
    Ok(())
}

// The name of a folder in one line.
fn shown(alloc: Global, folder: &str) -> Result<Vec<u8>, AllocError> {
    let mut name = to_plain(alloc, folder.as_bytes())?;
    for byte in name.iter_mut() {
        if *byte == b'\n' {
            *byte = b' ';
        }
    }
    Ok(name)
}

fn line_of(alloc: Global, verb: &str, folder: &str) -> Result<Vec<u8>, AllocError> {
    let front = format!(in alloc; "dmk: {verb} directory '")?;
    let mut line = Vec::from_slice(alloc, front.as_bytes())?;
    line.extend_from_slice(&shown(alloc, folder)?)?;
    line.extend_from_slice(b"'\n")?;
    Ok(line)
}

/// Says what happens to the current folder, as GNU make does, so that editors find the files that are named. Nothing is said of
/// a folder whose name can't be had.
pub fn tell(rt: HostRuntime, verb: &str) -> Result<(), FolderFault> {
    let Ok(folder) = env::current_dir(&rt) else {
        return Ok(());
    };
    let line = line_of(rt.alloc(), verb, folder.as_str())?;
    match rt.stdout().write_all(&line) {
        Ok(()) => Ok(()),
        Err(_) => Err(FolderFault::Write),
    }
}
