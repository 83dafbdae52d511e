//! Calls of a disk over files of this machine.
use crate::script::make_call;
use row_files::RowFault;
use st_disk::{Disk, FileDisk, SystemFolder};
use std::fs;

/// The answers of a disk over the file and the one with `.2` behind its name.
pub fn say_file(
    rt: HostRuntime,
    said: &mut String,
    file: &str,
    calls: &[String],
) -> Result<(), RowFault> {
    let mut disk = FileDisk::new(SystemFolder::new(rt, rt.alloc(), file)?);
    say_calls(rt, said, &mut disk, file, calls)
}

fn say_calls<D: Disk>(
    rt: HostRuntime,
    said: &mut String,
    disk: &mut D,
    file: &str,
    calls: &[String],
) -> Result<(), RowFault> {
    for word in calls {
        say_call(rt, said, disk, file, word.as_str())?;
    }
    Ok(())
}

// `=TEXT` has another make the file meanwhile, `-` another remove it.
fn say_call<D: Disk>(
    rt: HostRuntime,
    said: &mut String,
    disk: &mut D,
    file: &str,
    word: &str,
) -> Result<(), RowFault> {
    if word == "-" {
        return is_made(fs::remove_file(&rt, file).is_ok());
    }
    match word.strip_prefix('=') {
        Some(text) => is_made(fs::write(&rt, file, text).is_ok()),
        None => make_call(said, disk, word),
    }
}

fn is_made(is_made: bool) -> Result<(), RowFault> {
    if is_made { Ok(()) } else { Err(RowFault::Word) }
}
