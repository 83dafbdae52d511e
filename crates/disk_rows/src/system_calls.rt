//! The system's own calls on a state file's name, one by one: what no contract can say of them.
use row_files::RowFault;
use st_disk::{Folder, SystemFile, SystemFolder, Which};
use std::alloc::AllocError;
use std::io;

/// Makes the calls that are named, and says their answers with blanks between.
///
/// `find` says in which folder the file stands, or `none`; `make` says `there` in place of the folder where it was found;
/// `len` says its length, `name` and `sync` say `+`. A call that fails says `!`.
pub fn say_system(
    rt: HostRuntime,
    said: &mut String,
    name: &str,
    calls: &[String],
) -> Result<(), RowFault> {
    let mut files = SystemFolder::new(rt, rt.alloc(), name)?;
    say_calls(said, &mut files, calls)
}

fn say_calls(
    said: &mut String,
    files: &mut SystemFolder,
    calls: &[String],
) -> Result<(), RowFault> {
    let mut between = "";
    for word in calls {
        said.push_str(between)?;
        say_call(said, files, word.as_str())?;
        between = " ";
    }
    Ok(())
}

fn say_call(said: &mut String, files: &mut SystemFolder, word: &str) -> Result<(), RowFault> {
    let answered = match word {
        "find" => say_found(said, files),
        "make" => say_made(said, files),
        "len" => say_len(said, files),
        "name" => say_done(said, sync_name(files).is_ok()),
        "sync" => say_done(said, sync(files).is_ok()),
        _ => return Err(RowFault::Word),
    };
    Ok(answered?)
}

fn say_file(said: &mut String, file: io::Result<SystemFile>) -> Result<(), AllocError> {
    match file {
        Ok(file) => said.push_str(file.folder()),
        Err(_) => said.push('!'),
    }
}

fn say_found(said: &mut String, files: &mut SystemFolder) -> Result<(), AllocError> {
    match files.find(Which::A) {
        Ok(Some(file)) => said.push_str(file.folder()),
        Ok(None) => said.push_str("none"),
        Err(_) => said.push('!'),
    }
}

fn say_made(said: &mut String, files: &mut SystemFolder) -> Result<(), AllocError> {
    match files.find(Which::A) {
        Ok(None) => say_file(said, files.create(Which::A)),
        Ok(Some(_)) => said.push_str("there"),
        Err(_) => said.push('!'),
    }
}

fn say_len(said: &mut String, files: &mut SystemFolder) -> Result<(), AllocError> {
    match len(files) {
        Ok(len) => write!(said, "{len}"),
        Err(_) => said.push('!'),
    }
}

fn say_done(said: &mut String, is_done: bool) -> Result<(), AllocError> {
    said.push(if is_done { '+' } else { '!' })
}

fn found(files: &mut SystemFolder) -> io::Result<SystemFile> {
    match files.find(Which::A)? {
        Some(file) => Ok(file),
        None => Err(io::ErrorKind::NotFound.into()),
    }
}

fn len(files: &mut SystemFolder) -> io::Result<usize> {
    let file = found(files)?;
    files.len(&file)
}

fn sync_name(files: &mut SystemFolder) -> io::Result<()> {
    let file = found(files)?;
    files.sync_name(&file)
}

fn sync(files: &mut SystemFolder) -> io::Result<()> {
    let file = found(files)?;
    files.sync(&file)
}
