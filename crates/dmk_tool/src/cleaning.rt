//! Files of targets, removed.

use crate::answers::Fault;
use crate::looks::{look_at, looks_at_names};
use crate::request::Cleaning;
use crate::streams::tell_of;
use mk_names::Names;
use st_answers::{Looks, removable, staying, target_names};
use st_marks::Mark;
use st_records::ByteStrings;
use st_state::State;
use std::alloc::AllocError;
use std::path::PathBuf;
use std::{fs, io};

/// What came of it.
#[derive(Drop)]
pub struct Cleaned {
    /// A line for each file that was removed, and behind these one for each that stays.
    pub text: Vec<u8>,
    /// Whether the state has all the names.
    pub found: bool,
    /// Whether each file that was to be removed could be; what couldn't is told.
    pub removed: bool,
}

/// Removes the files of the targets that are as they were made; where it is just a dry run, the same is told.
pub fn clean(rt: HostRuntime, state: &State, cleaning: &Cleaning) -> Result<Cleaned, Fault> {
    let (names, found) = names_of(rt, state, cleaning)?;
    let looks = looks_at_names(rt, &names)?;
    let cleaned = clean_names(rt, state, cleaning, &names, &looks);
    drop(looks);
    let (text, removed) = cleaned?;
    Ok(Cleaned {
        text,
        found,
        removed,
    })
}

fn clean_names(
    rt: HostRuntime,
    state: &State,
    cleaning: &Cleaning,
    names: &Names,
    looks: &Looks<'_>,
) -> Result<(Vec<u8>, bool), AllocError> {
    let files = removable(rt.alloc(), state, names, looks, cleaning.outside)?;
    let stay = staying(rt.alloc(), state, names, looks, cleaning.outside)?;
    let (mut text, removed) = remove_all(rt, cleaning, &files, looks)?;
    text.extend_from_slice(stay.as_slice())?;
    Ok((text, removed))
}

/// The names that were asked for, or all targets. One that is no target is told.
fn names_of(
    rt: HostRuntime,
    state: &State,
    cleaning: &Cleaning,
) -> Result<(Names, bool), AllocError> {
    let mut names = Names::new(rt.alloc());
    let mut found = true;
    match &cleaning.names {
        None => {
            let all = target_names(rt.alloc(), state)?;
            for name in all.iter() {
                names.mention(rt.alloc(), name)?;
            }
        }
        Some(asked) => {
            for name in asked {
                let name = name.as_slice();
                if state.get(name).is_some() {
                    names.mention(rt.alloc(), name)?;
                } else {
                    tell_of(rt, "", name, "not in the state");
                    found = false;
                }
            }
        }
    }
    Ok((names, found))
}

/// Removes these files, with a line for each, and tells whether all could be removed.
fn remove_all(
    rt: HostRuntime,
    cleaning: &Cleaning,
    files: &ByteStrings,
    looks: &Looks<'_>,
) -> Result<(Vec<u8>, bool), AllocError> {
    let tree = if cleaning.outside {
        None
    } else {
        fs::canonicalize(&rt, ".").ok()
    };
    let mut text = Vec::new(rt.alloc());
    let mut all = true;
    for name in files.iter() {
        match word_of(rt, cleaning, &tree, name, looks.get(name)) {
            Ok(word) => append(&mut text, word, name)?,
            Err(error) => {
                let why = format!(in rt.alloc(); "cannot be removed: {error}")?;
                tell_of(rt, "", name, why.as_str());
                all = false;
            }
        }
    }
    Ok((text, all))
}

fn append(text: &mut Vec<u8>, word: &str, name: &[u8]) -> Result<(), AllocError> {
    text.extend_from_slice(word.as_bytes())?;
    text.extend_from_slice(b"\t")?;
    text.extend_from_slice(name)?;
    text.extend_from_slice(b"\n")
}

/// Removes a file, unless links lead to it out of the tree, or it isn't any more what the look found.
fn word_of(
    rt: HostRuntime,
    cleaning: &Cleaning,
    tree: &Option<PathBuf>,
    name: &[u8],
    look: Option<&Mark>,
) -> io::Result<&'static str> {
    let Ok(path) = std::str::from_utf8(name) else {
        return Ok("changed");
    };
    if !cleaning.outside && !is_within(rt, tree, path) {
        return Ok("outside");
    }
    if look != Some(&look_at(rt, name)) {
        return Ok("changed");
    }
    if !cleaning.dry_run {
        fs::remove_file(&rt, path)?;
    }
    Ok("remove")
}

/// Whether the folder of a path lies in the tree, wherever links lead.
fn is_within(rt: HostRuntime, tree: &Option<PathBuf>, path: &str) -> bool {
    let folder = match path.rsplit_once('/') {
        Some((folder, _)) => folder,
        None => return true,
    };
    match (tree, fs::canonicalize(&rt, folder)) {
        (Some(tree), Ok(folder)) => folder.starts_with(tree.as_path()),
        _ => false,
    }
}
