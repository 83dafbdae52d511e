//! Looks at files.

use mk_names::Names;
use st_answers::{Looks, target_names};
use st_marks::Mark;
use st_records::HashKey;
use st_state::State;
use std::alloc::AllocError;
use std::collections::HashMap;
use std::fs;
use std::os::unix::fs::MetadataExt;

const SECOND: i128 = 1_000_000_000;

/// What is at the name of each target, in byte order of the names.
pub fn looks_at_targets(rt: HostRuntime, state: &State) -> Result<Vec<Mark>, AllocError> {
    let names = target_names(rt.alloc(), state)?;
    let mut looks = Vec::new(rt.alloc());
    for name in names.iter() {
        looks.push(look_at(rt, name))?;
    }
    Ok(looks)
}

/// What is at each of these names. They are hashed under a key, as those of the state are.
pub fn looks_at_names<'a>(rt: HostRuntime, names: &'a Names) -> Result<Looks<'a>, AllocError> {
    let mut looks = HashMap::with_hasher(rt.alloc(), HashKey::from_system(&rt));
    for number in 0..names.len() {
        let name = names.name(number);
        looks.insert(name, look_at(rt, name))?;
    }
    Ok(looks)
}

/// What is at a name, as a run sees it: links are followed, and no file is there where the system says anything else of it, or the name
/// is no text.
pub fn look_at(rt: HostRuntime, name: &[u8]) -> Mark {
    let Ok(name) = std::str::from_utf8(name) else {
        return Mark::NoFile;
    };
    let Ok(found) = fs::metadata(&rt, name) else {
        return Mark::NoFile;
    };
    if !found.is_file() {
        return Mark::Other;
    }
    let time = i128::from(found.mtime()) * SECOND + i128::from(found.mtime_nsec());
    Mark::file(time, found.len())
}
