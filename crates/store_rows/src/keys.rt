//! The keys that names are hashed under: no clause says that the system's are others than the fixed one.
use row_files::RowFault;
use st_records::HashKey;
use std::alloc::AllocError;
use std::hash::BuildHasher;

/// Says whether a name is hashed alike under the fixed key taken twice, under it and each of two keys of the system, and
/// under these two.
pub(crate) fn say_keys(rt: HostRuntime, said: &mut String, name: &str) -> Result<(), RowFault> {
    let fixed = hashed(HashKey::fixed(), name);
    let first = hashed(HashKey::from_system(&rt), name);
    let second = hashed(HashKey::from_system(&rt), name);
    say_alike(said, hashed(HashKey::fixed(), name), fixed)?;
    for (one, other) in [(fixed, first), (fixed, second), (first, second)] {
        said.push(' ')?;
        say_alike(said, one, other)?;
    }
    Ok(())
}

fn hashed(key: HashKey, name: &str) -> u64 {
    key.hash_one(name.as_bytes())
}

fn say_alike(said: &mut String, one: u64, other: u64) -> Result<(), AllocError> {
    said.push_str(if one == other { "alike" } else { "not" })
}
