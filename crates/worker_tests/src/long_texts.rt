//! How long a text may grow.

use crate::expected::expect;
use mk_macros::{Dynamic, MAX_EXPANSION_BYTES, MAX_WIDE_EXPANSION_BYTES, Macros};
use mk_profile::Profile;
use std::alloc::{AllocError, Global};
use std::test::Fail;

/// A text of so many bytes, and how many its expansion has, or why it has none.
struct Row {
    name: &'static str,
    profile: Profile,
    bytes: usize,
    told: &'static str,
}

static ROWS: [Row; 4] = [
    Row {
        name: "a text of 1 MiB in the strict profile",
        profile: Profile::Strict,
        bytes: MAX_EXPANSION_BYTES,
        told: "1048576",
    },
    Row {
        name: "a longer one there",
        profile: Profile::Strict,
        bytes: MAX_EXPANSION_BYTES + 1,
        told: "expansion too long",
    },
    Row {
        name: "a text of 64 MiB in the wide profile",
        profile: Profile::Posix,
        bytes: MAX_WIDE_EXPANSION_BYTES,
        told: "67108864",
    },
    Row {
        name: "a longer one there",
        profile: Profile::Posix,
        bytes: MAX_WIDE_EXPANSION_BYTES + 1,
        told: "expansion too long",
    },
];

fn expansion(alloc: Global, profile: Profile, bytes: usize) -> Result<String, AllocError> {
    let mut text = Vec::with_capacity(alloc, bytes)?;
    for _ in 0..bytes {
        text.push(b'x')?;
    }
    let macros = Macros::new(alloc, profile);
    match macros.expand(alloc, &text, &Dynamic::RuleLine) {
        Ok(value) => format!(in alloc; "{}", value.len()),
        Err(fault) => format!(in alloc; "{fault}"),
    }
}

#[test]
fn a_text_is_as_long_as_its_language_takes_it(rt: HostRuntime) -> Result<(), Fail> {
    for row in &ROWS {
        let told = expansion(rt.alloc(), row.profile, row.bytes)?;
        expect(rt.alloc(), row.name, told.as_str(), row.told)?;
    }
    Ok(())
}
