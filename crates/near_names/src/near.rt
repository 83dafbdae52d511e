ghost use Rattle.std.specs.Prelude.{◌≡◌, ◌∷◌, ◌++◌, [], ◌≤◌, ◌*◌, option_map, nat_le, ◌&&◌, length, IfOk};
ghost use Rattle.near_names.specs.Near.{edits, is_near, IsNearest};

use byte_strings::ByteStrings;
use std::alloc::{AllocError, Global};
use strsim::generic_levenshtein;

/// Another name, and how many edits lead to it.
#[derive(Clone, Copy)]
struct Near<'a> {
    name: &'a [u8],
    edits: usize,
}

fn is_near(edits: usize, name: &[u8]) -> bool
    ensures { result ≡ (nat_le edits 2 && nat_le (edits * 3) (length name.now)) }
{
    edits <= 2 && edits * 3 <= name.len()
}

/// The one of these names that is nearest to this one, by few edits; None where none is near.
pub fn nearest<'a>(
    alloc: Global,
    name: &[u8],
    among: &'a ByteStrings,
) -> Result<Option<&'a [u8]>, AllocError>
    ensures { IfOk result (λ found. IsNearest name.now among.now (option_map (λ other. other.now) found)) }
{
    let mut found: Option<Near<'a>> = None;
    for other in among.iter() {
        let edits = generic_levenshtein(alloc, name, other)?;
        if !is_near(edits, name) {
            continue;
        }
        match found {
            Some(before) if before.edits <= edits => {}
            _ => found = Some(Near { name: other, edits }),
        }
    }
    match found {
        Some(near) => Ok(Some(near.name)),
        None => Ok(None),
    }
}
