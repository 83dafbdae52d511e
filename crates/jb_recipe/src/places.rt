//! Where recipes write what they read, as a makefile says by `.DEPFILE`.
ghost use Rattle.std.specs.Prelude.{◌≡◌, map, IfOk};
ghost use Rattle.mk_depfiles.specs.Place.{depfile_of};
ghost use Rattle.jb_recipe.specs.Places.{places_said};

use byte_strings::ByteStrings;
use mk_depfiles::depfile_of;
use std::alloc::{AllocError, Global};

fn depfiles_of(
    alloc: Global,
    patterns: &ByteStrings,
    target: &[u8],
) -> Result<ByteStrings, AllocError>
    ensures { IfOk result (λ paths. paths ≡ map (λ pattern. depfile_of pattern target.now) patterns.now) }
{
    let mut paths = ByteStrings::empty(alloc);
    for pattern in patterns {
        let path = depfile_of(alloc, pattern, target)?;
        paths.push(&path)?;
    }
    Ok(paths)
}

/// The files of a target's recipe, by the patterns that are said of all recipes; None where nothing is said.
pub(crate) fn places_said(
    alloc: Global,
    said: &Option<ByteStrings>,
    target: &[u8],
) -> Result<Option<ByteStrings>, AllocError>
    ensures { IfOk result (λ places. places ≡ places_said said.now target.now) }
{
    match said {
        Some(patterns) => Ok(Some(depfiles_of(alloc, patterns, target)?)),
        None => Ok(None),
    }
}
