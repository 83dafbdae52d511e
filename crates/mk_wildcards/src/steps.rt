//! One part of a path in one folder.
ghost use Rattle.std.specs.Prelude.{◌≡◌, ◌++◌, ◌∷◌, [], map, filter, bytes_eq, OnOk};
ghost use Rattle.std.specs.List.{list_any};
ghost use Rattle.mk_wildcards.specs.Fits.{fits_name};
ghost use Rattle.mk_wildcards.specs.Found.{is_own, is_there, joined, steps};

use crate::element::Element;
use crate::fits::fits_name;
use crate::pattern::{elements, is_pattern};
use byte_strings::ByteStrings;
use std::alloc::{AllocError, Global};

/// Adds the way through the folder to a name in it.
fn push_step(
    alloc: Global,
    is_last: bool,
    way: &[u8],
    step: &[u8],
    out: &mut ByteStrings,
) -> Result<(), AllocError>
    ensures { OnOk result (out.new ≡ out.old ++ joined is_last way.now step.now ∷ []) }
{
    let mut path = Vec::from_slice(alloc, way)?;
    path.extend_from_slice(step)?;
    if !is_last {
        path.push(b'/')?;
    }
    out.push(path.as_slice())
}

/// Adds the ways to those names in a folder that fit a pattern.
fn push_fitting(
    alloc: Global,
    names: &ByteStrings,
    is_last: bool,
    way: &[u8],
    pattern: &[Element],
    out: &mut ByteStrings,
) -> Result<(), AllocError>
    ensures { OnOk result (out.new ≡ out.old ++ map (joined is_last way.now) (filter (fits_name pattern.now) names.now)) }
{
    for name in names.iter() {
        if fits_name(pattern, name) {
            push_step(alloc, is_last, way, name, out)?;
        }
    }
    Ok(())
}

fn is_own(part: &[u8]) -> bool
    ensures { result ≡ is_own part.now }
{
    part.is_empty() || part == b".".as_slice() || part == b"..".as_slice()
}

fn is_listed(names: &ByteStrings, part: &[u8]) -> bool
    ensures { result ≡ list_any (bytes_eq part.now) names.now }
{
    for name in names.iter() {
        if part == name {
            return true;
        }
    }
    false
}

/// Whether the part is in a folder with these names.
fn is_there(names: &Option<ByteStrings>, part: &[u8]) -> bool
    ensures { result ≡ is_there names.now part.now }
{
    match names {
        None => false,
        Some(names) => is_own(part) || is_listed(names, part),
    }
}

/// Adds the ways through a folder with these names, or one that can't be read, to what a part of a path stands for there.
pub fn push_steps(
    alloc: Global,
    names: &Option<ByteStrings>,
    is_last: bool,
    way: &[u8],
    part: &[u8],
    out: &mut ByteStrings,
) -> Result<(), AllocError>
    ensures { OnOk result (out.new ≡ out.old ++ map (joined is_last way.now) (steps names.now is_last part.now)) }
{
    if !is_pattern(part) {
        if !is_last || is_there(names, part) {
            push_step(alloc, is_last, way, part, out)?;
        }
        return Ok(());
    }
    let pattern = elements(alloc, part)?;
    match names {
        None => Ok(()),
        Some(names) => push_fitting(alloc, names, is_last, way, &pattern, out),
    }
}
