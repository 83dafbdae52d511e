//! Parts of lists of names.
ghost use Rattle.std.specs.Prelude.{◌≡◌, ◌++◌, take, drop, slice_get, option_to_list, IfOk, OnOk};

use byte_strings::ByteStrings;
use std::alloc::{AllocError, Global};

/// Lists the name with this number too, if there is one.
fn push_at(list: &mut ByteStrings, names: &ByteStrings, number: usize) -> Result<(), AllocError>
    ensures { OnOk result (list.new ≡ list.old ++ option_to_list (slice_get names.now number)) }
{
    match names.get(number) {
        Some(name) => list.push(name),
        None => Ok(()),
    }
}

/// The first so many names.
pub(crate) fn names_before(
    alloc: Global,
    names: &ByteStrings,
    count: usize,
) -> Result<ByteStrings, AllocError>
    ensures { IfOk result (λ before. before ≡ take count names.now) }
{
    let mut before = ByteStrings::empty(alloc);
    for number in 0..count {
        push_at(&mut before, names, number)?;
    }
    Ok(before)
}

/// The names behind the first so many.
pub(crate) fn names_behind(
    alloc: Global,
    names: &ByteStrings,
    count: usize,
) -> Result<ByteStrings, AllocError>
    ensures { IfOk result (λ behind. behind ≡ drop count names.now) }
{
    let mut behind = ByteStrings::empty(alloc);
    for number in count..names.len() {
        push_at(&mut behind, names, number)?;
    }
    Ok(behind)
}

/// Lists these names too.
pub(crate) fn push_all(list: &mut ByteStrings, names: &ByteStrings) -> Result<(), AllocError>
    ensures { OnOk result (list.new ≡ list.old ++ names.now) }
{
    for name in names.iter() {
        list.push(name)?;
    }
    Ok(())
}
