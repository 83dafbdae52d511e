//! The stems of static pattern rules, and the names that they make.
ghost use Rattle.std.specs.Prelude.{◌≡◌, IfOk, map, option_copied};
ghost use Rattle.mk_words.specs.Patterns.{stem_of};
ghost use Rattle.mk_gnu_items.specs.Rules.{or_nothing, short_front, with_stem, target_names};

use crate::names::Names;
use byte_strings::ByteStrings;
use mk_short_names::{begins_here, short_name};
use mk_target_lines::{Form, form_of};
use std::alloc::{AllocError, Global};

fn or_nothing(name: &[u8]) -> &[u8]
    ensures { result.now ≡ or_nothing name.now }
{
    if name == b"./".as_slice() {
        return b"".as_slice();
    }
    name
}

/// What stands before the `%` of a target pattern, without a `./` in front.
pub(crate) fn short_front(front: &[u8]) -> &[u8]
    ensures { result.now ≡ short_front front.now }
{
    if begins_here(front) {
        return or_nothing(short_name(front));
    }
    front
}

/// What the `%` stands for in a target.
pub(crate) fn stem_of<'a>(front: &[u8], behind: &[u8], target: &'a [u8]) -> Option<&'a [u8]>
    ensures { option_copied result ≡ stem_of front.now behind.now target.now }
{
    target.strip_prefix(front)?.strip_suffix(behind)
}

fn with_stem(alloc: Global, stem: &[u8], name: &[u8]) -> Result<Vec<u8>, AllocError>
    ensures { IfOk result (λ v. v.items ≡ with_stem stem.now name.now) }
{
    let Form { front, behind } = form_of(alloc, name)?;
    let Some(behind) = behind else {
        return Vec::from_slice(alloc, name);
    };
    let mut out = front;
    out.extend_from_slice(stem)?;
    out.extend_from_slice(behind.as_slice())?;
    Ok(out)
}

fn with_stems(alloc: Global, stem: &[u8], names: &ByteStrings) -> Result<ByteStrings, AllocError>
    ensures { IfOk result (λ made. made ≡ map (with_stem stem.now) names.now) }
{
    let mut made = ByteStrings::empty(alloc);
    for name in names.iter() {
        let name = with_stem(alloc, stem, name)?;
        made.push(name.as_slice())?;
    }
    Ok(made)
}

/// The names of the rule for one target.
pub(crate) fn target_names(
    alloc: Global,
    target: &[u8],
    stem: &[u8],
    names: &Names,
) -> Result<Names, AllocError>
    ensures { IfOk result (λ made. made ≡ target_names target.now stem.now names.now) }
{
    let mut targets = ByteStrings::empty(alloc);
    targets.push(target)?;
    Ok(Names {
        targets,
        prerequisites: with_stems(alloc, stem, &names.prerequisites)?,
        order_only: with_stems(alloc, stem, &names.order_only)?,
    })
}
