//! What a name is made from by rules, each name once.
ghost use Rattle.std.specs.Prelude.{◌≡◌, length, take, slice_get, option_to_list, IfOk, OnOk};
ghost use Rattle.mk_names.specs.Names.{all_added};
ghost use Rattle.mk_nodes.specs.Prerequisites.{made_names, made_from, distinct};

use crate::distinct_names::DistinctNames;
use crate::listed::names_before;
use byte_strings::ByteStrings;
use mk_makefile::Source;
use std::alloc::{AllocError, Global};

/// Mentions all of these.
pub(crate) fn mention_all(
    alloc: Global,
    names: &mut DistinctNames,
    mentioned: &ByteStrings,
) -> Result<(), AllocError>
    ensures { OnOk result (names.new ≡ all_added names.old mentioned.now) }
{
    for name in mentioned.iter() {
        let _is_new = names.mention(alloc, name)?;
    }
    Ok(())
}

/// Mentions the name with this number, if there is one.
fn mention_at(
    alloc: Global,
    names: &mut DistinctNames,
    mentioned: &ByteStrings,
    number: usize,
) -> Result<(), AllocError>
    ensures { OnOk result (names.new ≡ all_added names.old (option_to_list (slice_get mentioned.now number))) }
{
    if let Some(name) = mentioned.get(number) {
        let _is_new = names.mention(alloc, name)?;
    }
    Ok(())
}

/// Mentions the first so many of these.
fn mention_front(
    alloc: Global,
    names: &mut DistinctNames,
    mentioned: &ByteStrings,
    count: usize,
) -> Result<(), AllocError>
    ensures { OnOk result (names.new ≡ all_added names.old (take count mentioned.now)) }
{
    for number in 0..count {
        mention_at(alloc, names, mentioned, number)?;
    }
    Ok(())
}

/// What a name with this source is made from.
fn made_names(alloc: Global, source: &Source) -> Result<ByteStrings, AllocError>
    ensures { IfOk result (λ names. names ≡ made_names source.now) }
{
    match &source.leader {
        Some(leader) => {
            let mut names = ByteStrings::empty(alloc);
            names.push(leader.as_slice())?;
            Ok(names)
        }
        None => names_before(alloc, &source.names, source.ordinary),
    }
}

/// What an implicit rule makes a name from, if one does.
pub(crate) fn made_from(alloc: Global, source: &Option<Source>) -> Result<ByteStrings, AllocError>
    ensures { IfOk result (λ names. names ≡ made_from source.now) }
{
    match source {
        Some(source) => made_names(alloc, source),
        None => Ok(ByteStrings::empty(alloc)),
    }
}

/// How many names the first so many are, each once.
fn distinct_count(alloc: Global, names: &ByteStrings, count: usize) -> Result<usize, AllocError>
    ensures { IfOk result (λ found. found ≡ length (distinct (take count names.now))) }
{
    // Less than two are as many, which takes no memory.
    if count <= names.len() && count < 2 {
        return Ok(count);
    }
    let mut mentioned = DistinctNames::new(alloc);
    mention_front(alloc, &mut mentioned, names, count)?;
    Ok(mentioned.len())
}

/// How many names a name with this source is made from.
fn made_count(alloc: Global, source: &Source) -> Result<usize, AllocError>
    ensures { IfOk result (λ count. count ≡ length (distinct (made_names source.now))) }
{
    match source.leader {
        Some(_) => Ok(1),
        None => distinct_count(alloc, &source.names, source.ordinary),
    }
}

/// How many names an implicit rule gives.
pub(crate) fn implied_count(alloc: Global, source: &Option<Source>) -> Result<usize, AllocError>
    ensures { IfOk result (λ count. count ≡ length (distinct (made_from source.now))) }
{
    match source {
        Some(source) => made_count(alloc, source),
        None => Ok(0),
    }
}
