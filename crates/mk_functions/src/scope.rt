//! What is bound where a text is expanded, and what is being expanded round it: all that stands in the texts that wait for it.
ghost use Rattle.std.specs.Prelude.{◌≡◌, ◌+◌, ◌-◌, ◌^◌, ◌||◌, min, bytes_eq, option_map, IfOk};
ghost use Rattle.std.specs.List.{list_any};
ghost use Rattle.std.specs.Option.{option_copied, unwrap_or};
ghost use Rattle.mk_functions.specs.Scope.{Site, inside, number_named, value_numbered, or_else, bound_in, value_count, is_too_deep, called_name};
ghost use Rattle.mk_functions.specs.Shown.{texts, entry_of};
ghost use Rattle.mk_functions.specs.Waiting.{site_at, stack_of};

use crate::limits::MAX_CALLS;
use crate::state::{Entry, Waiting};
use mk_words::number_by;
use std::alloc::{AllocError, Global};

/// The number that a name is. One that is larger than any number of values is the largest.
fn number_named(name: &[u8]) -> Option<usize>
    ensures { result ≡ option_map (λ n. min n (2 ^ 64 - 1)) (number_named name.now) }
{
    let (first, rest) = name.split_first()?;
    if *first == b'0' && !rest.is_empty() {
        None
    } else {
        number_by(name)
    }
}

/// The value whose number this name is.
fn value_named<'a>(values: &'a [Vec<u8>], name: &[u8]) -> Option<&'a [u8]>
    ensures { option_copied result ≡ value_numbered (number_named name.now) (texts values.now) }
{
    match number_named(name) {
        None => None,
        Some(number) => match values.get(number) {
            None => None,
            Some(value) => Some(value.as_slice()),
        },
    }
}

/// What an entry binds to a name.
fn bound_by<'a>(entry: &'a Entry, name: &[u8]) -> Option<&'a [u8]>
    ensures { (site : Site) → bound_in name.now (inside (entry_of entry.now) site).scope ≡ or_else (option_copied result) (bound_in name.now site.scope) }
{
    match entry {
        Entry::Stays | Entry::Opens(_) => None,
        Entry::Passes(values) => value_named(values.as_slice(), name),
        Entry::Binds(bound, value) => {
            if bound.as_slice() == name {
                Some(value.as_slice())
            } else {
                None
            }
        }
    }
}

/// What is bound to a name.
pub(crate) fn bound<'a>(callers: &'a [Waiting<'_>], name: &[u8]) -> Option<&'a [u8]>
    ensures { option_copied result ≡ bound_in name.now (site_at (stack_of callers.now)).scope }
{
    let mut at = callers.len();
    while at > 0 {
        at -= 1;
        if let Some(value) = bound_by(&callers[at].entry, name) {
            return Some(value);
        }
    }
    None
}

fn opens(entry: &Entry, name: &[u8]) -> bool
    ensures { (site : Site) → list_any (bytes_eq name.now) (inside (entry_of entry.now) site).opened ≡ (result || list_any (bytes_eq name.now) site.opened) }
{
    match entry {
        Entry::Opens(opened) => opened.as_slice() == name,
        Entry::Stays | Entry::Binds(_, _) | Entry::Passes(_) => false,
    }
}

/// Whether the text of this variable is being expanded.
pub(crate) fn is_opened(callers: &[Waiting<'_>], name: &[u8]) -> bool
    ensures { result ≡ list_any (bytes_eq name.now) (site_at (stack_of callers.now)).opened }
{
    let mut at = callers.len();
    while at > 0 {
        at -= 1;
        if opens(&callers[at].entry, name) {
            return true;
        }
    }
    false
}

/// How many values an entry passes.
fn passed(entry: &Entry) -> Option<usize>
    ensures { (site : Site) → value_count (inside (entry_of entry.now) site).scope ≡ unwrap_or result (value_count site.scope) }
{
    match entry {
        Entry::Passes(values) => Some(values.len()),
        Entry::Stays | Entry::Opens(_) | Entry::Binds(_, _) => None,
    }
}

/// How many values the latest call has.
pub(crate) fn value_count(callers: &[Waiting<'_>]) -> usize
    ensures { result ≡ value_count (site_at (stack_of callers.now)).scope }
{
    let mut at = callers.len();
    while at > 0 {
        at -= 1;
        if let Some(count) = passed(&callers[at].entry) {
            return count;
        }
    }
    0
}

fn calls(entry: &Entry) -> usize
    ensures { (site : Site) → (inside (entry_of entry.now) site).levels ≡ site.levels - result }
{
    match entry {
        Entry::Passes(_) => 1,
        Entry::Stays | Entry::Opens(_) | Entry::Binds(_, _) => 0,
    }
}

/// How many more calls may be nested.
fn levels(callers: &[Waiting<'_>]) -> usize
    ensures { result ≡ (site_at (stack_of callers.now)).levels }
{
    let mut levels = MAX_CALLS;
    for caller in callers {
        levels = levels.saturating_sub(calls(&caller.entry));
    }
    levels
}

/// No more calls may be nested.
pub(crate) fn is_too_deep(callers: &[Waiting<'_>], entry: &Entry) -> bool
    ensures { result ≡ is_too_deep (entry_of entry.now) (site_at (stack_of callers.now)) }
{
    match entry {
        Entry::Passes(_) => levels(callers) == 0,
        Entry::Stays | Entry::Opens(_) | Entry::Binds(_, _) => false,
    }
}

/// What is called.
pub(crate) fn called_name(alloc: Global, entry: &Entry) -> Result<Vec<u8>, AllocError>
    ensures { IfOk result (λ v. v.items ≡ called_name (entry_of entry.now)) }
{
    match entry {
        Entry::Passes(values) => match values.first() {
            None => Ok(Vec::new(alloc)),
            Some(name) => Vec::from_slice(alloc, name.as_slice()),
        },
        Entry::Stays | Entry::Opens(_) | Entry::Binds(_, _) => Ok(Vec::new(alloc)),
    }
}
