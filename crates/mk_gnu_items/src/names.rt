//! The names of a rule, and which of them can't be told.
ghost use Rattle.std.specs.Prelude.{◌≡◌, IfOk, map};
ghost use Rattle.std.specs.List.{list_any, list_all};
ghost use Rattle.mk_eval.specs.Static.{has_percent, quotes_percent};
ghost use Rattle.mk_gnu_eval.specs.Reading.{is_sign};
ghost use Rattle.mk_short_names.specs.Short.{short_name};
ghost use Rattle.mk_target_lines.specs.Shown.{rule_of};
ghost use Rattle.mk_gnu_items.specs.Names.{is_parting, oddity_of, oddity_in, oddity, odd_cause, percent_cause};
ghost use Rattle.mk_gnu_items.specs.Rules.{short_names};

use crate::fault::{Cause, Oddity};
use byte_strings::{ByteStrings, Iter, is_blank};
use mk_lines::begins_with;
use mk_reader::Feature;
use mk_short_names::short_name;
use mk_target_lines::{Rule, prerequisite_names};
use std::alloc::{AllocError, Global};

/// The names of a rule.
#[derive(Drop)]
pub(crate) struct Names {
    pub(crate) targets: ByteStrings,
    pub(crate) prerequisites: ByteStrings,
    pub(crate) order_only: ByteStrings,
}

fn is_parting(byte: u8) -> bool
    ensures { result ≡ is_parting byte }
{
    is_blank(byte) || byte == b'\n'
}

fn is_sign(byte: u8) -> bool
    ensures { result ≡ is_sign byte }
{
    byte == b'*' || byte == b'?' || byte == b'['
}

fn has_parting(name: &[u8]) -> bool
    ensures { result ≡ list_any is_parting name.now }
{
    name.iter().any(|byte| is_parting(*byte))
}

fn has_sign(name: &[u8]) -> bool
    ensures { result ≡ list_any is_sign name.now }
{
    name.iter().any(|byte| is_sign(*byte))
}

/// What a name has that it can't be told with.
fn oddity_of(name: &[u8]) -> Option<Oddity>
    ensures { result ≡ oddity_of name.now }
{
    if has_parting(name) {
        Some(Oddity::Blank)
    } else if has_sign(name) {
        Some(Oddity::Wildcard)
    } else if begins_with(name, b'~') {
        Some(Oddity::Home)
    } else if name == b"|".as_slice() {
        Some(Oddity::Bar)
    } else {
        None
    }
}

fn oddity_in(names: Iter<'_>) -> Option<Oddity>
    ensures { result ≡ oddity_in names.entry }
{
    for name in names {
        if let Some(oddity) = oddity_of(name) {
            return Some(oddity);
        }
    }
    None
}

fn oddity(names: &Names) -> Option<Oddity>
    ensures { result ≡ oddity names.now }
{
    if let Some(oddity) = oddity_in(names.targets.iter()) {
        return Some(oddity);
    }
    if let Some(oddity) = oddity_in(names.prerequisites.iter()) {
        return Some(oddity);
    }
    oddity_in(names.order_only.iter())
}

/// Why a name of these can't be told.
pub(crate) fn odd_cause(names: &Names) -> Option<Cause>
    ensures { result ≡ odd_cause names.now }
{
    match oddity(names) {
        Some(oddity) => Some(Cause::Name(oddity)),
        None => None,
    }
}

fn has_percent(name: &[u8]) -> bool
    ensures { result ≡ has_percent name.now }
{
    name.contains(&b'%')
}

pub(crate) fn any_has_percent(names: &ByteStrings) -> bool
    ensures { result ≡ list_any has_percent names.now }
{
    names.iter().any(|name| has_percent(name))
}

fn all_have_percent(names: &ByteStrings) -> bool
    ensures { result ≡ list_all has_percent names.now }
{
    names.iter().all(|name| has_percent(name))
}

/// Whether a backslash stands directly before a `%`.
fn quotes_percent(name: &[u8]) -> bool
    ensures { result ≡ quotes_percent name.now }
{
    let mut rest = name;
    while let Some((byte, after)) = rest.split_first() {
        if *byte == b'\\' && begins_with(after, b'%') {
            return true;
        }
        rest = after;
    }
    false
}

fn any_quotes_percent(names: &ByteStrings) -> bool
    ensures { result ≡ list_any quotes_percent names.now }
{
    names.iter().any(|name| quotes_percent(name))
}

/// Why a rule with these names would be read as another.
pub(crate) fn percent_cause(names: &Names) -> Option<Cause>
    ensures { result ≡ percent_cause names.now }
{
    if !any_has_percent(&names.targets) {
        return None;
    }
    if any_quotes_percent(&names.targets)
        || any_quotes_percent(&names.prerequisites)
        || any_quotes_percent(&names.order_only)
    {
        return Some(Cause::Unsupported(Feature::QuotedPercent));
    }
    if all_have_percent(&names.targets) {
        return None;
    }
    Some(Cause::Name(Oddity::Percent))
}

fn short_of(alloc: Global, names: &ByteStrings) -> Result<ByteStrings, AllocError>
    ensures { IfOk result (λ short. short ≡ map short_name names.now) }
{
    let mut short = ByteStrings::empty(alloc);
    for name in names.iter() {
        short.push(short_name(name))?;
    }
    Ok(short)
}

/// The names of a rule, without a `./` in front.
pub(crate) fn short_names(alloc: Global, rule: &Rule) -> Result<Names, AllocError>
    ensures { IfOk result (λ names. names ≡ short_names (rule_of rule.now)) }
{
    let found = prerequisite_names(alloc, rule.prerequisites.as_slice())?;
    Ok(Names {
        targets: short_of(alloc, &rule.targets)?,
        prerequisites: short_of(alloc, &found.names)?,
        order_only: short_of(alloc, &found.order_only)?,
    })
}
