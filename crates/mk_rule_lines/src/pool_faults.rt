//! Which lines of `.POOL` are refused.
ghost use Rattle.std.specs.Prelude.{◌≡◌, List, true, false, option_copied, IfOk, IfErr, IfSome, IfNone};
ghost use Rattle.std.specs.List.{list_any};
ghost use Rattle.mk_names.specs.Names.{has_name};
ghost use Rattle.mk_rule_lines.specs.Pools.{IsPoolLine, IsPoolCause, HasNoPoolCause, HasNoPoolFault, IsPoolFault, members_in, names_in_pools};
ghost use Rattle.mk_rule_lines.specs.Rules.{has, has_percent};
ghost use Rattle.mk_rule_lines.specs.declared.rule_line.RuleLine.{RuleLine as Line};

use crate::fault::{RuleFault, TextPlace};
use crate::pool_line::{add_members, is_pool, members_in, most_said};
use crate::rule_line::{RuleLine, has_percent};
use byte_strings::ByteString;
use mk_names::Names;
use std::alloc::{AllocError, Global};
use std::fmt;
use thiserror::Error;

/// Why a line of `.POOL` is refused.
#[derive(Debug, Error)]
pub enum PoolCause {
    /// Its first word isn't how many recipes may run at once.
    #[error(".POOL takes how many recipes run at once, 1 to 256, and then targets")]
    NoNumber,
    /// A pattern, which no target's name is.
    #[error(".POOL takes names of targets, and {0} is a pattern")]
    OfPattern(ByteString),
    /// A target of a line above too.
    #[error("{0} is in two pools")]
    InTwo(ByteString),
}

impl Drop for PoolCause {
    fn drop(self) {
        match self {
            PoolCause::NoNumber => {}
            PoolCause::OfPattern(name) | PoolCause::InTwo(name) => drop(name),
        }
    }
}

/// A line of `.POOL` that is refused, and where it stands.
#[derive(Debug)]
pub struct PoolFault {
    pub place: TextPlace,
    pub cause: PoolCause,
}

impl Drop for PoolFault {
    fn drop(self) {
        let PoolFault { place: _, cause: _ } = self;
    }
}

impl fmt::Display for PoolFault {
    fn fmt<W: fmt::Write>(&self, f: &mut fmt::Formatter<W>) -> fmt::Result {
        fmt::Display::fmt(&self.place, f)?;
        f.write_str(": ")?;
        fmt::Display::fmt(&self.cause, f)
    }
}

// A pattern among the targets that the line names.
fn pattern_in(line: &RuleLine) -> Option<&[u8]>
    ensures some { IfSome (option_copied result) (λ name. (has name (members_in line.now.prerequisites) ≡ true) × (has_percent name ≡ true)) }
    ensures none { IfNone result (list_any has_percent (members_in line.now.prerequisites) ≡ false) }
{
    for name in members_in(&line.prerequisites) {
        if has_percent(name) {
            return Some(name);
        }
    }
    None
}

// One of these names among them.
fn member_among<'l>(names: &Names, line: &'l RuleLine) -> Option<&'l [u8]>
    ensures some { IfSome (option_copied result) (λ name. (has name (members_in line.now.prerequisites) ≡ true) × (has_name names.now name ≡ true)) }
    ensures none { IfNone result (list_any (has_name names.now) (members_in line.now.prerequisites) ≡ false) }
{
    for name in members_in(&line.prerequisites) {
        if names.number_of(name).is_some() {
            return Some(name);
        }
    }
    None
}

// Why a line of `.POOL` is refused, where these names stand in pools above.
fn cause_of(alloc: Global, seen: &Names, line: &RuleLine) -> Result<Option<PoolCause>, AllocError>
    requires { IsPoolLine line.now }
    ensures some { IfOk result (λ found. IfSome found (λ cause. (above : List Line) → seen.now ≡ names_in_pools above → IsPoolCause above line.now cause)) }
    ensures none { IfOk result (λ found. IfNone found ((above : List Line) → seen.now ≡ names_in_pools above → HasNoPoolCause above line.now)) }
{
    if most_said(&line.prerequisites).is_none() {
        return Ok(Some(PoolCause::NoNumber));
    }
    if let Some(name) = pattern_in(line) {
        return Ok(Some(PoolCause::OfPattern(ByteString::from_slice(alloc, name)?)));
    }
    match member_among(seen, line) {
        Some(name) => Ok(Some(PoolCause::InTwo(ByteString::from_slice(alloc, name)?))),
        None => Ok(None),
    }
}

// The place of a line.
fn place_of(alloc: Global, line: &RuleLine) -> Result<TextPlace, AllocError>
    ensures { IfOk result (λ place. (place.file ≡ line.now.file) × (place.line ≡ line.now.line)) }
{
    Ok(TextPlace {
        file: ByteString::from_slice(alloc, line.file.as_slice())?,
        line: line.line as usize,
    })
}

/// Refuses lines of `.POOL` that don't say which recipes are meant, and how many run at once.
pub fn check_pools(alloc: Global, lines: &[RuleLine]) -> Result<(), RuleFault>
    ensures ok { IfOk result (λ done. HasNoPoolFault lines.now) }
    ensures err { IfErr result (IsPoolFault lines.now) }
{
    let mut seen = Names::new(alloc);
    for line in lines {
        if !is_pool(line) {
            continue;
        }
        if let Some(cause) = cause_of(alloc, &seen, line)? {
            let place = place_of(alloc, line)?;
            return Err(RuleFault::Pool(PoolFault { place, cause }));
        }
        add_members(alloc, &mut seen, line)?;
    }
    Ok(())
}
