//! The names that are to be made.
ghost use Rattle.std.specs.Prelude.{◌≡◌, ◌≢◌, [], take, option_to_list, option_copied, IfOk, IfErr, IsOk};
ghost use Rattle.std.specs.List.{list_any};
ghost use Rattle.mk_settings.specs.Goals.{IsGoalFault, is_slash, is_dotted, may_be_goal, first_goal, first_goals, goals_of};
ghost use Rattle.mk_rule_lines.specs.Rules.{suffixes_of};

use byte_strings::ByteStrings;
use mk_rule_lines::{RuleFault, RuleLine};
use std::alloc::Global;

fn has_slash(name: &[u8]) -> bool
    ensures { result ≡ list_any is_slash name.now }
{
    name.iter().any(|b| *b == b'/')
}

/// Whether the name begins with a dot and has no slash.
fn is_dotted(name: &[u8]) -> bool
    ensures { result ≡ is_dotted name.now }
{
    match name.split_first() {
        Some((first, rest)) => *first == b'.' && !has_slash(rest),
        None => false,
    }
}

fn may_be_goal(suffixes: &ByteStrings, line: &RuleLine, target: &[u8]) -> bool
    ensures { result ≡ may_be_goal suffixes.now line.now target.now }
{
    line.is_rule()
        && !line.is_pattern_rule()
        && !line.is_suffix_target(suffixes, target)
        && !is_dotted(target)
}

/// The first target of a line, where it may be a goal.
fn first_goal<'l>(suffixes: &ByteStrings, line: &'l RuleLine) -> Option<&'l [u8]>
    ensures { option_to_list (option_copied result) ≡ first_goal suffixes.now line.now }
{
    let target = line.targets.first()?;
    if may_be_goal(suffixes, line, target) {
        return Some(target);
    }
    None
}

/// The first target of the first line where it may be a goal.
fn default_goal<'l>(suffixes: &ByteStrings, lines: &'l [RuleLine]) -> Option<&'l [u8]>
    ensures { option_to_list (option_copied result) ≡ take 1 (first_goals suffixes.now lines.now) }
{
    for line in lines {
        if let Some(target) = first_goal(suffixes, line) {
            return Some(target);
        }
    }
    None
}

/// The names that are to be made: those that are named, or else the first target of the rules; `NoTarget` where there
/// is none.
pub fn goals_of(
    alloc: Global,
    lines: &[RuleLine],
    suffixes: &ByteStrings,
    named: ByteStrings,
) -> Result<ByteStrings, RuleFault>
    requires { suffixes.now ≡ suffixes_of lines.now }
    ensures goals { IfOk result (λ goals. goals ≡ goals_of lines.now named) }
    ensures some { IfOk result (λ goals. goals ≢ []) }
    ensures fault { IfErr result (IsGoalFault lines.now named) }

    // Names that are given are handed back, which takes no memory.
    ensures given { named ≢ [] → IsOk result }
{
    if !named.is_empty() {
        return Ok(named);
    }
    let Some(target) = default_goal(suffixes, lines) else {
        return Err(RuleFault::NoTarget);
    };
    let mut goals = ByteStrings::empty(alloc);
    goals.push(target)?;
    Ok(goals)
}
