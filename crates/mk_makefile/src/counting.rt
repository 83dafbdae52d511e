//! Which rule lines count: in the wide profile implicit rules may be taken away.
ghost use Rattle.std.specs.Prelude.{◌≡◌, IfOk};
ghost use Rattle.std.specs.List.{list_any};
ghost use Rattle.mk_makefile.specs.InForce.{AreLeft, AreInForce};
ghost use Rattle.mk_makefile.specs.Tests.{is_taking, same_word, is_same_pattern, is_joined, names_suffix_rule, names_form, one_names_form, is_suffix_rule_of, takes};

use crate::supported::is_one_pattern;
use byte_strings::ByteStrings;
use mk_profile::Profile;
use mk_rule_lines::{LineWords, RuleLine, has, suffixes_of};
use std::alloc::{AllocError, Global};

/// What a pattern of a suffix rule's form begins with.
const PERCENT: &[u8] = b"%";

/// Whether the line takes implicit rules away.
fn is_taking(line: &RuleLine) -> bool
    ensures { result ≡ is_taking line.now }
{
    // Most lines have a recipe.
    !line.has_recipe()
        && line.is_rule()
        && is_one_pattern(&line.targets)
        && is_one_pattern(&line.prerequisites)
}

/// Whether both are just one word, and the same one.
fn same_word(names: &LineWords, others: &LineWords) -> bool
    ensures { result ≡ same_word names.now others.now }
{
    if !names.is_one() || !others.is_one() {
        return false;
    }
    match (names.first(), others.first()) {
        (Some(name), Some(other)) => name == other,
        _ => false,
    }
}

/// Whether both have the same target and the same prerequisite.
fn is_same_pattern(line: &RuleLine, taking: &RuleLine) -> bool
    ensures { result ≡ is_same_pattern line.now taking.now }
{
    same_word(&line.targets, &taking.targets)
        && same_word(&line.prerequisites, &taking.prerequisites)
}

/// Whether the name is these two, one behind the other.
fn is_joined(name: &[u8], s: &[u8], t: &[u8]) -> bool
    ensures { result ≡ is_joined name.now s.now t.now }
{
    match name.strip_prefix(s) {
        Some(rest) => rest == t,
        None => false,
    }
}

/// Whether the name is that of the suffix rule `st`, or `s`.
fn names_suffix_rule(suffixes: &ByteStrings, name: &[u8], s: &[u8], t: &[u8]) -> bool
    ensures { result ≡ names_suffix_rule suffixes.now name.now s.now t.now }
{
    has(suffixes, s) && (t.is_empty() || has(suffixes, t)) && is_joined(name, s, t)
}

/// Whether the name is that of the suffix rule `st`, where these are `%t` and `%s`.
fn names_form(suffixes: &ByteStrings, name: &[u8], target: &[u8], source: &[u8]) -> bool
    ensures { result ≡ names_form suffixes.now name.now target.now source.now }
{
    let Some(t) = target.strip_prefix(PERCENT) else {
        return false;
    };
    match source.strip_prefix(PERCENT) {
        Some(s) => names_suffix_rule(suffixes, name, s, t),
        None => false,
    }
}

/// Whether each is just one word, the first of which names the suffix rule of this form.
fn one_names_form(
    suffixes: &ByteStrings,
    names: &LineWords,
    targets: &LineWords,
    sources: &LineWords,
) -> bool
    ensures { result ≡ one_names_form suffixes.now names.now targets.now sources.now }
{
    if !names.is_one() || !targets.is_one() || !sources.is_one() {
        return false;
    }
    match (names.first(), targets.first(), sources.first()) {
        (Some(name), Some(target), Some(source)) => names_form(suffixes, name, target, source),
        _ => false,
    }
}

/// Whether the line is that of the suffix rule of the other one's form alone.
fn is_suffix_rule_of(suffixes: &ByteStrings, line: &RuleLine, taking: &RuleLine) -> bool
    ensures { result ≡ is_suffix_rule_of suffixes.now line.now taking.now }
{
    line.may_be_suffix_rule()
        && one_names_form(
            suffixes,
            &line.targets,
            &taking.targets,
            &taking.prerequisites,
        )
}

fn takes(suffixes: &ByteStrings, line: &RuleLine, taking: &RuleLine) -> bool
    ensures { result ≡ takes suffixes.now line.now taking.now }
{
    line.is_rule()
        && (is_same_pattern(line, taking) || is_suffix_rule_of(suffixes, line, taking))
        && is_taking(taking)
}

/// Whether one of these lines takes the line away.
fn is_taken(suffixes: &ByteStrings, line: &RuleLine, taking: &[RuleLine]) -> bool
    ensures { result ≡ list_any (takes suffixes.now line.now) taking.now }
{
    taking.iter().any(|other| takes(suffixes, line, other))
}

/// The lines without those that are taken away, and those that take them.
fn left_over(
    alloc: Global,
    suffixes: &ByteStrings,
    lines: Vec<RuleLine>,
) -> Result<Vec<RuleLine>, AllocError>
    ensures { IfOk result (λ left. AreLeft suffixes.now lines.items left.items) }
{
    let mut lines = lines;
    let mut taking = Vec::new(alloc);
    let mut left = Vec::new(alloc);
    while let Some(line) = lines.pop() {
        if is_taking(&line) {
            taking.push(line)?;
        } else if !is_taken(suffixes, &line, &taking) {
            left.push(line)?;
        }
    }
    left.reverse();
    Ok(left)
}

fn any_is_taking(lines: &[RuleLine]) -> bool
    ensures { result ≡ list_any is_taking lines.now }
{
    lines.iter().any(|line| is_taking(line))
}

/// The lines that count in this profile.
#[tactic(auto, using(crate::proofs::InForceLemmas::all_left))]
pub(crate) fn in_force(
    alloc: Global,
    profile: Profile,
    lines: Vec<RuleLine>,
) -> Result<Vec<RuleLine>, AllocError>
    ensures { IfOk result (λ left. AreInForce profile lines.items left.items) }
{
    match profile {
        Profile::Strict => Ok(lines),
        Profile::Posix => {
            // Few makefiles take a rule away.
            if !any_is_taking(&lines) {
                return Ok(lines);
            }
            let suffixes = suffixes_of(alloc, &lines)?;
            left_over(alloc, &suffixes, lines)
        }
    }
}
