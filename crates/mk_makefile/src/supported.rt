//! Which rule lines are refused.
ghost use Rattle.std.specs.Prelude.{◌≡◌, ◌||◌, not, ℕ, Some, MatchOption, OnOk, IfErr, IsTrue, slice_get};
ghost use Rattle.mk_makefile.specs.Supported.{IsRefused, IsSupported, AreSupported, IsRefusal};
ghost use Rattle.mk_rule_lines.specs.Patterns.{has_slash};
ghost use Rattle.mk_makefile.specs.Tests.{is_pattern, is_one_pattern, begins_with_pattern, may_be_made, may_make, is_whole_pattern_rule, is_alone, is_whole_default, has_bracket, is_implicit_target, is_refused};
ghost use Rattle.std.specs.List.{list_all, list_any};
ghost use Rattle.mk_lines.specs.Text.{begins_with};

use mk_profile::Profile;
use mk_rule_lines::{
    LineWords, RuleFault, RuleLine, Unsupported, has_percent, has_slash, is_default_rule,
};

fn is_pattern(name: &[u8]) -> bool
    ensures { result ≡ is_pattern name.now }
{
    name.iter().filter(|b| **b == b'%').count() == 1
}

fn any_is_pattern(names: &LineWords) -> bool
    ensures { result ≡ list_any is_pattern names.now }
{
    names.iter().any(|name| is_pattern(name))
}

pub(crate) fn is_one_pattern(names: &LineWords) -> bool
    ensures { result ≡ is_one_pattern names.now }
{
    names.is_one() && any_is_pattern(names)
}

fn all_are_patterns(names: &LineWords) -> bool
    ensures { result ≡ list_all is_pattern names.now }
{
    names.iter().all(|name| is_pattern(name))
}

fn all_have_slashes(names: &LineWords) -> bool
    ensures { result ≡ list_all has_slash names.now }
{
    names.iter().all(|name| has_slash(name))
}

fn any_has_slash(names: &LineWords) -> bool
    ensures { result ≡ list_any has_slash names.now }
{
    names.iter().any(|name| has_slash(name))
}

/// Whether each of the names has a `/`, or none has.
fn have_slashes_alike(names: &LineWords) -> bool
    ensures { result ≡ (list_all has_slash names.now || not (list_any has_slash names.now)) }
{
    all_have_slashes(names) || !any_has_slash(names)
}

/// Whether these may be the targets of a pattern rule.
fn may_be_made(profile: Profile, targets: &LineWords) -> bool
    ensures { result ≡ may_be_made profile targets.now }
{
    match profile {
        Profile::Strict => is_one_pattern(targets),
        Profile::Posix => all_are_patterns(targets) && have_slashes_alike(targets),
    }
}

fn any_has_bracket(names: &LineWords) -> bool
    ensures { result ≡ list_any has_bracket names.now }
{
    names.has_byte(b'(')
}

fn begins_with_dot(name: &[u8]) -> bool
    ensures { result ≡ begins_with 46 name.now }
{
    match name.split_first() {
        Some((first, _)) => *first == b'.',
        None => false,
    }
}

/// Whether a target is that of an implicit rule, or may be.
fn is_implicit_target(name: &[u8]) -> bool
    ensures { result ≡ is_implicit_target name.now }
{
    has_percent(name) || (begins_with_dot(name) && !has_slash(name))
}

fn any_is_implicit_target(names: &LineWords) -> bool
    ensures { result ≡ list_any is_implicit_target names.now }
{
    names.iter().any(|name| is_implicit_target(name))
}

/// Whether the first of these names has a `%`.
fn begins_with_pattern(names: &LineWords) -> bool
    ensures { result ≡ begins_with_pattern names.now }
{
    match names.first() {
        Some(first) => has_percent(first),
        None => false,
    }
}

/// Whether a pattern rule with these targets may be made from these.
fn may_make(profile: Profile, targets: &LineWords, prerequisites: &LineWords) -> bool
    ensures { result ≡ may_make profile targets.now prerequisites.now }
{
    match profile {
        Profile::Strict => is_one_pattern(prerequisites),
        Profile::Posix => {
            !prerequisites.has(b".WAIT")
                && (!targets.has(b"%") || begins_with_pattern(prerequisites))
        }
    }
}

fn is_whole_pattern_rule(line: &RuleLine) -> bool
    ensures { result ≡ is_whole_pattern_rule line.now }
{
    may_be_made(line.profile, &line.targets)
        && may_make(line.profile, &line.targets, &line.prerequisites)
        && line.has_recipe()
}

/// Whether this name is the only one.
fn is_alone(name: &[u8], names: &LineWords) -> bool
    ensures { result ≡ is_alone name.now names.now }
{
    names.is_one() && names.has(name)
}

/// Whether the line of `.DEFAULT` names nothing else, has no prerequisites, and has a recipe.
fn is_whole_default(line: &RuleLine) -> bool
    ensures { result ≡ is_whole_default line.now }
{
    is_alone(b".DEFAULT", &line.targets) && line.may_be_suffix_rule()
}

fn is_refused(what: Unsupported, line: &RuleLine) -> bool
    ensures { result ≡ is_refused what line.now }
{
    match what {
        Unsupported::TargetGroup => line.is_rule() && line.targets.has(b"+"),
        Unsupported::LibraryMember => {
            line.is_rule()
                && (any_has_bracket(&line.targets) || any_has_bracket(&line.prerequisites))
        }
        Unsupported::DoubleColon => {
            line.is_rule() && line.is_double && any_is_implicit_target(&line.targets)
        }
        Unsupported::PatternRule => line.is_pattern_rule() && !is_whole_pattern_rule(line),
        Unsupported::DefaultRule => is_default_rule(line.special) && !is_whole_default(line),
    }
}

/// Whether it is told by a look at the bytes of the line that it isn't refused, as of most lines.
#[tactic(auto, using(crate::proofs::SupportedLemmas::plain_supported))]
fn is_plain(line: &RuleLine) -> bool
    ensures { IsTrue result → IsSupported line.now }
{
    line.is_rule()
        && !line.is_double
        && !line.targets.may_have_sign()
        && !any_has_bracket(&line.prerequisites)
}

/// Why the line is refused, if it is.
fn refusal(line: &RuleLine) -> Option<Unsupported>
    ensures { MatchOption result (IsSupported line.now) (λ what. IsRefused what line.now) }
{
    if is_plain(line) {
        return None;
    }
    if is_refused(Unsupported::TargetGroup, line) {
        return Some(Unsupported::TargetGroup);
    }
    if is_refused(Unsupported::LibraryMember, line) {
        return Some(Unsupported::LibraryMember);
    }
    if is_refused(Unsupported::DoubleColon, line) {
        return Some(Unsupported::DoubleColon);
    }
    if is_refused(Unsupported::PatternRule, line) {
        return Some(Unsupported::PatternRule);
    }
    if is_refused(Unsupported::DefaultRule, line) {
        return Some(Unsupported::DefaultRule);
    }
    None
}

/// Refuses lines that hold what isn't supported.
pub(crate) fn check_lines(lines: &[RuleLine]) -> Result<(), RuleFault>
    ensures supported { OnOk result (AreSupported lines.now) }
    ensures fault { IfErr result (IsRefusal lines.now) }
{
    for line in lines {
        if let Some(what) = refusal(line) {
            return Err(RuleFault::Unsupported(what, line.line as usize));
        }
    }
    Ok(())
}
