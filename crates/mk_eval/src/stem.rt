//! Patterns of static pattern rules, and the stem that stands for their `%`.
ghost use Rattle.std.specs.Prelude.{◌≡◌, ℕ, Bool, true, ◌∷◌, ◌++◌, ◌||◌, ◌&&◌, List, OnOk, IfOk, MatchOption};
ghost use Rattle.std.specs.List.{list_any};
ghost use Rattle.byte_strings.specs.Blanks.{words};
ghost use Rattle.mk_lines.specs.Text.{begins_with};
ghost use Rattle.mk_eval.specs.Static.{is_percent, has_percent, with_stem, quotes_percent, prerequisites_with, pattern_fault};

use byte_strings::next_word;
use mk_reader::{Cause, Feature, StaticCause};
use std::alloc::{AllocError, Global};

fn has_percent(word: &[u8]) -> bool
    ensures { result ≡ has_percent word.now }
{
    word.contains(&b'%')
}

fn any_has_percent(targets: &[u8]) -> bool
    ensures { result ≡ list_any has_percent (words targets.now) }
{
    let mut rest = targets;
    while let Some((word, after)) = next_word(rest) {
        if has_percent(word) {
            return true;
        }
        rest = after;
    }
    false
}

fn begins_with_percent(bytes: &[u8]) -> bool
    ensures { result ≡ begins_with 37 bytes.now }
{
    match bytes.split_first() {
        Some((byte, _)) => *byte == b'%',
        None => false,
    }
}

/// Whether a backslash stands directly before a `%`.
fn quotes_percent(word: &[u8]) -> bool
    ensures { result ≡ quotes_percent word.now }
{
    let mut rest = word;
    while let Some((byte, after)) = rest.split_first() {
        if *byte == b'\\' && begins_with_percent(after) {
            return true;
        }
        rest = after;
    }
    false
}

fn any_quotes_percent(patterns: &[u8]) -> bool
    ensures { result ≡ list_any quotes_percent (words patterns.now) }
{
    let mut rest = patterns;
    while let Some((word, after)) = next_word(rest) {
        if quotes_percent(word) {
            return true;
        }
        rest = after;
    }
    false
}

/// Why a rule is refused that has this one target pattern.
pub fn pattern_fault(targets: &[u8], pattern: &[u8], prerequisites: &[u8]) -> Option<Cause>
    ensures { result ≡ pattern_fault (words targets.now) pattern.now (words prerequisites.now) }
{
    if !has_percent(pattern) {
        return Some(Cause::Static(StaticCause::NoPercent));
    }
    if any_has_percent(targets) {
        return Some(Cause::Static(StaticCause::Mixed));
    }
    if quotes_percent(pattern) || any_quotes_percent(prerequisites) {
        return Some(Cause::Unsupported(Feature::QuotedPercent));
    }
    None
}

/// What stands for the `%` where the target is this pattern.
pub fn stem_of<'a>(pattern: &[u8], target: &'a [u8]) -> Option<&'a [u8]>
    requires { has_percent pattern.now ≡ true }
    ensures { MatchOption result ((stem : List ℕ) → target.now ≡ with_stem stem pattern.now → ⊥)
        (λ stem. target.now ≡ with_stem stem.now pattern.now) }
{
    let mut left = pattern;
    let mut rest = target;
    while let Some((byte, after)) = left.split_first() {
        if *byte == b'%' {
            return rest.strip_suffix(after);
        }
        let (first, behind) = rest.split_first()?;
        if *first != *byte {
            return None;
        }
        left = after;
        rest = behind;
    }
    None
}

/// Adds the word with the stem in place of its first `%`.
fn push_with_stem(out: &mut Vec<u8>, stem: &[u8], word: &[u8]) -> Result<(), AllocError>
    ensures { OnOk result (out.new.items ≡ out.old.items ++ with_stem stem.now word.now) }
{
    let mut rest = word;
    while let Some((byte, after)) = rest.split_first() {
        if *byte == b'%' {
            out.extend_from_slice(stem)?;
            out.extend_from_slice(after)?;
            return Ok(());
        }
        out.push(*byte)?;
        rest = after;
    }
    Ok(())
}

/// Each prerequisite pattern with the stem, behind a space.
pub fn prerequisites_with(
    alloc: Global,
    stem: &[u8],
    patterns: &[u8],
) -> Result<Vec<u8>, AllocError>
    ensures { IfOk result (λ v. v.items ≡ prerequisites_with stem.now (words patterns.now)) }
{
    let mut out = Vec::new(alloc);
    let mut rest = patterns;
    while let Some((word, after)) = next_word(rest) {
        out.push(b' ')?;
        push_with_stem(&mut out, stem, word)?;
        rest = after;
    }
    Ok(out)
}
