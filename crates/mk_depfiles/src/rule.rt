//! What a line names.
ghost use Rattle.std.specs.Prelude.{◌≡◌, ◌++◌, true, false, Ok, Err, IfOk, OnOk, MatchOption};
ghost use Rattle.mk_depfiles.specs.Gathering.{Adds};
ghost use Rattle.mk_depfiles.specs.Rule.{ends_in_colon, without_last, behind_targets, named, line_names};

use crate::lines::begins_with;
use crate::refusal::Cause;
use crate::words::words;
use byte_strings::{ByteStrings, Iter, trim_start};
use std::alloc::{AllocError, Global};

/// What stands before a colon at the end of a word, if one stands there.
fn before_colon(word: &[u8]) -> Option<&[u8]>
    ensures { MatchOption result (ends_in_colon word.now ≡ false)
        (λ target. (ends_in_colon word.now ≡ true) × (target.now ≡ without_last word.now)) }
{
    match word.split_last() {
        Some((b':', target)) => Some(target),
        _ => None,
    }
}

/// The words behind the first one that a colon ends.
fn behind_targets(words: Iter<'_>) -> Result<Iter<'_>, Cause>
    ensures { result ≡ behind_targets false words.entry }
{
    let mut has_target = false;
    let mut left = words;
    while let Some(word) = left.next() {
        if let Some(target) = before_colon(word) {
            if has_target || !target.is_empty() {
                return Ok(left);
            }
            return Err(Cause::NoTarget);
        }
        has_target = true;
    }
    Err(Cause::NoColon)
}

/// What a line of these words names.
fn named(words: &ByteStrings) -> Result<Iter<'_>, Cause>
    ensures { result ≡ named words.now }
{
    if words.is_empty() {
        return Ok(Iter::empty());
    }
    behind_targets(words.iter())
}

fn push_all(names: &mut ByteStrings, added: Iter<'_>) -> Result<(), AllocError>
    ensures { OnOk result (names.new ≡ names.old ++ added.entry) }
{
    for name in added {
        names.push(name)?;
    }
    Ok(())
}

fn push_named(names: &mut ByteStrings, words: &ByteStrings) -> Result<Option<Cause>, AllocError>
    ensures { IfOk result (Adds (named words.now) names.old names.new) }
{
    match named(words) {
        Err(cause) => Ok(Some(cause)),
        Ok(added) => {
            push_all(names, added)?;
            Ok(None)
        }
    }
}

/// Adds what a line names, or says why it isn't in this form.
pub fn push_line(
    alloc: Global,
    names: &mut ByteStrings,
    line: &[u8],
) -> Result<Option<Cause>, AllocError>
    ensures { IfOk result (Adds (line_names line.now) names.old names.new) }
{
    if begins_with(line, b'\t') {
        return Ok(Some(Cause::RecipeLine));
    }
    if begins_with(trim_start(line), b'#') {
        return Ok(None);
    }
    match words(alloc, line)? {
        Err(cause) => Ok(Some(cause)),
        Ok(found) => push_named(names, &found),
    }
}
