//! Lines that tell why a target is made, as `-d` has them: `dmk: TARGET: REASON`.

use crate::event::Verdict;
use crate::targets::Targets;
use std::alloc::{AllocError, Global};

/// What such a line begins with.
pub(crate) const FRONT: &[u8] = b"dmk: ";

/// What stands between target and reason, and between reason and file.
const BETWEEN: &[u8] = b": ";

/// The reasons behind which a file is named.
const OF_FILES: [&[u8]; 4] = [b"newer", b"changed", b"gone", b"remade"];

/// What of `-dd` isn't a verdict.
const CHANGES: [&[u8]; 2] = [b"was", b"now"];

const UP_TO_DATE: &[u8] = b"up to date";

/// What is told of a target, by its number.
#[derive(Clone, Copy)]
pub(crate) struct Told<'t> {
    pub(crate) target: usize,
    pub(crate) verdict: Verdict<'t>,
}

/// Where the next place between two parts is, from this one on.
fn between(text: &[u8], from: usize) -> Option<usize> {
    for place in from..text.len() {
        if text[place..].starts_with(BETWEEN) {
            return Some(place);
        }
    }
    None
}

/// What stands in front of a place between two parts, and behind it.
fn parted(text: &[u8], place: usize) -> (&[u8], &[u8]) {
    if place <= text.len() {
        let (front, rest) = text.split_at(place);
        (front, rest.strip_prefix(BETWEEN).unwrap_or(rest))
    } else {
        (text, &[])
    }
}

/// A verdict in the words of `-d`; None where they tell something else.
fn verdict_in(words: &[u8]) -> Option<Verdict<'_>> {
    if words == UP_TO_DATE {
        return Some(Verdict::UpToDate);
    }
    if let Some(place) = between(words, 0) {
        let (reason, file) = parted(words, place);
        if CHANGES.iter().any(|label| *label == reason) {
            return None;
        }
        if OF_FILES.iter().any(|label| *label == reason) {
            return Some(Verdict::OutOfDate {
                reason,
                file: Some(file),
            });
        }
    }
    Some(Verdict::OutOfDate {
        reason: words,
        file: None,
    })
}

/// What a line tells of a target; None where it tells no verdict, or of no target.
pub(crate) fn told_in<'t>(
    alloc: Global,
    targets: &Targets,
    line: &'t [u8],
) -> Result<Option<Told<'t>>, AllocError> {
    let Some(text) = line.strip_prefix(FRONT) else {
        return Ok(None);
    };
    let mut from = 0;
    for _ in 0..text.len() {
        let Some(place) = between(text, from) else {
            break;
        };
        let (name, words) = parted(text, place);
        if let Some(target) = targets.told(alloc, name)? {
            return match verdict_in(words) {
                Some(verdict) => Ok(Some(Told { target, verdict })),
                None => Ok(None),
            };
        }
        from = place.saturating_add(1);
    }
    Ok(None)
}
