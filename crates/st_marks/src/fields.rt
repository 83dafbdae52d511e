//! The parts of a text, each read from the front of some bytes.

ghost use Rattle.std.specs.Prelude.{◌≡◌, Ok};
ghost use Rattle.std.specs.Option.{option_copied};
ghost use Rattle.st_records.specs.Reading.{number_at, string_at};
ghost use Rattle.st_marks.specs.Reading.{Finds, source_at, time_at, stamp_at, mark_at};

use crate::mark::{Mark, Stamp};

pub(crate) fn number_of(bytes: &[u8]) -> Option<(u32, &[u8])>
    ensures { Finds (λ x. (x.0, x.1.now)) result (number_at bytes.now) }
{
    if bytes.len() < 4 {
        return None;
    }
    let (front, rest) = bytes.split_at(4);
    let number = u32::from_le_bytes([front[0], front[1], front[2], front[3]]);
    Some((number, rest))
}

#[tactic(auto, using(crate::proofs::FaultLemmas::then_fails), unfolding(st_records::specs::Reading::string_at))]
fn string_of(bytes: &[u8]) -> Option<(&[u8], &[u8])>
    ensures { Finds (λ x. (x.0.now, x.1.now)) result (string_at bytes.now) }
{
    let (len, rest) = number_of(bytes)?;
    let len = len as usize;
    if rest.len() < len {
        return None;
    }
    Some(rest.split_at(len))
}

/// The name of the source, if there is one.
#[tactic(auto, using(crate::proofs::FaultLemmas::then_fails), unfolding(crate::specs::Reading::source_at))]
pub(crate) fn source_of(bytes: &[u8]) -> Option<(Option<&[u8]>, &[u8])>
    ensures { Finds (λ x. (option_copied x.0, x.1.now)) result (source_at bytes.now) }
{
    match bytes {
        [] => None,
        [0, rest @ ..] => Some((None, rest)),
        [1, rest @ ..] => {
            let (name, rest) = string_of(rest)?;
            Some((Some(name), rest))
        }
        [_, ..] => None,
    }
}

fn time_of(bytes: &[u8]) -> Option<(i64, &[u8])>
    ensures { Finds (λ x. (x.0, x.1.now)) result (time_at bytes.now) }
{
    if bytes.len() < 8 {
        return None;
    }
    let (front, rest) = bytes.split_at(8);
    let time = i64::from_le_bytes([
        front[0], front[1], front[2], front[3], front[4], front[5], front[6], front[7],
    ]);
    Some((time, rest))
}

#[tactic(auto, using(crate::proofs::FaultLemmas::then_fails), unfolding(crate::specs::Reading::stamp_at))]
fn stamp_of(bytes: &[u8]) -> Option<(Stamp, &[u8])>
    ensures { Finds (λ x. (x.0, x.1.now)) result (stamp_at bytes.now) }
{
    let (time, rest) = time_of(bytes)?;
    let (size, rest) = number_of(rest)?;
    Some((Stamp { time, size }, rest))
}

#[tactic(auto, using(crate::proofs::FaultLemmas::then_fails), unfolding(crate::specs::Reading::mark_at))]
pub(crate) fn mark_of(bytes: &[u8]) -> Option<(Mark, &[u8])>
    ensures { Finds (λ x. (x.0, x.1.now)) result (mark_at bytes.now) }
{
    match bytes {
        [] => None,
        [0, rest @ ..] => Some((Mark::Unknown, rest)),
        [1, rest @ ..] => Some((Mark::NoFile, rest)),
        [2, rest @ ..] => Some((Mark::Other, rest)),
        [3, rest @ ..] => {
            let (stamp, rest) = stamp_of(rest)?;
            Some((Mark::File(stamp), rest))
        }
        [4, rest @ ..] => {
            let (stamp, rest) = stamp_of(rest)?;
            Some((Mark::Own(stamp), rest))
        }
        [_, ..] => None,
    }
}
