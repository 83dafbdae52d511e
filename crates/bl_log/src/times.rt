//! How long recipes took.

ghost use Rattle.std.specs.Prelude.{◌≡◌, ◌<◌, ◌^◌, IfOk, SomeIff, sum_by, IsPermutation};
ghost use Rattle.std.specs.List.Sorted.{IsNonDecreasingBy};
ghost use Rattle.bl_log.specs.Spans.{time, ranked_from, shorter};

use crate::span::Span;
use std::alloc::{AllocError, Global};

/// A recipe by its number, with its time in nanoseconds.
#[derive(Clone, Copy, Debug, Drop)]
pub struct Ranked {
    pub number: usize,
    pub time: u64,
}

/// How long all of them ran, one time added to the other, in nanoseconds. None where no u64 has as much.
pub fn busy(spans: &[Span]) -> Option<u64>
    ensures { SomeIff result (sum_by time spans.now < 2 ^ 64) (sum_by time spans.now) }
{
    let mut sum: u64 = 0;
    for span in spans {
        sum = sum.checked_add(span.time())?;
    }
    Some(sum)
}

/// All of them, the longest first; of two that took as long the one that stands first.
pub fn by_time(alloc: Global, spans: &[Span]) -> Result<Vec<Ranked>, AllocError>
    ensures all { IfOk result (λ v. IsPermutation (ranked_from 0 spans.now) v.items) }
    ensures order { IfOk result (λ v. IsNonDecreasingBy shorter v.items) }
{
    let mut all = numbered(alloc, spans)?;
    all.sort_by_key(|ranked| u64::MAX - ranked.time)?;
    Ok(all)
}

fn numbered(alloc: Global, spans: &[Span]) -> Result<Vec<Ranked>, AllocError>
    ensures { IfOk result (λ v. v.items ≡ ranked_from 0 spans.now) }
{
    let mut all = Vec::with_capacity(alloc, spans.len())?;
    for number in 0..spans.len() {
        all.push(Ranked {
            number,
            time: spans[number].time(),
        })?;
    }
    Ok(all)
}
