//! Recipes that ran beside each other, in lanes.

ghost use Rattle.std.specs.Prelude.{◌≡◌, ◌≢◌, ℕ, ◌+◌, ◌<◌, ◌≤◌, IfOk, OnOk, length, slice_index, vec_len, max};
ghost use Rattle.bl_log.specs.Lanes.{AreLanes};

use crate::span::Span;
use std::alloc::{AllocError, Global};

/// A lane for each recipe, so that those of one lane ran one after the other: the first that is free as it begins. Where they are in
/// the order in which they began, no fewer lanes would do.
pub fn lanes(alloc: Global, spans: &[Span]) -> Result<Vec<usize>, AllocError>
    ensures { IfOk result (λ lanes. AreLanes spans.now lanes.items) }
{
    let mut lanes = Vec::with_capacity(alloc, spans.len())?;
    let mut free_from = Vec::new(alloc);
    for number in 0..spans.len() {
        let span = spans[number];
        let lane = free_lane(&free_from, span.begin);
        take_lane(&mut free_from, lane, span.end)?;
        lanes.push(lane)?;
    }
    Ok(lanes)
}

/// The first lane that is free at a time, where each is free from a time on; or one more.
fn free_lane(free_from: &[u64], time: u64) -> usize
    ensures within { result ≤ length free_from.now }
    ensures taken { (lane : ℕ) → lane < result → time < slice_index free_from.now lane }
    ensures free { result < length free_from.now → slice_index free_from.now result ≤ time }
{
    for (lane, free) in free_from.iter().enumerate() {
        if *free <= time {
            return lane;
        }
    }
    free_from.len()
}

/// The lane, which may be one more, is free from this time on.
fn take_lane(free_from: &mut Vec<u64>, lane: usize, time: u64) -> Result<(), AllocError>
    requires { lane ≤ vec_len free_from.old }
    ensures count { OnOk result (vec_len free_from.new ≡ max (vec_len free_from.old) (lane + 1)) }
    ensures taken { OnOk result (slice_index free_from.new.items lane ≡ time) }
    ensures others { OnOk result ((other : ℕ) → other ≢ lane → slice_index free_from.new.items other ≡ slice_index free_from.old.items other) }
{
    if lane < free_from.len() {
        free_from[lane] = time;
        return Ok(());
    }
    free_from.push(time)?;
    Ok(())
}
