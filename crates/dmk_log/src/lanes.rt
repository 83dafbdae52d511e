//! Which worker runs the recipe of which target: a recipe has the lowest number that is free when it begins.
ghost use Rattle.std.specs.Prelude.{◌≡◌, ◌≢◌, ℕ, ◌<◌, ◌≤◌, None, Some, IfOk, IfNone, IfSome, vec_len};
ghost use Rattle.dmk_log.specs.Lanes.{IsLowestFree, runs_in};

use byte_strings::ByteString;
use std::alloc::{AllocError, Global};

/// The targets whose recipes run, each by its worker's number.
#[derive(Drop)]
pub(crate) struct Lanes {
    lanes: Vec<Option<ByteString>>,
}

impl Lanes {
    pub(crate) fn none(alloc: Global) -> Lanes {
        Lanes {
            lanes: Vec::new(alloc),
        }
    }

    fn first_free(&self) -> usize
        ensures lowest { IsLowestFree self.now.lanes.items result }
        ensures within { result ≤ vec_len self.now.lanes }
    {
        for (lane, taken) in self.lanes.iter().enumerate() {
            if taken.is_none() {
                return lane;
            }
        }
        self.lanes.len()
    }

    /// A recipe begins.
    pub(crate) fn begin(&mut self, alloc: Global, target: &[u8]) -> Result<usize, AllocError>
        ensures lowest { IfOk result (IsLowestFree self.old.lanes.items) }
        ensures taken { IfOk result (λ lane. runs_in self.new.lanes.items lane ≡ Some target.now) }
        ensures others { IfOk result (λ lane. (other : ℕ) → other ≢ lane
            → runs_in self.new.lanes.items other ≡ runs_in self.old.lanes.items other) }
    {
        let target = ByteString::from_slice(alloc, target)?;
        let lane = self.first_free();
        if lane < self.lanes.len() {
            self.lanes[lane] = Some(target);
        } else {
            self.lanes.push(Some(target))?;
        }
        Ok(lane)
    }

    /// Who runs the recipe of this target.
    fn lane_of(&self, target: &[u8]) -> Option<usize>
        ensures within { IfSome result (λ lane. lane < vec_len self.now.lanes) }
        ensures runs { IfSome result (λ lane. runs_in self.now.lanes.items lane ≡ Some target.now) }
        ensures none { IfNone result ((lane : ℕ) → runs_in self.now.lanes.items lane ≢ Some target.now) }
    {
        for (lane, taken) in self.lanes.iter().enumerate() {
            if let Some(name) = taken {
                if name.as_slice() == target {
                    return Some(lane);
                }
            }
        }
        None
    }

    /// It has ended: who ran it is free again. None where it wasn't begun.
    pub(crate) fn end(&mut self, target: &[u8]) -> Option<usize>
        ensures ran { IfSome result (λ lane. runs_in self.old.lanes.items lane ≡ Some target.now) }
        ensures free { IfSome result (λ lane. runs_in self.new.lanes.items lane ≡ None) }
        ensures others { IfSome result (λ lane. (other : ℕ) → other ≢ lane
            → runs_in self.new.lanes.items other ≡ runs_in self.old.lanes.items other) }
        ensures none { IfNone result ((lane : ℕ) → runs_in self.old.lanes.items lane ≢ Some target.now) }
    {
        let lane = self.lane_of(target)?;
        self.lanes[lane] = None;
        Some(lane)
    }
}
