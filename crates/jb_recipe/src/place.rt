//! The files of targets, beside what recipes do to them.
ghost use Rattle.std.specs.Prelude.{ℕ, List, ◌∷◌, OnOk};
ghost use Rattle.std.specs.List.{AllByRecursion};

use crate::{Stopped, Turn};
use byte_strings::ByteStrings;
use jb_marks::Sights;
use std::alloc::{AllocError, Global};
use std::io;
use thiserror::Error;

/// A report couldn't be read, or a target's file couldn't be put on the disk.
#[derive(Clone, Copy, Debug, Error)]
pub enum PlaceFault {
    #[error("out of memory")]
    OutOfMemory,
    /// The system refused it, by this error.
    #[error("{0}")]
    Device(io::Error),
}

impl From<AllocError> for PlaceFault {
    ghost use Rattle.std.specs.Prelude.{◌≡◌};
    ghost use Rattle.jb_recipe.specs.declared.place.PlaceFault.TheVariants.{OutOfMemory};

    ghost from_gives = { λ _ fault. fault ≡ OutOfMemory };

    fn from(_error: AllocError) -> PlaceFault {
        PlaceFault::OutOfMemory
    }
}

/// Where reports are written and targets are made, and where files are looked at. Nothing is claimed of it but which calls were made:
/// what files hold is outside every proof.
pub trait Place: Sights {
    /// Nothing is left under this name: a fact that only a call of `remove` gives.
    ghost gone: { Self → List ℕ → Type 0 };

    /// What stands under this name is on the disk as it was when a call began: a fact that only a call of `sync` gives.
    ghost synced: { Self → List ℕ → Type 0 };

    /// Waits until a recipe may be run so, and tells whether it had to. From then on it counts as one that runs, until it leaves. Where
    /// memory is wanted it doesn't.
    fn enter(&self, turn: Turn) -> Result<bool, AllocError>;

    /// A recipe that entered so has ended.
    fn leave(&self, turn: Turn);

    /// Removes a report, or a target's file. One that isn't there is passed over; a folder can't be removed.
    fn remove(&self, path: &[u8]) -> io::Result<()>
        ensures { OnOk result (gone self.now path.now) };

    /// The bytes of a report; None where there is no report.
    fn report(&self, alloc: Global, path: &[u8]) -> Result<Option<Vec<u8>>, PlaceFault>;

    /// Why the last line that this worker ran was stopped or not started, where that is known. It is told once.
    fn stopped(&self) -> Option<Stopped>;

    /// When a target's file was last changed, in nanoseconds since 1970; None where there is no ordinary file.
    fn stamp(&self, target: &[u8]) -> Option<i128>;

    /// A recipe of this target begins, whose lines this thread runs. Where `goes`, the target's file is to be removed if the run is stopped
    /// from outside before the recipe has ended and has changed it.
    fn begins(&self, _target: &[u8], _goes: bool) {}

    /// The recipe whose lines this thread runs has ended.
    fn ends(&self) {}

    /// Waits, some milliseconds at most, until the clock by which files are stamped has passed what was this tick a moment ago: what is
    /// changed behind that is told from what was changed before.
    fn pass_tick(&self, tick: i128);

    /// Puts a target's file on the disk, and its folder, before its 'done' is written. What isn't there or can't be opened is
    /// passed over: many targets are no files.
    fn sync(&self, target: &[u8]) -> Result<(), PlaceFault>
        ensures { OnOk result (synced self.now target.now) };
}

/// Puts a target's file on the disk, and those that its recipe makes beside it.
pub fn sync_made<P: Place>(place: &P, target: &[u8], others: &ByteStrings) -> Result<(), PlaceFault>
    ensures { OnOk result (AllByRecursion (P.synced place.now) (target.now ∷ others.now)) }
{
    place.sync(target)?;
    for other in others {
        place.sync(other)?;
    }
    Ok(())
}
