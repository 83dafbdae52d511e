//! Why a run has no report.

use dmk_messages::Fault;
use jb_closing::RunFault;
use std::alloc::AllocError;
use std::io;

/// Why a run has no report: it ends with status 2, or its goals are to be made in parts.
#[derive(Debug, Drop)]
pub enum Stop {
    /// Nothing was begun: the makefile, the state or the rules have a fault.
    Before(Fault),
    /// A run that called this one, and waits for it, has the state. Nothing was begun.
    HeldAbove,
    /// The file of a target that was to be taken as it is couldn't be put on the disk. Nothing was recorded.
    NotOnDisk(io::Error),
    /// The goals are to be made in turn, a part of them at once: one ends behind each goal whose mark is set. Nothing was begun.
    Parted(Vec<bool>),
    /// The state couldn't be written, or memory or a thread was refused.
    Run(RunFault),
}

impl From<AllocError> for Stop {
    ghost use Rattle.std.specs.Prelude.{◌≡◌};
    ghost use Rattle.dmk_messages.specs.declared.fault.Fault.TheVariants as faults;
    ghost use Rattle.dmk_store.specs.declared.stop.Stop.TheVariants as stops;

    ghost from_gives = { λ _ stop. stop ≡ stops.Before faults.OutOfMemory };

    fn from(_error: AllocError) -> Stop {
        Stop::Before(Fault::OutOfMemory)
    }
}
