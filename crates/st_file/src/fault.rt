//! Why a side, or a pair of sides, can't be read.

ghost use Rattle.std.specs.Prelude.{◌≡◌, ℕ, List, Some, IfSome};
ghost use Rattle.st_file.specs.Side.{IsRefused, IsOfSide};
ghost use Rattle.st_file.specs.declared.fault.OpenFault.TheVariants.{OutOfMemory, Device};

use st_disk::{DeviceFault, Which};
use std::alloc::{AllocError, AllocFailed};
use thiserror::Error;

/// Why the state can't be opened. A fault of one side names that side.
#[derive(Clone, Copy, Debug, PartialEq, Eq, Error)]
pub enum OpenFault {
    /// The side isn't void and doesn't begin as a state file does.
    #[error("not a state file")]
    NotState(Which),
    /// The side has a version that isn't known here.
    #[error("unknown version {1}")]
    UnknownVersion(Which, u16),
    /// Nothing that may stand at this offset can be read there.
    #[error("damaged at byte {1}")]
    Damaged(Which, u64),
    /// The side couldn't be read from its device. Bytes in memory never have this fault.
    #[error("device fault")]
    Device,
    /// There was no memory for the records.
    #[error("out of memory")]
    OutOfMemory,
    /// Both sides hold records and have one generation.
    #[error("both sides have one generation")]
    SameGeneration,
}

impl OpenFault {
    /// The side whose bytes have the fault, which messages name. The others are of the machine, or of both sides together.
    pub fn damaged_side(self) -> Option<Which>
        ensures found { IfSome result (λ side. IsOfSide side self) }
        ensures only { (side : Which) → IsOfSide side self → result ≡ Some side }
        // Whatever bytes are refused with the fault, it is their side.
        ensures refused { (side : Which) (x : List ℕ) → IsRefused side x self → result ≡ Some side }
    {
        match self {
            OpenFault::NotState(side) => Some(side),
            OpenFault::UnknownVersion(side, _) => Some(side),
            OpenFault::Damaged(side, _) => Some(side),
            OpenFault::Device => None,
            OpenFault::OutOfMemory => None,
            OpenFault::SameGeneration => None,
        }
    }
}

impl From<AllocError> for OpenFault {
    ghost from_gives = { λ _ e. e ≡ OutOfMemory };

    fn from(_fault: AllocError) -> OpenFault {
        OpenFault::OutOfMemory
    }
}

impl<T: Drop> From<AllocFailed<T>> for OpenFault {
    ghost from_gives = { λ _ e. e ≡ OutOfMemory };

    fn from(_fault: AllocFailed<T>) -> OpenFault {
        OpenFault::OutOfMemory
    }
}

impl From<DeviceFault> for OpenFault {
    ghost from_gives = { λ _ e. e ≡ Device };

    fn from(_fault: DeviceFault) -> OpenFault {
        OpenFault::Device
    }
}
