// Why a text has no expansion.
ghost use Rattle.std.specs.Prelude.{◌≡◌};
ghost use Rattle.mk_macros.specs.Expansion.{limit};
ghost use Rattle.mk_profile.specs.Profile.{is_wide};

use byte_strings::ByteString;
use mk_profile::Profile;
use std::alloc::{AllocError, AllocFailed};
use thiserror::Error;

/// The most bytes that a text or the value of a macro may grow to in the strict profile.
pub const MAX_EXPANSION_BYTES: usize = 1_048_576;

/// The same in the wide profile.
pub const MAX_WIDE_EXPANSION_BYTES: usize = 67_108_864;

/// The most bytes in this language.
pub(crate) fn most_bytes(profile: Profile) -> usize
    ensures { result ≡ limit (is_wide profile) }
{
    if profile.is_wide() {
        MAX_WIDE_EXPANSION_BYTES
    } else {
        MAX_EXPANSION_BYTES
    }
}

/// The first fault that a reading from the left meets. `OutOfMemory` alone says nothing of the text.
#[derive(Debug, Drop, PartialEq, Eq, Error)]
pub enum MacroFault {
    #[error("out of memory")]
    OutOfMemory,
    #[error("macro {0} refers to itself")]
    Loop(ByteString),
    #[error("macro reference not closed")]
    Unclosed,
    #[error("nested macro reference")]
    NestedReference,
    /// Over `MAX_EXPANSION_BYTES`, or `MAX_WIDE_EXPANSION_BYTES`, in the result or in a value on the way.
    #[error("expansion too long")]
    TooLong,
    /// In the wide profile, a reference that spells this function of GNU make and is no macro.
    #[error("not supported: $({0} ..)")]
    Function(ByteString),
}

impl From<AllocError> for MacroFault {
    ghost use Rattle.std.specs.Prelude.{◌≡◌};
    ghost use Rattle.mk_macros.specs.declared.fault.MacroFault.TheVariants.{OutOfMemory};

    ghost from_gives = { λ _ fault. fault ≡ OutOfMemory };

    fn from(_error: AllocError) -> MacroFault {
        MacroFault::OutOfMemory
    }
}

impl<T: Drop> From<AllocFailed<T>> for MacroFault {
    ghost use Rattle.std.specs.Prelude.{◌≡◌};
    ghost use Rattle.mk_macros.specs.declared.fault.MacroFault.TheVariants.{OutOfMemory};

    ghost from_gives = { λ _ fault. fault ≡ OutOfMemory };

    fn from(_error: AllocFailed<T>) -> MacroFault {
        MacroFault::OutOfMemory
    }
}
