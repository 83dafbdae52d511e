//! Why a text has no value.
use mk_pieces::{Function, Refused};
use mk_words::NumberFault;
use std::alloc::{AllocError, AllocFailed};

/// A fault of a text (`specs/Outcome`).
#[derive(Drop)]
pub enum Fault {
    RefersToItself(Vec<u8>),
    NotClosed,
    TooLong,
    TooDeep(Vec<u8>),
    TooFew(Function),
    Miscounts(Function, NumberFault),
    Told(Vec<u8>),
    Refuses(Refused),
    NotCalled(Function),
}

/// Why an expansion ends without a value. The first two say nothing of the text.
#[derive(Drop)]
pub enum Stop {
    OutOfMemory,
    /// The text has more pieces than are looked at.
    TakesTooLong,
    Fault(Fault),
}

impl From<AllocError> for Stop {
    ghost use Rattle.std.specs.Prelude.{◌≡◌};
    ghost use Rattle.mk_functions.specs.declared.fault.Stop.TheVariants.{OutOfMemory};

    ghost from_gives = { λ _ stop. stop ≡ OutOfMemory };

    fn from(_error: AllocError) -> Stop {
        Stop::OutOfMemory
    }
}

impl<T: Drop> From<AllocFailed<T>> for Stop {
    ghost use Rattle.std.specs.Prelude.{◌≡◌};
    ghost use Rattle.mk_functions.specs.declared.fault.Stop.TheVariants.{OutOfMemory};

    ghost from_gives = { λ _ stop. stop ≡ OutOfMemory };

    fn from(_error: AllocFailed<T>) -> Stop {
        Stop::OutOfMemory
    }
}
