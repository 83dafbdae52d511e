//! Why reading ends.
use mk_functions::Stop;
use mk_target_lines::Refusal;
use std::alloc::{AllocError, AllocFailed};

/// Why a line that counts ends the reading.
#[derive(Drop)]
pub enum Cause {
    /// It names targets, and comes to nothing that can be taken.
    Line(Refusal),
    /// Its text has no value.
    Text(Stop),
    /// The file of this name has to be there.
    Missing(Vec<u8>),
    /// The file of this name is included too deep.
    TooDeep(Vec<u8>),
    /// `load`
    Loads,
}

/// What is wrong with a file.
#[derive(Drop)]
pub enum Fault {
    Statements(mk_taken::Refused),
    /// The line of this number.
    At(usize, Cause),
}

/// Why a makefile isn't read to its end.
#[derive(Drop)]
pub enum Refused {
    OutOfMemory,
    /// What is wrong with the file of this name.
    In(Vec<u8>, Fault),
}

impl From<AllocError> for Refused {
    ghost use Rattle.std.specs.Prelude.{◌≡◌};
    ghost use Rattle.mk_gnu_eval.specs.declared.fault.Refused.TheVariants.{OutOfMemory};

    ghost from_gives = { λ _ refused. refused ≡ OutOfMemory };

    fn from(_error: AllocError) -> Refused {
        Refused::OutOfMemory
    }
}

impl<T: Drop> From<AllocFailed<T>> for Refused {
    ghost use Rattle.std.specs.Prelude.{◌≡◌};
    ghost use Rattle.mk_gnu_eval.specs.declared.fault.Refused.TheVariants.{OutOfMemory};

    ghost from_gives = { λ _ refused. refused ≡ OutOfMemory };

    fn from(_error: AllocFailed<T>) -> Refused {
        Refused::OutOfMemory
    }
}
