//! Why a statement isn't carried out.
use mk_functions::Stop;
use std::alloc::{AllocError, AllocFailed};

/// Why a statement makes nothing of the variables.
#[derive(Drop)]
pub enum Refusal {
    /// A text of the statement has no value.
    Stop(Stop),
    /// A name is empty where it is expanded.
    NoName,
}

impl From<AllocError> for Refusal {
    ghost use Rattle.std.specs.Prelude.{◌≡◌};
    ghost use Rattle.mk_functions.specs.declared.fault.Stop.TheVariants.{OutOfMemory};
    ghost use Rattle.mk_variables.specs.declared.fault.Refusal.TheVariants as refusal;

    ghost from_gives = { λ _ why. why ≡ refusal.Stop OutOfMemory };

    fn from(_error: AllocError) -> Refusal {
        Refusal::Stop(Stop::OutOfMemory)
    }
}

impl<T: Drop> From<AllocFailed<T>> for Refusal {
    ghost use Rattle.std.specs.Prelude.{◌≡◌};
    ghost use Rattle.mk_functions.specs.declared.fault.Stop.TheVariants.{OutOfMemory};
    ghost use Rattle.mk_variables.specs.declared.fault.Refusal.TheVariants as refusal;

    ghost from_gives = { λ _ why. why ≡ refusal.Stop OutOfMemory };

    fn from(_error: AllocFailed<T>) -> Refusal {
        Refusal::Stop(Stop::OutOfMemory)
    }
}

impl From<Stop> for Refusal {
    ghost use Rattle.std.specs.Prelude.{◌≡◌};
    ghost use Rattle.mk_variables.specs.declared.fault.Refusal.TheVariants as refusal;

    ghost from_gives = { λ stop why. why ≡ refusal.Stop stop };

    fn from(stop: Stop) -> Refusal {
        Refusal::Stop(stop)
    }
}
