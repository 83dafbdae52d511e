//! Why a recipe has no lines.
use mk_rule_lines::TextFault;
use std::alloc::{AllocError, AllocFailed};
use thiserror::Error;

#[derive(Debug, Drop, Error)]
pub enum RecipeFault {
    #[error("out of memory")]
    OutOfMemory,
    /// A line of it has no expansion.
    #[error("{0}")]
    Macro(TextFault),
}

impl From<AllocError> for RecipeFault {
    ghost use Rattle.std.specs.Prelude.{◌≡◌};
    ghost use Rattle.mk_plan.specs.declared.fault.RecipeFault.TheVariants.{OutOfMemory};

    ghost from_gives = { λ _ fault. fault ≡ OutOfMemory };

    fn from(_error: AllocError) -> RecipeFault {
        RecipeFault::OutOfMemory
    }
}

impl<T: Drop> From<AllocFailed<T>> for RecipeFault {
    ghost use Rattle.std.specs.Prelude.{◌≡◌};
    ghost use Rattle.mk_plan.specs.declared.fault.RecipeFault.TheVariants.{OutOfMemory};

    ghost from_gives = { λ _ fault. fault ≡ OutOfMemory };

    fn from(_error: AllocFailed<T>) -> RecipeFault {
        RecipeFault::OutOfMemory
    }
}
