//! Why a line comes to nothing that can be taken.
use mk_functions::Stop;
use std::alloc::{AllocError, AllocFailed};

/// What is wrong with the text of a line.
#[derive(Clone, Copy, Debug, PartialEq, Eq)]
pub enum Fault {
    /// It has text, and no colon.
    MissingSeparator,
    /// Nothing stands between the colons of a static pattern rule.
    MissingTargetPattern,
    MultipleTargetPatterns,
    TargetPatternWithoutPercent,
    /// `define` or `undefine` for targets.
    MalformedDefinition,
    /// A static pattern rule has patterns for targets.
    MixedWithStatic,
    /// Behind a pattern stands a target that is none.
    MixedWithNormal,
}

/// Why a line is refused.
#[derive(Drop)]
pub enum Refusal {
    /// A text of it has no value.
    Stop(Stop),
    Fault(Fault),
}

impl From<AllocError> for Refusal {
    ghost use Rattle.std.specs.Prelude.{◌≡◌};
    ghost use Rattle.mk_functions.specs.declared.fault.Stop.TheVariants.{OutOfMemory};
    ghost use Rattle.mk_target_lines.specs.declared.fault.Refusal.TheVariants as refusal;

    ghost from_gives = { λ _ why. why ≡ refusal.Stop OutOfMemory };

    fn from(_error: AllocError) -> Refusal {
        Refusal::Stop(Stop::OutOfMemory)
    }
}

impl<T: Drop> From<AllocFailed<T>> for Refusal {
    ghost use Rattle.std.specs.Prelude.{◌≡◌};
    ghost use Rattle.mk_functions.specs.declared.fault.Stop.TheVariants.{OutOfMemory};
    ghost use Rattle.mk_target_lines.specs.declared.fault.Refusal.TheVariants as refusal;

    ghost from_gives = { λ _ why. why ≡ refusal.Stop OutOfMemory };

    fn from(_error: AllocFailed<T>) -> Refusal {
        Refusal::Stop(Stop::OutOfMemory)
    }
}

impl From<Stop> for Refusal {
    ghost use Rattle.std.specs.Prelude.{◌≡◌};
    ghost use Rattle.mk_target_lines.specs.declared.fault.Refusal.TheVariants as refusal;

    ghost from_gives = { λ stop why. why ≡ refusal.Stop stop };

    fn from(stop: Stop) -> Refusal {
        Refusal::Stop(stop)
    }
}

impl From<Fault> for Refusal {
    ghost use Rattle.std.specs.Prelude.{◌≡◌};
    ghost use Rattle.mk_target_lines.specs.declared.fault.Refusal.TheVariants as refusal;

    ghost from_gives = { λ fault why. why ≡ refusal.Fault fault };

    fn from(fault: Fault) -> Refusal {
        Refusal::Fault(fault)
    }
}
