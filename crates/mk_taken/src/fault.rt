//! Why reading ends.
use mk_conditionals::NestFault;
use mk_functions::Stop;
use mk_statements::Fault;
use mk_variables::Refusal;
use std::alloc::AllocError;

/// Why a test has no answer.
#[derive(Drop)]
pub enum NoAnswer {
    /// A text of it has no value.
    Stop(Stop),
    /// It is spelled as no test is.
    NoTest,
}

impl From<Stop> for NoAnswer {
    ghost use Rattle.std.specs.Prelude.{◌≡◌};
    ghost use Rattle.mk_taken.specs.declared.fault.NoAnswer.TheVariants as answer;

    ghost from_gives = { λ stop why. why ≡ answer.Stop stop };

    fn from(stop: Stop) -> NoAnswer {
        NoAnswer::Stop(stop)
    }
}

/// Why a line of a conditional changes nothing.
#[derive(Drop)]
pub enum Unturned {
    Test(NoAnswer),
    Misplaced(NestFault),
}

impl From<NoAnswer> for Unturned {
    ghost use Rattle.std.specs.Prelude.{◌≡◌};
    ghost use Rattle.mk_taken.specs.declared.fault.Unturned.TheVariants as unturned;

    ghost from_gives = { λ none why. why ≡ unturned.Test none };

    fn from(none: NoAnswer) -> Unturned {
        Unturned::Test(none)
    }
}

impl From<NestFault> for Unturned {
    ghost use Rattle.std.specs.Prelude.{◌≡◌};
    ghost use Rattle.mk_taken.specs.declared.fault.Unturned.TheVariants as unturned;

    ghost from_gives = { λ fault why. why ≡ unturned.Misplaced fault };

    fn from(fault: NestFault) -> Unturned {
        Unturned::Misplaced(fault)
    }
}

impl From<AllocError> for Unturned {
    ghost use Rattle.std.specs.Prelude.{◌≡◌};
    ghost use Rattle.mk_functions.specs.declared.fault.Stop.TheVariants.{OutOfMemory};
    ghost use Rattle.mk_taken.specs.declared.fault.NoAnswer.TheVariants as answer;
    ghost use Rattle.mk_taken.specs.declared.fault.Unturned.TheVariants as unturned;

    ghost from_gives = { λ _ why. why ≡ unturned.Test (answer.Stop OutOfMemory) };

    fn from(_error: AllocError) -> Unturned {
        Unturned::Test(NoAnswer::Stop(Stop::OutOfMemory))
    }
}

/// Why a statement that counts makes nothing.
#[derive(Drop)]
pub enum Why {
    Conditional(Unturned),
    Variables(Refusal),
    Line(Fault),
}

impl From<Unturned> for Why {
    ghost use Rattle.std.specs.Prelude.{◌≡◌};
    ghost use Rattle.mk_taken.specs.declared.fault.Why.TheVariants as why;

    ghost from_gives = { λ unturned it. it ≡ why.Conditional unturned };

    fn from(unturned: Unturned) -> Why {
        Why::Conditional(unturned)
    }
}

impl From<Refusal> for Why {
    ghost use Rattle.std.specs.Prelude.{◌≡◌};
    ghost use Rattle.mk_taken.specs.declared.fault.Why.TheVariants as why;

    ghost from_gives = { λ refusal it. it ≡ why.Variables refusal };

    fn from(refusal: Refusal) -> Why {
        Why::Variables(refusal)
    }
}

/// Why the statements of a text are not read to their end.
#[derive(Drop)]
pub enum Refused {
    /// The statement of this line is refused.
    At(usize, Why),
    /// Conditionals are open at the end.
    Unended(NestFault),
}
