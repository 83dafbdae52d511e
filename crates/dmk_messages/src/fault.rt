//! Why a run ends before it prints or answers what was asked for. The order is that in which faults are looked for.
ghost use Rattle.std.specs.Prelude.{◌≡◌};
ghost use Rattle.dmk_messages.specs.Messages.{is_of_memory};
ghost use Rattle.dmk_messages.specs.declared.fault.Fault.TheVariants.{OutOfMemory, State};

use mk_plan::RecipeFault;
use mk_reader::ReadFault;
use mk_rule_lines::RuleFault;
use st_file::OpenFault;
use std::alloc::AllocError;
use std::error::Error;
use std::fmt;

#[derive(Debug, Drop)]
pub enum Fault {
    /// Outside the order: it may come at any place where memory is wanted.
    OutOfMemory,
    NoMakefile,
    Read(ReadFault),
    /// Of the state's two sides.
    State(OpenFault),
    Rules(RuleFault),
    /// In a line of a recipe.
    Recipe(RecipeFault),
    /// The listing couldn't be written, or not all of it.
    Write,
}

impl Fault {
    /// Memory was wanted, in whichever stage.
    pub fn is_of_memory(&self) -> bool
        ensures { result ≡ is_of_memory self.now }
    {
        match self {
            Fault::OutOfMemory => true,
            Fault::NoMakefile => false,
            Fault::Read(fault) => matches!(fault, ReadFault::OutOfMemory),
            Fault::State(fault) => matches!(fault, OpenFault::OutOfMemory),
            Fault::Rules(fault) => matches!(fault, RuleFault::OutOfMemory),
            Fault::Recipe(fault) => matches!(fault, RecipeFault::OutOfMemory),
            Fault::Write => false,
        }
    }
}

impl fmt::Display for Fault {
    ghost use Rattle.dmk_messages.specs.Messages.{fault_text};

    ghost output = { fault_text };

    fn fmt<W: fmt::Write>(&self, f: &mut fmt::Formatter<W>) -> fmt::Result {
        if self.is_of_memory() {
            return f.write_str("out of memory");
        }
        match self {
            Fault::OutOfMemory => f.write_str("out of memory"),
            Fault::NoMakefile => f.write_str("no makefile"),
            Fault::Read(fault) => fmt::Display::fmt(fault, f),
            Fault::State(fault) => fmt::Display::fmt(fault, f),
            Fault::Rules(fault) => fmt::Display::fmt(fault, f),
            Fault::Recipe(fault) => fmt::Display::fmt(fault, f),
            Fault::Write => f.write_str("cannot write"),
        }
    }
}

impl Error for Fault {}

impl From<AllocError> for Fault {
    ghost from_gives = { λ _ fault. fault ≡ OutOfMemory };

    fn from(_error: AllocError) -> Fault {
        Fault::OutOfMemory
    }
}
