//! How one gets on where a makefile or a state is refused.
ghost use Rattle.std.specs.Prelude.{◌≡◌};
ghost use Rattle.dmk_messages.specs.Cure.{wide_has, cause_cure, text_cure, cure_of};

use crate::fault::Fault;
use mk_macros::MacroFault;
use mk_plan::RecipeFault;
use mk_profile::Profile;
use mk_reader::{Cause, Feature, MacroCause, ReadFault, is_refused};
use mk_rule_lines::{RuleFault, TextFault};
use st_disk::Which;
use st_file::OpenFault;
use std::fmt;

/// What helps.
#[derive(Clone, Copy, Debug)]
pub enum Cure {
    /// This side of the state is no state file: it is to be removed.
    Remove(Which),
    /// The wide profile has what is refused.
    WideHas(Feature),
    /// The wide profile has macro references in macro references.
    WideNests,
    /// The wide profile tells the line of the fault.
    WideTellsLine,
}

fn wide_has(feature: Feature) -> bool
    ensures { result ≡ wide_has feature }
{
    match feature {
        Feature::Include
        | Feature::OptionalDefinition
        | Feature::DoubleColon
        | Feature::ColonDefinition => true,
        Feature::SpecialName(name) => !is_refused(Profile::Posix, name),
        _ => false,
    }
}

/// What helps where a line is refused for this cause.
fn cause_cure(cause: &Cause) -> Option<Cure>
    ensures { result ≡ cause_cure cause.now }
{
    match cause {
        Cause::Unsupported(feature) => wide_has(*feature).then_some(Cure::WideHas(*feature)),
        Cause::Macro(MacroCause::NestedReference) => Some(Cure::WideNests),
        _ => None,
    }
}

/// What helps where a rule's text or a recipe's has no expansion.
fn text_cure(fault: &TextFault) -> Option<Cure>
    ensures { result ≡ text_cure fault.now }
{
    if fault.place.is_some() {
        return None;
    }
    match &fault.cause {
        MacroFault::OutOfMemory => None,
        MacroFault::NestedReference => Some(Cure::WideNests),
        _ => Some(Cure::WideTellsLine),
    }
}

impl Cure {
    /// What helps against the fault, if it is known. A fault that names its line needs nothing of the wide profile for that.
    pub fn of(fault: &Fault) -> Option<Cure>
        ensures { result ≡ cure_of fault.now }
    {
        match fault {
            Fault::State(OpenFault::NotState(side)) => Some(Cure::Remove(*side)),
            Fault::Read(ReadFault::Refused(refused)) => cause_cure(&refused.cause),
            Fault::Rules(RuleFault::Macro(text)) => text_cure(text),
            Fault::Recipe(RecipeFault::Macro(text)) => text_cure(text),
            _ => None,
        }
    }

    /// Whether it is one for this profile: what the wide one has helps the strict one.
    pub fn is_for(self, profile: Profile) -> bool {
        profile.is_wide() == matches!(self, Cure::Remove(_))
    }
}

/// A cure as the user reads it. `state` is the name of the state's side A.
#[derive(Clone, Copy)]
pub struct CureMessage<'a> {
    pub state: &'a str,
    pub cure: Cure,
}

impl fmt::Display for CureMessage<'_> {
    fn fmt<W: fmt::Write>(&self, f: &mut fmt::Formatter<W>) -> fmt::Result {
        let state = self.state;
        match self.cure {
            Cure::Remove(side) => {
                let ending = match side {
                    Which::A => "",
                    Which::B => ".2",
                };
                write!(
                    f,
                    "another program wrote {state}{ending}: remove it, and its targets are made anew"
                )
            }
            Cure::WideHas(feature) => write!(f, "--posix reads {feature}"),
            Cure::WideNests => f.write_str("--posix reads nested macro references"),
            Cure::WideTellsLine => f.write_str("--posix tells the line"),
        }
    }
}
