//! Every text of the program but the option reader's. Texts that belong to a crate below are its own, by `Display`.
ghost use Rattle.std.specs.Prelude.{◌≡◌, None, IfSome};
ghost use Rattle.dmk_messages.specs.Messages.{fault_text};

use crate::fault::Fault;
use st_disk::Which;
use st_file::OpenFault;
use std::fmt;

/// What is said where soft edges make a cycle and are dropped.
pub const SOFT_EDGES_NOTE: &str = "note: soft edges make a cycle and are not used for order";

/// A fault as the user reads it. `state` is the name of the state's side A.
#[derive(Clone, Copy)]
pub struct Message<'a> {
    pub state: &'a str,
    pub fault: &'a Fault,
}

/// The side that a message names, if it names one.
fn named_side(fault: &Fault) -> Option<Which>
    ensures { IfSome result (λ _. fault_text fault.now ≡ None) }
{
    match fault {
        Fault::State(fault) => fault.damaged_side(),
        _ => None,
    }
}

/// The version of state files that the wide profile alone reads and writes.
const WIDE_VERSION: u16 = 4;

fn is_of_wide_state(fault: &Fault) -> bool {
    match fault {
        Fault::State(OpenFault::UnknownVersion(_, version)) => *version == WIDE_VERSION,
        _ => false,
    }
}

impl fmt::Display for Message<'_> {
    ghost use Rattle.dmk_messages.specs.Messages.{fault_text};

    ghost output = { λ message. fault_text message.fault.now };

    fn fmt<W: fmt::Write>(&self, f: &mut fmt::Formatter<W>) -> fmt::Result {
        let state = self.state;
        let fault = self.fault;
        let ending = match named_side(fault) {
            Some(Which::A) => "",
            Some(Which::B) => ".2",
            None => return write!(f, "{fault}"),
        };
        write!(f, "{state}{ending}: {fault}")?;
        if is_of_wide_state(fault) {
            write!(f, "\ndmk: note: {state}{ending} was written under --posix")?;
        }
        Ok(())
    }
}
