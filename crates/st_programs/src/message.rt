//! Faults as the user reads them.

ghost use Rattle.std.specs.Prelude.{◌≡◌, ℕ, List, Some, IfSome};
ghost use Rattle.st_records.specs.declared.version.Form.{Form};
ghost use Rattle.st_file.specs.declared.fault.OpenFault.{OpenFault};
ghost use Rattle.st_file.specs.Side.{IsRefusedIn};
ghost use Rattle.st_listing.specs.Writing.{IsOfSide};
ghost use Rattle.st_listing.specs.declared.listing.ListFault.TheVariants as faults;

use st_disk::Which;
use st_listing::ListFault;
use std::fmt;

/// A fault as the user reads it. `file` is the name of side A.
#[derive(Drop)]
pub struct Message<'a> {
    pub file: &'a str,
    pub fault: ListFault,
}

impl fmt::Display for Message<'_> {
    fn fmt<W: fmt::Write>(&self, f: &mut fmt::Formatter<W>) -> fmt::Result {
        let file = self.file;
        let fault = self.fault;
        match damaged_side(fault) {
            Some(Which::A) => write!(f, "{file}: {fault}"),
            Some(Which::B) => write!(f, "{file}.2: {fault}"),
            None => write!(f, "{fault}"),
        }
    }
}

// The side whose bytes have the fault, which the message names.
fn damaged_side(fault: ListFault) -> Option<Which>
    ensures found { IfSome result (λ side. IsOfSide side fault) }
    ensures only { (side : Which) → IsOfSide side fault → result ≡ Some side }
    // Whatever bytes are refused with the fault, the message names their side.
    ensures refused { (newest : Form) (side : Which) (x : List ℕ) (f : OpenFault) → IsRefusedIn newest side x f → fault ≡ faults.Open f → result ≡ Some side }
{
    match fault {
        ListFault::Open(fault) => fault.damaged_side(),
        ListFault::Write => None,
    }
}
