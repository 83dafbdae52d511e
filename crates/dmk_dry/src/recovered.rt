//! The state that a dry run goes by. The disk is only read.
ghost use Rattle.std.specs.Prelude.{◌≡◌, true, IfOk, IfErr, IsErrOf};
ghost use Rattle.st_recovery.specs.Recovers.{RecoversIn};
ghost use Rattle.st_disk.specs.declared.which.Which.TheVariants as sides;
ghost use Rattle.st_disk.specs.Faults.{Rises};
ghost use Rattle.st_file.specs.declared.fault.OpenFault.TheVariants as open_faults;
ghost use Rattle.dmk_reading.specs.Planned.{IsStateOn};
ghost use Rattle.dmk_dry.specs.Faults.{IsOpenFault};

use st_disk::Disk;
use st_file::OpenFault;
use st_records::{Form, HashKey};
use st_recovery::recover_from_in;
use st_state::State;
use std::alloc::Global;

/// The state that the two sides recover, read up to this newest form. Both are read before either is judged.
fn recovered<D: Disk>(
    alloc: Global,
    key: HashKey,
    newest: Form,
    disk: &mut D,
) -> Result<State, OpenFault>
    ensures found { D.honest → IfOk result (λ state. RecoversIn newest (D.seen disk.old sides.A) (D.seen disk.old sides.B) state) }
    ensures refused { D.honest → IfErr result (IsOpenFault newest (D.seen disk.old)) }
    ensures seen { D.honest → D.seen disk.new ≡ D.seen disk.old }
    ensures moments { D.honest → D.moments disk.new ≡ D.moments disk.old }
    // A device fault is a call of the disk that failed.
    ensures device { IsErrOf result open_faults.Device → Rises (D.faults disk.old) (D.faults disk.new) }
{
    recover_from_in(alloc, key, newest, disk)
}

/// The state that a run goes by. Where none is kept the disk isn't looked at.
pub fn state_of<D: Disk>(
    alloc: Global,
    key: HashKey,
    newest: Form,
    keeping: bool,
    disk: &mut D,
) -> Result<State, OpenFault>
    ensures found { IfOk result (IsStateOn newest keeping D.honest (D.seen disk.old)) }
    ensures refused { D.honest → IfErr result (IsOpenFault newest (D.seen disk.old)) }
    ensures kept { IfErr result (λ _. keeping ≡ true) }
    ensures seen { D.honest → D.seen disk.new ≡ D.seen disk.old }
    ensures moments { D.honest → D.moments disk.new ≡ D.moments disk.old }
    // A device fault is a call of the disk that failed.
    ensures device { IsErrOf result open_faults.Device → Rises (D.faults disk.old) (D.faults disk.new) }
{
    if !keeping {
        return Ok(State::with_key(alloc, key));
    }
    recovered(alloc, key, newest, disk)
}
