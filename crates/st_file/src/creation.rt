//! The creation of a side.

ghost use Rattle.std.specs.Prelude.{◌≡◌, ◌↔◌, ◌+◌, ◌<◌, ◌≤◌, IsTrue, IfOk, OnOk};
ghost use Rattle.st_disk.specs.Crash.{writes_of, other, settled, SideHas};
ghost use Rattle.st_disk.specs.Moments.{now, Throughout};
ghost use Rattle.st_disk.specs.Faults.{CountsFaults};
ghost use Rattle.st_file.specs.Side.{IsVoid};
ghost use Rattle.st_file.specs.Gated.{IsReady};
ghost use Rattle.st_file.specs.Created.{HasClosedGate, IsVoidOrNew, IsVoidOrNewIn, IsCreated, IsCreatedIn};

use crate::gated::append_gated;
use crate::layout::new_header_in;
use st_disk::{DeviceFault, Disk, Which};
use st_records::Form;

/// Makes a void side one of version 2 that holds no records. What stands behind its first gate stays. After a refused
/// call the side is void or holds no records.
pub fn create<D: Disk>(disk: &mut D, side: Which, generation: u64) -> Result<(), DeviceFault>
    requires some { 0 < generation }
    requires void { D.honest → IsVoid (D.seen disk.old side) }
    requires on_disk { D.honest → writes_of side (now (D.moments disk.old)) ≡ settled (D.seen disk.old side) }
    ensures any_moment { D.honest → Throughout (D.moments disk.old) (D.moments disk.new)
        (SideHas side (writes_of (other side) (now (D.moments disk.old))) (IsVoidOrNew generation)) }
    ensures created { D.honest → OnOk result (IsCreated generation (D.seen disk.new side) (writes_of side (now (D.moments disk.new)))) }
    ensures calls { D.honest → (D.moments disk.new).newest ≤ (D.moments disk.old).newest + 6 }
    ensures faults { CountsFaults result (D.faults disk.old) (D.faults disk.new) }
{
    create_in(disk, side, Form::Plain, generation)
}

/// The same of the version whose records have this form.
pub fn create_in<D: Disk>(
    disk: &mut D,
    side: Which,
    form: Form,
    generation: u64,
) -> Result<(), DeviceFault>
    requires some { 0 < generation }
    requires void { D.honest → IsVoid (D.seen disk.old side) }
    requires on_disk { D.honest → writes_of side (now (D.moments disk.old)) ≡ settled (D.seen disk.old side) }
    ensures any_moment { D.honest → Throughout (D.moments disk.old) (D.moments disk.new)
        (SideHas side (writes_of (other side) (now (D.moments disk.old))) (IsVoidOrNewIn form generation)) }
    ensures created { D.honest → OnOk result (IsCreatedIn form generation (D.seen disk.new side) (writes_of side (now (D.moments disk.new)))) }
    ensures calls { D.honest → (D.moments disk.new).newest ≤ (D.moments disk.old).newest + 6 }
    ensures faults { CountsFaults result (D.faults disk.old) (D.faults disk.new) }
{
    close_gate(disk, side)?;
    append_gated(disk, side, 0, &new_header_in(form, generation))?;
    Ok(())
}

/// Sees to it that a void side begins with a closed gate: without one, a byte is written and synced.
pub fn close_gate<D: Disk>(disk: &mut D, side: Which) -> Result<(), DeviceFault>
    requires void { D.honest → IsVoid (D.seen disk.old side) }
    requires on_disk { D.honest → writes_of side (now (D.moments disk.old)) ≡ settled (D.seen disk.old side) }
    ensures any_moment { D.honest → Throughout (D.moments disk.old) (D.moments disk.new)
        (SideHas side (writes_of (other side) (now (D.moments disk.old))) IsVoid) }
    ensures ready { D.honest → OnOk result (IsReady (D.seen disk.new side) (writes_of side (now (D.moments disk.new))) 0) }
    ensures calls { D.honest → (D.moments disk.new).newest ≤ (D.moments disk.old).newest + 2 }
    ensures faults { CountsFaults result (D.faults disk.old) (D.faults disk.new) }
{
    if has_closed_gate(disk, side)? {
        return Ok(());
    }
    disk.write_at(side, 0, &[0])?;
    disk.sync(side)?;
    Ok(())
}

/// Whether a side begins with a closed gate.
pub fn has_closed_gate<D: Disk>(disk: &mut D, side: Which) -> Result<bool, DeviceFault>
    ensures gate { D.honest → IfOk result (λ closed. IsTrue closed ↔ HasClosedGate (D.seen disk.old side)) }
    ensures seen { D.honest → D.seen disk.new ≡ D.seen disk.old }
    ensures moments { D.honest → D.moments disk.new ≡ D.moments disk.old }
    ensures faults { CountsFaults result (D.faults disk.old) (D.faults disk.new) }
{
    if disk.len(side)? == 0 {
        return Ok(false);
    }
    let mut gate = [1];
    disk.read(side, 0, &mut gate)?;
    Ok(gate[0] == 0)
}
