//! A side that gives way, cleared and written anew, so that a power cut leaves one that gives way or all of the new text.

ghost use Rattle.std.specs.Prelude.{◌≡◌, ℕ, ◌<◌, [], length, OnOk};
ghost use Rattle.st_disk.specs.Crash.{writes_of, other, settled, SideHas};
ghost use Rattle.st_disk.specs.Moments.{now, Throughout};
ghost use Rattle.st_disk.specs.Faults.{CountsFaults};
ghost use Rattle.st_file.specs.Side.{IsVoid};
ghost use Rattle.st_file.specs.Gated.{IsReady, IsOpened};
ghost use Rattle.st_records.specs.declared.version.Form.{Form};
ghost use Rattle.st_recovery.specs.Stored.{GivesWayIn};
ghost use Rattle.st_compaction.specs.Compacted.{IsRetired, IsVoidOrOpen, GivesWayOrOpenIn};

use st_disk::{DeviceFault, Disk, Which};
use st_file::{append_gated, close_gate, has_closed_gate};

/// Clears a side and writes a text on it, the first gate last: after a power cut at any moment the side gives way to what
/// it gave way to before, or its first gate is open and the text stands behind it.
pub(crate) fn rewrite<D: Disk>(disk: &mut D, side: Which, text: &[u8]) -> Result<(), DeviceFault>
    requires { D.honest → writes_of side (now (D.moments disk.old)) ≡ settled (D.seen disk.old side) }
    ensures any_moment { D.honest → (newest : Form) (generation : ℕ) → GivesWayIn newest generation (D.seen disk.old side)
        → Throughout (D.moments disk.old) (D.moments disk.new)
        (SideHas side (writes_of (other side) (now (D.moments disk.old))) (GivesWayOrOpenIn newest generation text.now)) }
    ensures opened { D.honest → OnOk result (IsOpened [] text.now (D.seen disk.new side) (writes_of side (now (D.moments disk.new)))) }
    ensures faults { CountsFaults result (D.faults disk.old) (D.faults disk.new) }
{
    retire(disk, side)?;
    publish(disk, side, text)?;
    Ok(())
}

/// Clears a side: its first gate is closed, and then all behind it is cut off. An empty side stays as it is.
fn retire<D: Disk>(disk: &mut D, side: Which) -> Result<(), DeviceFault>
    requires { D.honest → writes_of side (now (D.moments disk.old)) ≡ settled (D.seen disk.old side) }
    ensures any_moment { D.honest → (newest : Form) (generation : ℕ) → GivesWayIn newest generation (D.seen disk.old side)
        → Throughout (D.moments disk.old) (D.moments disk.new)
        (SideHas side (writes_of (other side) (now (D.moments disk.old))) (GivesWayIn newest generation)) }
    ensures retired { D.honest → OnOk result (IsRetired (D.seen disk.new side) (writes_of side (now (D.moments disk.new)))) }
    ensures faults { CountsFaults result (D.faults disk.old) (D.faults disk.new) }
{
    let length = disk.len(side)?;
    if length == 0 {
        return Ok(());
    }
    close_first_gate(disk, side)?;
    cut_behind_gate(disk, side)?;
    Ok(())
}

/// Sees to it that a side that isn't empty begins with a closed gate: over an open one a byte is written and synced.
fn close_first_gate<D: Disk>(disk: &mut D, side: Which) -> Result<(), DeviceFault>
    requires some { D.honest → 0 < length (D.seen disk.old side) }
    requires on_disk { D.honest → writes_of side (now (D.moments disk.old)) ≡ settled (D.seen disk.old side) }
    ensures any_moment { D.honest → (newest : Form) (generation : ℕ) → GivesWayIn newest generation (D.seen disk.old side)
        → Throughout (D.moments disk.old) (D.moments disk.new)
        (SideHas side (writes_of (other side) (now (D.moments disk.old))) (GivesWayIn newest generation)) }
    ensures ready { D.honest → OnOk result (IsReady (D.seen disk.new side) (writes_of side (now (D.moments disk.new))) 0) }
    ensures faults { CountsFaults result (D.faults disk.old) (D.faults disk.new) }
{
    if has_closed_gate(disk, side)? {
        return Ok(());
    }
    disk.write_at(side, 0, &[0])?;
    disk.sync(side)?;
    Ok(())
}

/// Cuts off all that stands behind the closed gate with which a side begins.
fn cut_behind_gate<D: Disk>(disk: &mut D, side: Which) -> Result<(), DeviceFault>
    requires { D.honest → IsReady (D.seen disk.old side) (writes_of side (now (D.moments disk.old))) 0 }
    ensures any_moment { D.honest → Throughout (D.moments disk.old) (D.moments disk.new)
        (SideHas side (writes_of (other side) (now (D.moments disk.old))) IsVoid) }
    ensures retired { D.honest → OnOk result (IsRetired (D.seen disk.new side) (writes_of side (now (D.moments disk.new)))) }
    ensures faults { CountsFaults result (D.faults disk.old) (D.faults disk.new) }
{
    let length = disk.len(side)?;
    if length <= 1 {
        return Ok(());
    }
    disk.cut(side, 1)?;
    disk.sync(side)?;
    Ok(())
}

/// Writes a text on a void side behind its first gate, and then opens that gate. What stands behind the text stays.
fn publish<D: Disk>(disk: &mut D, side: Which, text: &[u8]) -> Result<(), DeviceFault>
    requires void { D.honest → IsVoid (D.seen disk.old side) }
    requires on_disk { D.honest → writes_of side (now (D.moments disk.old)) ≡ settled (D.seen disk.old side) }
    ensures any_moment { D.honest → Throughout (D.moments disk.old) (D.moments disk.new)
        (SideHas side (writes_of (other side) (now (D.moments disk.old))) (IsVoidOrOpen text.now)) }
    ensures opened { D.honest → OnOk result (IsOpened [] text.now (D.seen disk.new side) (writes_of side (now (D.moments disk.new)))) }
    ensures faults { CountsFaults result (D.faults disk.old) (D.faults disk.new) }
{
    close_gate(disk, side)?;
    append_gated(disk, side, 0, text)?;
    Ok(())
}
