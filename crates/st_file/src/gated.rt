//! A text put on a side so that a power cut leaves all of it or none.

ghost use Rattle.std.specs.Prelude.{◌≡◌, ◌+◌, ◌<◌, ◌≤◌, ◌^◌, length, take, OnOk};
ghost use Rattle.st_disk.specs.Crash.{writes_of, other, SideHas};
ghost use Rattle.st_disk.specs.Moments.{now, Throughout};
ghost use Rattle.st_disk.specs.Faults.{CountsFaults};
ghost use Rattle.st_file.specs.Gated.{IsReady, IsClosedOrOpen, IsOpened};

use st_disk::{DeviceFault, Disk, Which};

/// Writes a text behind the closed gate at `gate` and then opens the gate, each write on the disk before the next call:
/// after a power cut at any moment the gate is closed, or it is open and the text stands behind it. What follows the
/// text stays. A refused call leaves it open which of the two it is.
pub fn append_gated<D: Disk>(
    disk: &mut D,
    side: Which,
    gate: usize,
    text: &[u8],
) -> Result<(), DeviceFault>
    requires place { gate + 1 < 2 ^ 64 }
    requires ready { D.honest → IsReady (D.seen disk.old side) (writes_of side (now (D.moments disk.old))) gate }
    ensures any_moment { D.honest → Throughout (D.moments disk.old) (D.moments disk.new)
        (SideHas side (writes_of (other side) (now (D.moments disk.old))) (IsClosedOrOpen (take gate (D.seen disk.old side)) text.now)) }
    ensures opened { D.honest → OnOk result (IsOpened (take gate (D.seen disk.old side)) text.now
        (D.seen disk.new side) (writes_of side (now (D.moments disk.new)))) }
    // At most four calls change what a crash may leave.
    ensures calls { D.honest → (D.moments disk.new).newest ≤ (D.moments disk.old).newest + 4 }
    ensures faults { CountsFaults result (D.faults disk.old) (D.faults disk.new) }
{
    disk.write_at(side, gate + 1, text)?;
    disk.sync(side)?; // before the gate is touched
    disk.write_at(side, gate, &[1])?;
    disk.sync(side)?; // before the text counts as written
    Ok(())
}
