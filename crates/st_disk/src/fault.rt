//! The one fault of a disk, and how faults are counted.
ghost use Rattle.st_disk.specs.Faults.{Rises, CountsFaults};

use thiserror::Error;

/// A call of the device failed. What it was to do may have been done in part.
#[derive(Clone, Copy, Debug, PartialEq, Eq, Error)]
#[error("device fault")]
pub struct DeviceFault;

/// Counts one more failed call. The count stays at its last value.
pub fn count_fault(faults: &mut u64) -> DeviceFault
    ensures { Rises faults.old faults.new }
{
    *faults = faults.saturating_add(1);
    DeviceFault
}
