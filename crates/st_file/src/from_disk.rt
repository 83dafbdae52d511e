//! The bytes of a side, as its disk gives them.

ghost use Rattle.std.specs.Prelude.{◌≡◌, ◌⊎◌, ◌<◌, length, IfSome, IfOk, IfErr, OnOk, OnErr, IsErrOf};
ghost use Rattle.st_disk.specs.Faults.{Rises};
ghost use Rattle.st_file.specs.declared.fault.OpenFault.TheVariants as faults;
ghost use Rattle.st_file.specs.Side.{IsRefused, Reads};
ghost use Rattle.st_file.specs.Answer.{reading_of};

use crate::fault::OpenFault;
use crate::side::{Side, side_of};
use st_disk::{Disk, Which};
use std::alloc::{AllocError, Global};

const BLOCK_BYTES: usize = 4096;

/// All the bytes of a side. The fault is `Device` or `OutOfMemory`, of an empty side `Device` alone.
pub fn read_whole<D: Disk>(alloc: Global, disk: &mut D, side: Which) -> Result<Vec<u8>, OpenFault>
    ensures bytes { D.honest → IfOk result (λ bytes. bytes.items ≡ D.seen disk.old side) }
    ensures seen { D.honest → D.seen disk.new ≡ D.seen disk.old }
    ensures moments { D.honest → D.moments disk.new ≡ D.moments disk.old }
    ensures success { OnOk result (D.faults disk.new ≡ D.faults disk.old) }
    ensures device { IsErrOf result faults.Device → Rises (D.faults disk.old) (D.faults disk.new) }
    ensures memory { D.honest → IsErrOf result faults.OutOfMemory → 0 < length (D.seen disk.old side) }
    ensures causes { IfErr result (λ fault. (fault ≡ faults.Device) ⊎ (fault ≡ faults.OutOfMemory)) }
{
    let len = disk.len(side)?;
    let mut bytes = zeros(alloc, len)?;
    disk.read(side, 0, &mut bytes)?;
    Ok(bytes)
}

/// So many zeros, copied by the block, where `vec!` and `resize` set one after the other.
pub(crate) fn zeros(alloc: Global, len: usize) -> Result<Vec<u8>, AllocError>
    ensures len { IfOk result (λ bytes. length bytes.items ≡ len) }
    ensures memory { OnErr result (0 < len) }
{
    let block = [0; BLOCK_BYTES];
    let mut bytes = Vec::with_capacity(alloc, len)?;
    while bytes.len() < len {
        let more = (len - bytes.len()).min(BLOCK_BYTES);
        bytes.extend_from_slice(&block[..more])?;
    }
    Ok(bytes)
}

/// What a side of a disk holds, or the first fault in its bytes. It writes nothing.
pub fn read_log<D: Disk>(alloc: Global, disk: &mut D, side: Which) -> Result<Side, OpenFault>
    ensures found { D.honest → IfOk result (λ _. IfSome (reading_of result) (Reads side (D.seen disk.old side))) }
    ensures refused { D.honest → IfErr result (λ fault. (fault ≡ faults.Device) ⊎ ((fault ≡ faults.OutOfMemory)
        ⊎ IsRefused side (D.seen disk.old side) fault)) }
    ensures seen { D.honest → D.seen disk.new ≡ D.seen disk.old }
    ensures moments { D.honest → D.moments disk.new ≡ D.moments disk.old }
    ensures device { IsErrOf result faults.Device → Rises (D.faults disk.old) (D.faults disk.new) }
{
    let bytes = read_whole(alloc, disk, side)?;
    side_of(alloc, side, &bytes)
}
