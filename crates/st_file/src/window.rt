//! The bytes of a side that are in memory while the side is read forward, block after block.

ghost use Rattle.std.specs.Prelude.{◌≡◌, ◌≢◌, ◌⊎◌, ◌+◌, ◌<◌, ◌≤◌, length, drop, slice_range, OnOk, IfOk, IfErr, IsErrOf};
ghost use Rattle.st_disk.specs.Faults.{Rises};
ghost use Rattle.st_file.specs.declared.fault.OpenFault.TheVariants as faults;
ghost use Rattle.st_file.specs.Window.{ahead, IsSound, Shows, ShowsHeader, ShowsBatch};

use crate::batch::{FRAME_BYTES, batch_len};
use crate::fault::OpenFault;
use crate::from_disk::zeros;
use crate::layout::HEADER_BYTES;
use st_disk::{Disk, Which};
use std::alloc::Global;

/// The bytes that are read at once, unless a batch is longer.
const BLOCK_BYTES: usize = 1 << 16;

/// Where the reading of a side has come to, and some of the bytes that follow there.
pub(crate) struct Window {
    pub side: Which,
    /// The length of the side.
    pub len: usize,
    /// What stands before it is read off.
    pub place: usize,
    bytes: Vec<u8>,
    /// How many of these bytes are read off.
    passed: usize,
}

impl Drop for Window {
    fn drop(self) {
        let Window {
            side: _,
            len: _,
            place: _,
            bytes: _,
            passed: _,
        } = self;
    }
}

impl Window {
    /// At the start of a side, its header in memory, or all of a side that is shorter.
    pub(crate) fn at_start<D: Disk>(
        alloc: Global,
        disk: &mut D,
        side: Which,
    ) -> Result<Window, OpenFault>
        ensures sound { IfOk result IsSound }
        ensures place { IfOk result (λ window. window.place ≡ 0) }
        ensures side { IfOk result (λ window. window.side ≡ side) }
        ensures header { D.honest → IfOk result (ShowsHeader (D.seen disk.old side)) }
        ensures seen { D.honest → D.seen disk.new ≡ D.seen disk.old }
        ensures moments { D.honest → D.moments disk.new ≡ D.moments disk.old }
        ensures success { OnOk result (D.faults disk.new ≡ D.faults disk.old) }
        ensures device { IsErrOf result faults.Device → Rises (D.faults disk.old) (D.faults disk.new) }
        ensures memory { IsErrOf result faults.OutOfMemory → D.faults disk.new ≡ D.faults disk.old }
        ensures bytes { D.honest → IsErrOf result faults.OutOfMemory → 0 < length (D.seen disk.old side) }
        ensures causes { IfErr result (λ fault. (fault ≡ faults.Device) ⊎ (fault ≡ faults.OutOfMemory)) }
    {
        let len = disk.len(side)?;
        let mut window = Window {
            side,
            len,
            place: 0,
            bytes: Vec::new(alloc),
            passed: 0,
        };
        window.reach(alloc, disk, HEADER_BYTES.min(len))?;
        Ok(window)
    }

    /// The bytes in memory from the place on.
    pub(crate) fn front(&self) -> &[u8]
        requires sound { IsSound self.now }
        ensures { result.now ≡ ahead self.now }
    {
        let (_passed, front) = self.bytes.split_at(self.passed);
        front
    }

    /// Goes on behind some of the bytes in memory.
    pub(crate) fn pass(&mut self, count: usize)
        requires sound { IsSound self.old }
        requires count { count ≤ length (ahead self.old) }
        ensures sound { IsSound self.new }
        ensures ahead { ahead self.new ≡ drop count (ahead self.old) }
        ensures place { self.new.place ≡ self.old.place + count }
        ensures side { self.new.side ≡ self.old.side }
        ensures len { self.new.len ≡ self.old.len }
    {
        self.place += count;
        self.passed += count;
    }

    /// Has so many bytes from the place on in memory.
    fn reach<D: Disk>(
        &mut self,
        alloc: Global,
        disk: &mut D,
        wanted: usize,
    ) -> Result<(), OpenFault>
        requires sound { IsSound self.old }
        requires within { self.old.place + wanted ≤ self.old.len }
        requires shows { D.honest → Shows (D.seen disk.old self.old.side) self.old }
        ensures sound { OnOk result (IsSound self.new) }
        ensures reached { OnOk result (wanted ≤ length (ahead self.new)) }
        ensures shows { D.honest → OnOk result (Shows (D.seen disk.old self.old.side) self.new) }
        ensures place { self.new.place ≡ self.old.place }
        ensures side { self.new.side ≡ self.old.side }
        ensures len { self.new.len ≡ self.old.len }
        ensures seen { D.honest → D.seen disk.new ≡ D.seen disk.old }
        ensures moments { D.honest → D.moments disk.new ≡ D.moments disk.old }
        ensures success { OnOk result (D.faults disk.new ≡ D.faults disk.old) }
        ensures device { IsErrOf result faults.Device → Rises (D.faults disk.old) (D.faults disk.new) }
        ensures memory { IsErrOf result faults.OutOfMemory → (0 < wanted) × (D.faults disk.new ≡ D.faults disk.old) }
        ensures causes { IfErr result (λ fault. (fault ≡ faults.Device) ⊎ (fault ≡ faults.OutOfMemory)) }
    {
        if wanted <= self.bytes.len() - self.passed {
            return Ok(());
        }
        let size = wanted.max(BLOCK_BYTES).min(self.len - self.place);
        read_block(alloc, disk, self.side, self.place, size, &mut self.bytes)?;
        self.passed = 0;
        Ok(())
    }

    /// Has the batch that begins at the place in memory, if a whole one does.
    pub(crate) fn reach_batch<D: Disk>(
        &mut self,
        alloc: Global,
        disk: &mut D,
    ) -> Result<(), OpenFault>
        requires sound { IsSound self.old }
        requires more { self.old.place < self.old.len }
        requires shows { D.honest → Shows (D.seen disk.old self.old.side) self.old }
        ensures sound { OnOk result (IsSound self.new) }
        ensures some { OnOk result (0 < length (ahead self.new)) }
        ensures batch { D.honest → OnOk result (ShowsBatch (D.seen disk.old self.old.side) self.new) }
        ensures place { self.new.place ≡ self.old.place }
        ensures side { self.new.side ≡ self.old.side }
        ensures len { self.new.len ≡ self.old.len }
        ensures seen { D.honest → D.seen disk.new ≡ D.seen disk.old }
        ensures moments { D.honest → D.moments disk.new ≡ D.moments disk.old }
        ensures success { OnOk result (D.faults disk.new ≡ D.faults disk.old) }
        ensures device { IsErrOf result faults.Device → Rises (D.faults disk.old) (D.faults disk.new) }
        ensures memory { IsErrOf result faults.OutOfMemory → D.faults disk.new ≡ D.faults disk.old }
        ensures causes { IfErr result (λ fault. (fault ≡ faults.Device) ⊎ (fault ≡ faults.OutOfMemory)) }
    {
        let left = self.len - self.place;
        self.reach(alloc, disk, FRAME_BYTES.min(left))?;
        let wanted = batch_len(self.front(), left);
        self.reach(alloc, disk, wanted)?;
        Ok(())
    }
}

/// Makes them so many bytes of a side, those from a place on.
fn read_block<D: Disk>(
    alloc: Global,
    disk: &mut D,
    side: Which,
    place: usize,
    size: usize,
    bytes: &mut Vec<u8>,
) -> Result<(), OpenFault>
    requires within { D.honest → place + size ≤ length (D.seen disk.old side) }
    ensures bytes { D.honest → OnOk result (bytes.new.items ≡ slice_range (D.seen disk.old side) place (place + size)) }
    ensures len { OnOk result (length bytes.new.items ≡ size) }
    ensures seen { D.honest → D.seen disk.new ≡ D.seen disk.old }
    ensures moments { D.honest → D.moments disk.new ≡ D.moments disk.old }
    ensures success { OnOk result (D.faults disk.new ≡ D.faults disk.old) }
    ensures device { IsErrOf result faults.Device → Rises (D.faults disk.old) (D.faults disk.new) }
    ensures memory { IsErrOf result faults.OutOfMemory → (0 < size) × (D.faults disk.new ≡ D.faults disk.old) }
    ensures causes { IfErr result (λ fault. (fault ≡ faults.Device) ⊎ (fault ≡ faults.OutOfMemory)) }
{
    if bytes.len() < size {
        *bytes = zeros(alloc, size)?;
    }
    bytes.truncate(size);
    disk.read(side, place, bytes)?;
    Ok(())
}
