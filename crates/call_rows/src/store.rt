//! Stores over memory, and what a power cut leaves of them.
use bd_flusher::Site;
use byte_strings::ByteString;
use disk_rows::after;
use row_files::{Answered, RowFault};
use st_disk::{Disk, Which};
use st_doubles::{FailOnce, Fuse};
use st_memory::MemDisk;
use st_records::Phase;
use st_recovery::Store;
use st_state::{Listed, State};
use std::alloc::{AllocError, Global};
use store_rows::every_cut;

/// A disk over memory that may stop, or fail one call.
pub(crate) type Tried = Fuse<FailOnce<MemDisk>>;

/// A disk over memory.
pub(crate) trait OverMemory {
    fn memory(&self) -> &MemDisk;

    /// How many calls it has left before it stops.
    fn calls_left(&self) -> u64;

    /// How many calls were refused.
    fn refused(&self) -> u64;
}

impl OverMemory for Tried {
    fn memory(&self) -> &MemDisk {
        &self.inner.inner
    }

    fn calls_left(&self) -> u64 {
        self.plan.calls_left
    }

    fn refused(&self) -> u64 {
        self.refused.saturating_add(self.inner.refused)
    }
}

fn opened<D: Disk + Drop>(alloc: Global, disk: D) -> Result<Store<D>, RowFault> {
    match store_rows::opened(alloc, disk) {
        Ok(store) => Ok(store),
        Err((_fault, _disk)) => Err(RowFault::NotOpen),
    }
}

/// A site over a disk that opens.
pub(crate) fn site<D: Disk + Drop>(alloc: Global, disk: D) -> Result<Site<D>, RowFault> {
    site_over(alloc, opened(alloc, disk)?)
}

fn site_over<D: Disk + Drop>(alloc: Global, store: Store<D>) -> Result<Site<D>, RowFault> {
    if store.is_dead() {
        drop(store);
        return Err(RowFault::NotOpen);
    }
    match Site::new(alloc, store) {
        Ok(site) => Ok(site),
        Err((_fault, store)) => {
            drop(store);
            Err(RowFault::OutOfMemory)
        }
    }
}

/// How many targets a disk recovers.
fn known<D: Disk + Drop>(alloc: Global, disk: D) -> Result<usize, RowFault> {
    let store = opened(alloc, disk)?;
    let count = store.state().len();
    drop(store);
    Ok(count)
}

/// The targets that a disk recovers.
fn write_known<D: Disk + Drop>(alloc: Global, disk: D, out: &mut String) -> Answered {
    let store = opened(alloc, disk)?;
    let written = write_state(alloc, store.state(), out);
    drop(store);
    Ok(written?)
}

/// The least and the greatest number of targets that a power cut now leaves known.
pub(crate) fn known_after_cuts(alloc: Global, disk: &MemDisk) -> Result<(usize, usize), RowFault> {
    let mut least = usize::MAX;
    let mut most = 0;
    for cut in every_cut() {
        let count = known(alloc, after(alloc, disk, *cut)?)?;
        least = least.min(count);
        most = most.max(count);
    }
    Ok((least, most))
}

/// The targets that a state knows in byte order, each with its phase.
pub(crate) fn write_state(
    alloc: Global,
    state: &State,
    out: &mut String,
) -> Result<(), AllocError> {
    let named = state.in_byte_order(alloc)?;
    let written = write_entries(alloc, &named, out);
    drop(named);
    written
}

fn write_entries(alloc: Global, named: &Listed<'_>, out: &mut String) -> Result<(), AllocError> {
    let mut between = "";
    for place in 0..named.len() {
        out.push_str(between)?;
        let (name, entry) = named.at(place);
        write_entry(alloc, name, entry.phase(), out)?;
        between = ", ";
    }
    Ok(())
}

fn write_entry(
    alloc: Global,
    name: &[u8],
    phase: Phase,
    out: &mut String,
) -> Result<(), AllocError> {
    let name = ByteString::from_slice(alloc, name)?;
    write!(out, "{name} {phase:?}")
}

/// What the bytes recover that are on the disk.
pub(crate) fn write_recovered(alloc: Global, disk: &MemDisk, out: &mut String) -> Answered {
    write_known(alloc, settled(alloc, disk)?, out)
}

/// How many targets the bytes recover that are on the disk.
pub(crate) fn recovered(alloc: Global, disk: &MemDisk) -> Result<usize, RowFault> {
    known(alloc, settled(alloc, disk)?)
}

/// A disk of the same bytes.
fn settled(alloc: Global, disk: &MemDisk) -> Result<MemDisk, AllocError> {
    MemDisk::holding(alloc, disk.bytes(Which::A), disk.bytes(Which::B))
}
