//! What a power cut leaves of a disk in memory.
use row_files::RowFault;
use st_disk::Which;
use st_memory::MemDisk;
use std::alloc::Global;

/// Each side as short, or as long, as it may be, and the bytes in each open place.
#[derive(Clone, Copy)]
pub enum Cut {
    Shortest(&'static [u8]),
    Longest(&'static [u8]),
}

/// What a cut leaves.
pub fn after(alloc: Global, disk: &MemDisk, cut: Cut) -> Result<MemDisk, RowFault> {
    let (least_a, greatest_a) = disk.extreme_lengths(Which::A);
    let (least_b, greatest_b) = disk.extreme_lengths(Which::B);
    if least_a > greatest_a || least_b > greatest_b {
        return Err(RowFault::Word);
    }
    Ok(match cut {
        Cut::Shortest(fill) => disk.power_cut(alloc, least_a, least_b, fill)?,
        Cut::Longest(fill) => disk.power_cut(alloc, greatest_a, greatest_b, fill)?,
    })
}
