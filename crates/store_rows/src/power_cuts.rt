//! The states that a power cut may leave of a disk in memory.
use crate::held::opened;
use disk_rows::{Cut, after};
use record_rows::{say_once, say_state};
use row_files::RowFault;
use st_disk::Disk;
use st_memory::MemDisk;
use std::alloc::{AllocError, Global};

static EVERY_CUT: [Cut; 6] = [
    Cut::Shortest(b"\x00"),
    Cut::Longest(b"\x00"),
    Cut::Shortest(b"\x01"),
    Cut::Longest(b"\x01"),
    Cut::Shortest(b"\xff"),
    Cut::Longest(b"\xff"),
];

/// Both lengths with each of three bytes in the open places.
pub fn every_cut() -> &'static [Cut] {
    &EVERY_CUT
}

/// The state of the store of a disk, or why it is refused.
fn say_opened<D: Disk + Drop>(alloc: Global, said: &mut String, disk: D) -> Result<(), AllocError> {
    match opened(alloc, disk) {
        Ok(store) => {
            let answered = say_state(alloc, said, store.state());
            drop(store);
            answered
        }
        Err((fault, disk)) => {
            drop(disk);
            write!(said, "{fault:?}")
        }
    }
}

fn say_cut<D: Disk + Drop>(
    alloc: Global,
    said: &mut String,
    front: &str,
    disk: D,
) -> Result<(), AllocError> {
    let mut text = String::from_str(alloc, front)?;
    say_opened(alloc, &mut text, disk)?;
    say_once(said, text.as_str())
}

/// Says each state that a power cut now may leave, behind some words.
pub(crate) fn say_cuts(
    alloc: Global,
    said: &mut String,
    front: &str,
    disk: &MemDisk,
) -> Result<(), RowFault> {
    for cut in every_cut() {
        say_cut(alloc, said, front, after(alloc, disk, *cut)?)?;
    }
    Ok(())
}
