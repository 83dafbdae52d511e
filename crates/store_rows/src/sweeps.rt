//! A commit or a compaction that fails at each call of the disk in turn, and what power cuts then leave.
use crate::held::{Change, Device, MANY, OverMemory, changed, opened};
use crate::power_cuts::say_cuts;
use crate::sides::Sides;
use row_files::{RowFault, Words};
use st_disk::Disk;
use st_recovery::Store;
use std::alloc::Global;

/// More calls than opening a disk and one change make.
const RUNS: u64 = 100;

const DONE: &str = "done: ";

/// How far a change of a store comes.
fn front<D: Disk + Drop>(
    alloc: Global,
    store: &mut Store<D>,
    change: &Change,
) -> Result<&'static str, RowFault> {
    Ok(match changed(alloc, store, change)? {
        Ok(()) => DONE,
        Err(_) => "failed: ",
    })
}

/// How far a change comes on a disk, and the disk as it leaves it.
fn left<D: Disk + Drop>(
    alloc: Global,
    disk: D,
    change: &Change,
) -> Result<(&'static str, D), RowFault> {
    match opened(alloc, disk) {
        Ok(mut store) => {
            let front = front(alloc, &mut store, change);
            let disk = store.log.disk;
            Ok((front?, disk))
        }
        Err((_fault, disk)) => Ok(("not opened: ", disk)),
    }
}

/// A disk on which so many calls pass, and each later one fails, or just the next one.
fn device_at(alloc: Global, sides: &Sides, how: &str, calls: u64) -> Result<Device, RowFault> {
    match how {
        "stop" => Ok(sides.device_at(alloc, calls, MANY)?),
        "fail" => Ok(sides.device_at(alloc, MANY, calls)?),
        _ => Err(RowFault::Word),
    }
}

fn is_done<D: Disk + Drop + OverMemory>(
    alloc: Global,
    said: &mut String,
    disk: D,
    change: &Change,
) -> Result<bool, RowFault> {
    let (front, disk) = left(alloc, disk, change)?;
    let answered = say_cuts(alloc, said, front, disk.memory());
    drop(disk);
    answered?;
    Ok(front == DONE)
}

/// Makes the change on one such disk behind the other, until it is done.
fn make_often(
    alloc: Global,
    said: &mut String,
    sides: &Sides,
    how: &str,
    change: &Change,
) -> Result<(), RowFault> {
    for calls in 0..RUNS {
        let disk = device_at(alloc, sides, how, calls)?;
        if is_done(alloc, said, disk, change)? {
            return Ok(());
        }
    }
    Ok(said.push_str(" and never done")?)
}

/// `sweep stop CALL` and `sweep fail CALL`: opens the disk and makes the call, over and over, and stops the disk, or fails
/// one call, one call later each time, until it is done. Says how far each came, and the states that a power cut then leaves.
pub(crate) fn sweep(
    alloc: Global,
    said: &mut String,
    sides: &Sides,
    words: &mut Words<'_>,
) -> Result<(), RowFault> {
    let how = words.next();
    let change = Change::of(alloc, words.next(), words.rest)?;
    make_often(alloc, said, sides, how, &change)
}
