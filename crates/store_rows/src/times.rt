//! Changes of stores of their own, a commit of one record or a compaction, and how long one takes in nanoseconds: opening isn't counted.
use crate::held::{Change, changed, opened};
use st_disk::{Disk, FileDisk, SystemFolder};
use st_memory::MemDisk;
use st_recovery::Store;
use std::alloc::{AllocError, Global};
use std::time::Instant;
use std::{fs, io};

/// How many commits are timed.
const COMMITS: usize = 200;

/// The median time of commits to a disk in memory whose side A has the bytes of a file.
pub(crate) fn commits_in_memory(rt: HostRuntime, file: &str) -> anyhow::Result<u128> {
    let disk = disk_of(rt, file)?;
    let change = Change::begun(rt.alloc(), b"obj/changed.o")?;
    let time = time_on_disk(rt, disk, &change, COMMITS);
    drop(change);
    time
}

fn disk_of(rt: HostRuntime, file: &str) -> anyhow::Result<MemDisk> {
    let bytes = fs::read(&rt, file)?;
    Ok(MemDisk::holding(rt.alloc(), bytes.as_slice(), b"")?)
}

/// The median time of commits to a state file.
pub(crate) fn commits_in_files(rt: HostRuntime, file: &str) -> anyhow::Result<u128> {
    time_of_begun(rt, file, b"obj/changed.o", COMMITS)
}

/// The time of a compaction of a state file.
pub(crate) fn compaction_in_files(rt: HostRuntime, file: &str) -> anyhow::Result<u128> {
    time_in_files(rt, file, &Change::Compact, 1)
}

/// The median time of so many commits to a state file, each that a target's recipe began.
pub(crate) fn time_of_begun(
    rt: HostRuntime,
    file: &str,
    target: &[u8],
    count: usize,
) -> anyhow::Result<u128> {
    let change = Change::begun(rt.alloc(), target)?;
    let time = time_in_files(rt, file, &change, count);
    drop(change);
    time
}

fn disk_over(rt: HostRuntime, file: &str) -> Result<FileDisk<SystemFolder>, AllocError> {
    Ok(FileDisk::new(SystemFolder::new(rt, rt.alloc(), file)?))
}

fn time_in_files(
    rt: HostRuntime,
    file: &str,
    change: &Change,
    count: usize,
) -> anyhow::Result<u128> {
    time_on_disk(rt, disk_over(rt, file)?, change, count)
}

/// The store of a disk that isn't refused.
fn good_store<D: Disk + Drop>(alloc: Global, disk: D) -> anyhow::Result<Store<D>> {
    match opened(alloc, disk) {
        Ok(store) => Ok(store),
        Err((fault, disk)) => {
            drop(disk);
            Err(fault.into())
        }
    }
}

fn time_on_disk<D: Disk + Drop>(
    rt: HostRuntime,
    disk: D,
    change: &Change,
    count: usize,
) -> anyhow::Result<u128> {
    let mut store = good_store(rt.alloc(), disk)?;
    let times = times_of(rt, &mut store, change, count);
    drop(store);
    median(times?)
}

fn times_of<D: Disk + Drop>(
    rt: HostRuntime,
    store: &mut Store<D>,
    change: &Change,
    count: usize,
) -> anyhow::Result<Vec<u128>> {
    let mut times = Vec::with_capacity(rt.alloc(), count)?;
    for _ in 0..count {
        times.push(time_of(rt, store, change)?)?;
    }
    Ok(times)
}

fn time_of<D: Disk + Drop>(
    rt: HostRuntime,
    store: &mut Store<D>,
    change: &Change,
) -> anyhow::Result<u128> {
    let start = Instant::now(&rt)?;
    make(rt.alloc(), store, change)?;
    Ok(start.elapsed(&rt)?.as_nanos())
}

fn make<D: Disk + Drop>(
    alloc: Global,
    store: &mut Store<D>,
    change: &Change,
) -> anyhow::Result<()> {
    match changed(alloc, store, change) {
        Ok(made) => Ok(made?),
        Err(_) => Err(io::Error::from(io::ErrorKind::InvalidInput).into()),
    }
}

// The middle one of some times, 0 where there are none.
fn median(mut times: Vec<u128>) -> anyhow::Result<u128> {
    times.sort()?;
    Ok(times.get(times.len() / 2).copied().unwrap_or(0))
}
