//! A device that stops in the midst of a run over what an earlier run left: a recipe that was run is listed again.

use crate::runs::{Came, made};
use crate::way::{ALONE, SIDE_BY_SIDE, Way};
use run_doubles::{Asked, File, lists_any, new_store, opened};
use st_disk::Disk;
use st_doubles::Fuse;
use st_memory::MemDisk;
use st_state::State;
use std::alloc::Global;
use std::process::Abort;
use std::sync::Wait;
use std::test::Fail;
use std::thread::Threads;
use std::time::Clock;

// Each file is newer than those that it is made from: times alone list nothing.
const FILES: &[File] = &[("z", 9, ""), ("x", 8, ""), ("y", 1, "")];

/// What an earlier run and a later one are asked for: two recipes, of which `echo z` is the last one.
struct Pair {
    earlier: Asked,
    later: Asked,
}

/// The second recipe waits for the first; each record is a batch of its own.
static CHAIN: Pair = Pair {
    earlier: Asked {
        makefile: "A = 1\nz: x\n\techo z\nx: y\n\techo $(A)\n",
        files: FILES,
    },
    later: Asked {
        makefile: "A = 2\nz: x\n\techo z\nx: y\n\techo $(A)\n",
        files: FILES,
    },
};

/// It doesn't wait: with one worker the end of the first and the begin of the second are one batch.
static APART: Pair = Pair {
    earlier: Asked {
        makefile: "A = 1\nall: x z\nx: y\n\techo $(A)\nz: y\n\t: $(A)\n\techo z\n",
        files: FILES,
    },
    later: Asked {
        makefile: "A = 2\nall: x z\nx: y\n\techo $(A)\nz: y\n\t: $(A)\n\techo z\n",
        files: FILES,
    },
};

// More calls than opening and four commits make.
const MANY: u64 = 40;

/// What an earlier run left.
fn left<R: Threads + Wait + Clock + Sync + Copy>(
    rt: &R,
    alloc: Global,
    asked: &Asked,
) -> Result<MemDisk, Fail> {
    let store = new_store(alloc)?;
    Ok(made(rt, alloc, asked, &ALONE, store)?.into_disk())
}

/// What a later run over a disk came to, if it could be opened.
fn later<R: Threads + Wait + Clock + Sync + Copy, D: Disk + Drop + Send>(
    rt: &R,
    alloc: Global,
    asked: &Asked,
    way: &Way,
    disk: D,
) -> Result<Option<Came<D>>, Fail> {
    match opened(alloc, disk) {
        Ok(store) => Ok(Some(made(rt, alloc, asked, way, store)?)),
        Err(_) => Ok(None),
    }
}

/// Where the later run ended.
#[derive(Clone, Copy)]
enum Stop {
    BeforeTheFirst,
    /// A recipe was run, and no last line of `z`.
    BeforeTheSecond,
    /// That was run, and the run doesn't know that its end was told.
    BeforeTheEnd,
    Nowhere,
}

fn stop_of<D: Disk + Drop>(came: &Came<D>) -> Stop {
    if came.status() == 0 {
        return Stop::Nowhere;
    }
    let ran = came.notes.ran.as_slice();
    if ran.is_empty() {
        return Stop::BeforeTheFirst;
    }
    if ran.ends_with(b"echo z\n") {
        return Stop::BeforeTheEnd;
    }
    Stop::BeforeTheSecond
}

/// Whether the later run's recipes are to be run again over what it left; None where the state doesn't know where it
/// stopped. Once a recipe was run, what the earlier run left of it counts no more.
fn known(alloc: Global, pair: &Pair, stop: Stop, state: &State) -> Result<Option<bool>, Fail> {
    let by_earlier = lists_any(alloc, &pair.earlier, state)?;
    let by_later = lists_any(alloc, &pair.later, state)?;
    let knows = match stop {
        Stop::BeforeTheFirst => by_later,
        Stop::BeforeTheSecond | Stop::BeforeTheEnd => by_earlier,
        Stop::Nowhere => by_earlier && !by_later,
    };
    Ok(if knows { Some(by_later) } else { None })
}

fn is_listed<D: Disk + Drop>(
    alloc: Global,
    pair: &Pair,
    stop: Stop,
    disk: D,
) -> Result<Option<bool>, Fail> {
    match opened(alloc, disk) {
        Ok(store) => known(alloc, pair, stop, store.state()),
        Err(_) => Ok(None),
    }
}

/// Where a later run over a disk stopped, and whether its recipes are to be run again.
fn stop_over<R: Threads + Wait + Clock + Sync + Copy, D: Disk + Drop + Send>(
    rt: &R,
    alloc: Global,
    pair: &Pair,
    way: &Way,
    disk: Fuse<D>,
) -> Result<(Stop, bool), Fail> {
    let Some(came) = later(rt, alloc, &pair.later, way, disk)? else {
        return Ok((Stop::BeforeTheFirst, true));
    };
    let stop = stop_of(&came);
    match is_listed(alloc, pair, stop, came.into_disk().inner)? {
        Some(is_listed) => Ok((stop, is_listed)),
        None => Err("what the run left says something else".into()),
    }
}

/// The same of a disk that makes so many calls over what an earlier run left.
fn stop_after<R: Threads + Wait + Clock + Sync + Copy>(
    rt: &R,
    alloc: Global,
    pair: &Pair,
    way: &Way,
    calls: u64,
) -> Result<(Stop, bool), Fail> {
    let disk = Fuse::new(left(rt, alloc, &pair.earlier)?, calls);
    stop_over(rt, alloc, pair, way, disk)
}

/// Stops the device after each number of calls. Whether the last recipe was then listed again, and whether all was made at last.
fn stopped_everywhere<R: Threads + Wait + Clock + Sync + Copy>(
    rt: &R,
    alloc: Global,
    pair: &Pair,
    way: &Way,
) -> Result<(bool, bool), Fail> {
    let mut is_listed_again = false;
    let mut is_nowhere = false;
    for calls in 0..MANY {
        match stop_after(rt, alloc, pair, way, calls)? {
            (Stop::BeforeTheEnd, true) => is_listed_again = true,
            (Stop::Nowhere, _) => is_nowhere = true,
            _ => {}
        }
    }
    Ok((is_listed_again, is_nowhere))
}

fn chain() -> &'static Pair {
    &CHAIN
}

fn apart() -> &'static Pair {
    &APART
}

fn expect_stops<R: Threads + Wait + Clock + Sync + Copy + Abort>(
    rt: &R,
    alloc: Global,
    pair: &Pair,
    way: &Way,
) -> Result<(), Fail> {
    let came = stopped_everywhere(rt, alloc, pair, way)?;
    assert_eq!(rt; came, (true, true));
    Ok(())
}

#[test]
fn a_recipe_that_was_run_is_listed_wherever_the_device_stops(rt: HostRuntime) -> Result<(), Fail> {
    expect_stops(&rt, rt.alloc(), chain(), &ALONE)?;
    expect_stops(&rt, rt.alloc(), chain(), &SIDE_BY_SIDE)?;
    expect_stops(&rt, rt.alloc(), apart(), &ALONE)
}
