//! Runs to which memory is refused. Under `rt try --test --fail-alloc N` the Nth allocation of the test is refused;
//! whichever it is, the run ends, each worker is joined, each slot is given back, and each recipe that was run is known to
//! the state. Where that allocation is one of the preparations, the test ends with `OutOfMemory`. That a run to which
//! nothing is refused makes all is for the other tests.

use crate::runs::{Came, made};
use crate::way::{ALONE_WITH_K, Way};
use run_doubles::{Asked, new_store};
use st_disk::Disk;
use st_memory::MemDisk;
use st_records::Phase;
use std::process::Abort;
use std::sync::Wait;
use std::test::Fail;
use std::thread::Threads;
use std::time::Clock;

const TWO: Asked = Asked {
    makefile: "all: a b\na: y\n\techo a\nb: y\n\techo b\n",
    files: &[("y", 1, "")],
};

const PAIR: Way = Way {
    workers: 2,
    ..ALONE_WITH_K
};

/// Whether the state knows a target whose recipe was run: as begun or failed where memory was refused, else as done.
fn knows<D: Disk + Drop>(came: &Came<D>, target: &[u8]) -> bool {
    match came.state().get(target) {
        Some(entry) => came.status() != 0 || entry.phase() == Phase::Done,
        None => false,
    }
}

/// Whether one of the two lines was run: it is the first or the last.
fn was_run(ran: &[u8], line: &[u8]) -> bool {
    ran.starts_with(line) || ran.ends_with(line)
}

/// What holds of each run, whatever was refused.
fn is_in_order<D: Disk + Drop>(came: &Came<D>) -> bool {
    let notes = &came.notes;
    let ran = notes.ran.as_slice();
    notes.tokens.as_slice() == b"+".as_slice()
        && !notes.are_mixed
        && (knows(came, b"a") || !was_run(ran, b"echo a\n"))
        && (knows(came, b"b") || !was_run(ran, b"echo b\n"))
}

fn run_of<R: Threads + Wait + Clock + Sync + Copy + AllocGlobal>(
    rt: &R,
    way: &Way,
) -> Result<Came<MemDisk>, Fail> {
    let store = new_store(rt.alloc())?;
    made(rt, rt.alloc(), &TWO, way, store)
}

// The one worker finds the implicit slot free for each recipe, so it reads no token.
fn expect_of_one<D: Disk + Drop>(rt: &impl Abort, came: &Came<D>) {
    assert!(rt; is_in_order(came));
    assert_eq!(rt; came.notes.reads, 0);
    match came.status() {
        0 => assert_eq!(rt; came.notes.ran.as_slice(), b"echo a\necho b\n".as_slice()),
        // A line whose answer wanted memory failed, or the run ended so.
        status => assert!(rt; status == 1 || status == 9),
    }
}

fn expect_of_two<D: Disk + Drop>(rt: &impl Abort, came: &Came<D>) {
    assert!(rt; is_in_order(came));
    assert!(rt; came.status() != 0 || came.notes.ran.len() == 14);
}

#[test]
fn a_run_that_wanted_memory_ends(rt: HostRuntime) -> Result<(), Fail> {
    let came = run_of(&rt, &ALONE_WITH_K)?;
    expect_of_one(&rt, &came);
    Ok(())
}

#[test]
fn a_run_of_two_workers_that_wanted_memory_ends(rt: HostRuntime) -> Result<(), Fail> {
    let came = run_of(&rt, &PAIR)?;
    expect_of_two(&rt, &came);
    Ok(())
}
