//! Records that are submitted while a batch is written share the next one.

use crate::acknowledged::acknowledged;
use bd_flusher::FlusherIn;
use bd_ledger::Ticket;
use run_doubles::{Asked, board, opened, site_of, submitted};
use st_disk::{DeviceFault, Disk, Which};
use st_memory::MemDisk;
use st_records::Form;
use std::alloc::Global;
use std::sync::{Mutex, Wait};
use std::test::Fail;
use std::thread;
use std::thread::Threads;
use std::time::{Clock, Duration};

const FOUR: Asked = Asked {
    makefile: "all: a b c d\na:\n\ttrue\nb:\n\ttrue\nc:\n\ttrue\nd:\n\ttrue\n",
    files: &[],
};

/// Whoever waits for another worker gives up after so many looks, ten seconds at least: a test in which nobody comes fails, and
/// ends in time.
const LOOKS: u32 = 100_000;

/// Whether the first sync of a commit has begun, how many records were submitted since, and whether somebody gave up waiting.
#[derive(Drop)]
struct Gate {
    reached: bool,
    submitted: usize,
    gave_up: bool,
}

impl Gate {
    fn note_submitted(&mut self) {
        self.submitted = self.submitted.saturating_add(1);
    }
}

/// A disk whose next sync waits, once it is armed, until three more records were submitted.
#[derive(Drop)]
struct Holding<'a, D: Disk + Drop, R: Wait + Clock> {
    inner: D,
    rt: &'a R,
    gate: &'a Mutex<Gate>,
    armed: bool,
}

/// Waits for the three, if it is armed.
fn hold<R: Wait + Clock>(rt: &R, gate: &Mutex<Gate>, armed: &mut bool) {
    if !*armed {
        return;
    }
    *armed = false;
    gate.lock(rt).reached = true;
    for _ in 0..LOOKS {
        if gate.lock(rt).submitted == 3 {
            return;
        }
        thread::sleep(rt, Duration::from_micros(100));
    }
    gate.lock(rt).gave_up = true;
}

impl<D: Disk + Drop, R: Wait + Clock> Disk for Holding<'_, D, R> {
    ghost honest = { D.honest };

    ghost seen = { λ d. D.seen d.inner };

    ghost moments = { λ d. D.moments d.inner };

    ghost faults = { λ d. D.faults d.inner };

    ghost seen_is_image = { λ d honest side. D.seen_is_image d.inner honest side };

    fn len(&mut self, side: Which) -> Result<usize, DeviceFault> {
        self.inner.len(side)
    }

    fn read(&mut self, side: Which, at: usize, buf: &mut [u8]) -> Result<(), DeviceFault> {
        self.inner.read(side, at, buf)
    }

    fn write_at(&mut self, side: Which, at: usize, bytes: &[u8]) -> Result<(), DeviceFault> {
        self.inner.write_at(side, at, bytes)
    }

    fn cut(&mut self, side: Which, len: usize) -> Result<(), DeviceFault> {
        self.inner.cut(side, len)
    }

    fn sync(&mut self, side: Which) -> Result<(), DeviceFault> {
        hold(self.rt, self.gate, &mut self.armed);
        self.inner.sync(side)
    }
}

fn wait_for_sync<R: Wait + Clock>(rt: &R, gate: &Mutex<Gate>) {
    for _ in 0..LOOKS {
        if gate.lock(rt).reached {
            return;
        }
        thread::sleep(rt, Duration::from_micros(100));
    }
    gate.lock(rt).gave_up = true;
}

/// Submits one more record.
fn submit_one<R: Wait + Clock, D: Disk + Drop>(
    rt: &R,
    alloc: Global,
    flusher: &FlusherIn<D>,
    gate: &Mutex<Gate>,
    target: &[u8],
) -> Option<()> {
    submitted(alloc, &mut flusher.board.lock(rt), target)?;
    gate.lock(rt).note_submitted();
    Some(())
}

/// The batch of a record, once it was written.
fn batch_of<R: Wait + Clock, D: Disk + Drop>(
    rt: &R,
    alloc: Global,
    flusher: &FlusherIn<D>,
    target: &[u8],
    ticket: usize,
) -> Option<usize> {
    acknowledged(rt, alloc, flusher, target, Ticket::new(ticket)).ok()
}

/// Submits three records once the first sync has begun. The batches of the three, once they were written.
fn three_more<R: Wait + Clock, D: Disk + Drop>(
    rt: &R,
    alloc: Global,
    flusher: &FlusherIn<D>,
    gate: &Mutex<Gate>,
) -> Option<[usize; 3]> {
    wait_for_sync(rt, gate);
    submit_one(rt, alloc, flusher, gate, b"b")?;
    submit_one(rt, alloc, flusher, gate, b"c")?;
    submit_one(rt, alloc, flusher, gate, b"d")?;
    let first = batch_of(rt, alloc, flusher, b"b", 1)?;
    let second = batch_of(rt, alloc, flusher, b"c", 2)?;
    let third = batch_of(rt, alloc, flusher, b"d", 3)?;
    Some([first, second, third])
}

/// A flusher of four targets over a disk whose next sync waits.
fn waiting_flusher<'a, R: Wait + Clock>(
    rt: &'a R,
    alloc: Global,
    gate: &'a Mutex<Gate>,
) -> Result<FlusherIn<Holding<'a, MemDisk, R>>, Fail> {
    let disk = Holding {
        inner: MemDisk::new(alloc),
        rt,
        gate,
        armed: false,
    };
    let mut store = opened(alloc, disk)?;
    store.log.disk.armed = true;
    let board = board(alloc, &FOUR, store.state())?;
    Ok(FlusherIn {
        form: Form::Plain,
        site: Mutex::new(site_of(alloc, store)?),
        board: Mutex::new(board),
    })
}

/// The batch of a record, and those of three that are submitted while it is written.
type Batches = (Option<usize>, Option<[usize; 3]>);

/// None where one waited in vain.
fn shared<R: Threads + Wait + Clock + Sync>(
    rt: &R,
    alloc: Global,
) -> Result<Option<Batches>, Fail> {
    let gate = Mutex::new(Gate {
        reached: false,
        submitted: 0,
        gave_up: false,
    });
    let flusher = waiting_flusher(rt, alloc, &gate)?;
    let batches = joined(rt, alloc, &flusher, &gate);
    if gate.lock(rt).gave_up {
        return Ok(None);
    }
    Ok(batches)
}

fn joined<R: Threads + Wait + Clock + Sync, D: Disk + Drop + Send>(
    rt: &R,
    alloc: Global,
    flusher: &FlusherIn<D>,
    gate: &Mutex<Gate>,
) -> Option<Batches> {
    let (_node, ticket) = submitted(alloc, &mut flusher.board.lock(rt), b"a")?;
    Some(thread::join(
        rt,
        || acknowledged(rt, alloc, flusher, b"a", ticket).ok(),
        || three_more(rt, alloc, flusher, gate),
    ))
}

#[test]
fn one_batch_for_three(rt: HostRuntime) -> Result<(), Fail> {
    let batches = shared(&rt, rt.alloc())?;
    assert_eq!(rt; batches, Some((Some(0), Some([1, 1, 1]))));
    Ok(())
}
