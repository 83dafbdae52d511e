//! A pool that ends or faults: what a worker read goes back, and it reads no more.
use crate::planned_pipe::{PlannedPipe, Stop, Watch};
use jb_slots::{Bank, End, MemoryBank, MemoryPool, Slots, Taken};
use std::alloc::Global;
use std::process::Abort;
use std::sync::Wait;
use std::test::Fail;
use std::thread;
use std::thread::Threads;

/// A pool of these tokens, and how its pipe stops behind so many reads; the bytes that a worker reads and gives back; what lies
/// in the pool then.
struct Row {
    name: &'static str,
    tokens: &'static [u8],
    stop: Stop,
    good_reads: u32,
    bytes: &'static [u8],
    left: &'static [u8],
}

static ROWS: [Row; 8] = [
    Row {
        name: "an end at the first take",
        tokens: b"abc",
        stop: Stop::End,
        good_reads: 0,
        bytes: b"",
        left: b"abc",
    },
    Row {
        name: "an end at the second take",
        tokens: b"abc",
        stop: Stop::End,
        good_reads: 1,
        bytes: b"a",
        left: b"bca",
    },
    Row {
        name: "an end at the last take",
        tokens: b"abc",
        stop: Stop::End,
        good_reads: 3,
        bytes: b"abc",
        left: b"abc",
    },
    Row {
        name: "a fault at the first take",
        tokens: b"abc",
        stop: Stop::Fault,
        good_reads: 0,
        bytes: b"",
        left: b"abc",
    },
    Row {
        name: "a fault at the second take",
        tokens: b"abc",
        stop: Stop::Fault,
        good_reads: 1,
        bytes: b"a",
        left: b"bca",
    },
    Row {
        name: "a fault at the last take",
        tokens: b"abc",
        stop: Stop::Fault,
        good_reads: 3,
        bytes: b"abc",
        left: b"abc",
    },
    Row {
        name: "an end while the worker waits",
        tokens: b"",
        stop: Stop::End,
        good_reads: 2,
        bytes: b"",
        left: b"",
    },
    Row {
        name: "a fault while the worker waits",
        tokens: b"",
        stop: Stop::Fault,
        good_reads: 2,
        bytes: b"",
        left: b"",
    },
];

impl Row {
    // The reads of the worker, of which the last one meets the stop.
    fn reads(&self) -> u32 {
        self.good_reads.saturating_add(1)
    }
}

// A worker's turns: it takes a slot and gives it back.
fn turns<R: Wait, B: Bank>(rt: &R, slots: &Slots, bank: &mut B, count: u32) -> bool {
    let mut all_went_back = true;
    for _ in 0..count {
        let slot = slots.acquire(rt, bank);
        if slots.release(rt, slot, bank).is_err() {
            all_went_back = false;
        }
    }
    all_went_back
}

// Holds the implicit slot until the worker has read so often, and tells once it holds it.
fn hold<R: Wait, B: Bank>(
    rt: &R,
    slots: &Slots,
    bank: &mut B,
    held: &Watch,
    watch: &Watch,
    reads: u32,
) -> bool {
    let slot = slots.acquire(rt, bank);
    held.note(rt);
    watch.wait_for(rt, u64::from(reads));
    slots.release(rt, slot, bank).is_ok()
}

// Both at once: the worker begins once the implicit slot is held, and makes three turns after its pipe has stopped.
fn side_by_side<R: Threads + Wait + Sync, W: Bank + Send, H: Bank + Send>(
    rt: &R,
    worker: &mut W,
    holder: &mut H,
    watch: &Watch,
    reads: u32,
) -> bool {
    let (slots, held) = (Slots::new(), Watch::new());
    let (shared_slots, shared) = (&slots, &held);
    let (all_went_back, released) = thread::join(
        rt,
        || {
            shared.wait_for(rt, 1);
            turns(rt, shared_slots, worker, reads.saturating_add(3))
        },
        || hold(rt, shared_slots, holder, shared, watch, reads),
    );
    all_went_back && released
}

fn pool_holds<R: Wait>(end: &mut MemoryBank<'_, R>, tokens: &[u8]) -> bool {
    for token in tokens {
        if end.take() != Ok(Taken::Token(*token)) {
            return false;
        }
    }
    end.take() == Ok(Taken::NothingNow)
}

// While the implicit slot is held elsewhere, a worker makes some turns with bytes and meets the stop of its pipe; it
// then gets the implicit slot, and no turn that follows reads again.
fn is_so<'a, R: Threads + Wait + Sync>(
    rt: &'a R,
    row: &Row,
    worker: &mut End<PlannedPipe<'a, R>>,
    holder: &mut MemoryBank<'a, R>,
    watch: &Watch,
) -> bool {
    side_by_side(rt, worker, holder, watch, row.reads())
        && watch.reads(rt) == u64::from(row.reads())
        && worker.faulted() == matches!(row.stop, Stop::Fault)
        && worker.bytes_read() == row.bytes
        && worker.bytes_given() == row.bytes
        && pool_holds(holder, row.left)
}

fn row_is_so<R: Threads + Wait + Sync>(rt: &R, alloc: Global, row: &Row) -> Result<bool, Fail> {
    let pool = MemoryPool::new(alloc, row.tokens)?;
    let watch = Watch::new();
    let pipe = PlannedPipe {
        rt,
        inner: pool.pipe(rt),
        reads_left: row.good_reads,
        stop: row.stop,
        watch: &watch,
    };
    let mut worker = End::new(alloc, pipe, 8)?;
    let mut holder = pool.end(rt, alloc, 4)?;
    Ok(is_so(rt, row, &mut worker, &mut holder, &watch))
}

fn expect_row<R: Threads + Wait + Abort + Sync>(
    rt: &R,
    alloc: Global,
    row: &Row,
) -> Result<(), Fail> {
    let is_so = row_is_so(rt, alloc, row)?;
    assert!(rt; is_so, "{}", row.name);
    Ok(())
}

#[test]
fn a_worker_whose_pool_stops_reads_no_more(rt: HostRuntime) -> Result<(), Fail> {
    for row in &ROWS {
        expect_row(&rt, rt.alloc(), row)?;
    }
    Ok(())
}
