//! Each growth refused in turn. Under `rt try --test --fail-alloc N` the Nth allocation of each test is refused. Where
//! that is one of its preparations, the test ends with a failure that says so.

use crate::acknowledged::acknowledged;
use bd_flusher::{FlushFault, FlusherIn, Receipt, SiteIn};
use bd_ledger::Ticket;
use bd_lists::BoardIn;
use run_doubles::{Asked, board, flush, opened, site_of, submitted, take_in};
use st_disk::Disk;
use st_doubles::Fuse;
use st_memory::MemDisk;
use st_records::Form;
use std::alloc::{AllocError, Global};
use std::sync::{Mutex, Wait};
use std::test::Fail;

/// More calls than any test makes.
const MANY: u64 = 1000;

const TWO: Asked = Asked {
    makefile: "all: a b\na:\n\ttrue\nb:\n\ttrue\n",
    files: &[],
};

/// A disk that knows how many calls it has left.
trait Counted {
    fn calls_left(&self) -> u64;
}

impl<D: Disk + Drop> Counted for Fuse<D> {
    fn calls_left(&self) -> u64 {
        self.plan.calls_left
    }
}

/// A disk that has room for all that a test notes.
fn roomy(alloc: Global) -> Result<Fuse<MemDisk>, AllocError> {
    let mut disk = MemDisk::new(alloc);
    disk.reserve(100, 10_000)?;
    Ok(Fuse::new(disk, MANY))
}

/// A site, and a board of two targets.
fn pair<D: Disk + Drop>(alloc: Global, disk: D) -> Result<(SiteIn<D>, BoardIn<Receipt>), Fail> {
    let store = opened(alloc, disk)?;
    let board = board(alloc, &TWO, store.state())?;
    Ok((site_of(alloc, store)?, board))
}

/// Takes in, and once more where memory was refused: then nothing had changed.
fn takes_in_all<D: Disk + Drop>(
    alloc: Global,
    site: &mut SiteIn<D>,
    board: &mut BoardIn<Receipt>,
) -> bool {
    let waiting = board.unflushed();
    let first = take_in(alloc, site, board);
    if first != Err(FlushFault::OutOfMemory) {
        return first == Ok(()) && board.unflushed() == 0;
    }
    board.unflushed() == waiting && take_in(alloc, site, board) == Ok(()) && board.unflushed() == 0
}

/// How many calls the disk has left, and how many records are told.
fn counts<D: Disk + Drop + Counted>(site: &SiteIn<D>) -> (u64, usize) {
    (site.store().log.disk.calls_left(), site.told().len())
}

/// Flushes, and once more where memory was refused: then no call was made, and what was held is written.
fn flushes_all<D: Disk + Drop + Counted>(alloc: Global, site: &mut SiteIn<D>) -> bool {
    let before = counts(site);
    let first = flush(alloc, site);
    if first != Err(FlushFault::OutOfMemory) {
        return first == Ok(());
    }
    counts(site) == before && flush(alloc, site) == Ok(())
}

/// Submits two records and writes them as one batch. How many are told then.
fn written<D: Disk + Drop + Counted>(
    alloc: Global,
    site: &mut SiteIn<D>,
    board: &mut BoardIn<Receipt>,
) -> Result<usize, Fail> {
    submitted(alloc, board, b"a").ok_or("nothing was submitted")?;
    submitted(alloc, board, b"b").ok_or("nothing was submitted")?;
    if takes_in_all(alloc, site, board) && flushes_all(alloc, site) {
        return Ok(site.told().len());
    }
    Ok(0)
}

fn written_by_a_pair<D: Disk + Drop + Counted>(alloc: Global, disk: D) -> Result<usize, Fail> {
    let (mut site, mut board) = pair(alloc, disk)?;
    written(alloc, &mut site, &mut board)
}

#[test]
fn a_batch_that_wanted_memory_is_written_again(rt: HostRuntime) -> Result<(), Fail> {
    let disk = roomy(rt.alloc())?;
    let told = written_by_a_pair(rt.alloc(), disk)?;
    assert_eq!(rt; told, 2);
    Ok(())
}

fn flusher<D: Disk + Drop>(alloc: Global, disk: D) -> Result<FlusherIn<D>, Fail> {
    let (site, board) = pair(alloc, disk)?;
    Ok(FlusherIn {
        form: Form::Plain,
        site: Mutex::new(site),
        board: Mutex::new(board),
    })
}

/// The ticket of a flusher's next record.
fn submitted_to<R: Wait + AllocGlobal, D: Disk + Drop>(
    rt: &R,
    flusher: &FlusherIn<D>,
    target: &[u8],
) -> Result<Ticket, Fail> {
    match submitted(rt.alloc(), &mut flusher.board.lock(rt), target) {
        Some((_node, ticket)) => Ok(ticket),
        None => Err("nothing was submitted".into()),
    }
}

/// The batch of the first record, asked for once more where memory was refused.
fn acknowledged_twice<R: Wait + AllocGlobal, D: Disk + Drop>(
    rt: &R,
    flusher: &FlusherIn<D>,
    ticket: Ticket,
) -> Result<usize, FlushFault> {
    match acknowledged(rt, rt.alloc(), flusher, b"a", ticket) {
        Err(FlushFault::OutOfMemory) => acknowledged(rt, rt.alloc(), flusher, b"a", ticket),
        answer => answer,
    }
}

/// The first record's number and batch.
fn first_record<R: Wait + AllocGlobal, D: Disk + Drop>(
    rt: &R,
    disk: D,
) -> Result<(usize, Result<usize, FlushFault>), Fail> {
    let flusher = flusher(rt.alloc(), disk)?;
    first_record_of(rt, &flusher)
}

fn first_record_of<R: Wait + AllocGlobal, D: Disk + Drop>(
    rt: &R,
    flusher: &FlusherIn<D>,
) -> Result<(usize, Result<usize, FlushFault>), Fail> {
    let ticket = submitted_to(rt, flusher, b"a")?;
    Ok((ticket.number(), acknowledged_twice(rt, flusher, ticket)))
}

#[test]
fn an_acknowledgement_that_wanted_memory_comes_again(rt: HostRuntime) -> Result<(), Fail> {
    let disk = roomy(rt.alloc())?;
    let first = first_record(&rt, disk)?;
    assert_eq!(rt; first, (0, Ok(0)));
    Ok(())
}

/// A ticket, and what is told of two records at it.
type TicketAndTold = (Ticket, Result<usize, FlushFault>, Result<usize, FlushFault>);

/// The first record's ticket, what is told of it, and what at the same ticket of a record that was not submitted.
fn own_and_other<R: Wait + AllocGlobal, D: Disk + Drop>(
    rt: &R,
    disk: D,
) -> Result<TicketAndTold, Fail> {
    let flusher = flusher(rt.alloc(), disk)?;
    own_and_other_of(rt, &flusher)
}

fn own_and_other_of<R: Wait + AllocGlobal, D: Disk + Drop>(
    rt: &R,
    flusher: &FlusherIn<D>,
) -> Result<TicketAndTold, Fail> {
    let ticket = submitted_to(rt, flusher, b"a")?;
    let own = acknowledged(rt, rt.alloc(), flusher, b"a", ticket);
    let other = acknowledged(rt, rt.alloc(), flusher, b"b", ticket);
    Ok((ticket, own, other))
}

#[test]
fn a_record_that_was_not_submitted_is_unknown(rt: HostRuntime) -> Result<(), Fail> {
    let disk = roomy(rt.alloc())?;
    let (ticket, own, other) = own_and_other(&rt, disk)?;
    assert_eq!(rt; (own, other), (Ok(0), Err(FlushFault::Unknown(ticket))));
    Ok(())
}

/// What is told of a record at first and again, and how many wait then.
type ToldAgain = (Result<usize, FlushFault>, Result<usize, FlushFault>, usize);

/// What is told of the first record, what once more while another one waits, and how many wait then.
fn told_again<R: Wait + AllocGlobal, D: Disk + Drop>(rt: &R, disk: D) -> Result<ToldAgain, Fail> {
    let flusher = flusher(rt.alloc(), disk)?;
    told_again_of(rt, &flusher)
}

fn told_again_of<R: Wait + AllocGlobal, D: Disk + Drop>(
    rt: &R,
    flusher: &FlusherIn<D>,
) -> Result<ToldAgain, Fail> {
    let ticket = submitted_to(rt, flusher, b"a")?;
    let first = acknowledged(rt, rt.alloc(), flusher, b"a", ticket);
    submitted_to(rt, flusher, b"b")?;
    let again = acknowledged(rt, rt.alloc(), flusher, b"a", ticket);
    let waiting = flusher.board.lock(rt).unflushed();
    Ok((first, again, waiting))
}

#[test]
fn a_record_that_is_told_writes_no_other(rt: HostRuntime) -> Result<(), Fail> {
    let disk = roomy(rt.alloc())?;
    let told = told_again(&rt, disk)?;
    assert_eq!(rt; told, (Ok(0), Ok(0), 1));
    Ok(())
}
