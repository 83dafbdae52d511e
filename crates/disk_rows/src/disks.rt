//! Calls of single disks: one that stops, one that fails a call, and the disk in memory with what a power cut leaves of it.
use crate::cuts::{Cut, after};
use crate::script::answers;
use row_files::{RowFault, Words, bytes};
use st_disk::Which;
use st_doubles::{FailsOne, Fuse, Plan, Planned, Stops};
use st_memory::MemDisk;
use std::alloc::{AllocError, Global};

// Within each disk that is tried stands one that counts: it passes more calls than are made.
const COUNTED: u64 = 100;

/// What the shortest and the longest cut leave, with `?` in each open place, and the longest with `123` in them.
static CUTS: [Cut; 3] = [
    Cut::Shortest(b"?"),
    Cut::Longest(b"?"),
    Cut::Longest(b"123"),
];

/// What the longest cut leaves without a filling.
static UNFILLED: [Cut; 1] = [Cut::Longest(b"")];

fn all_cuts() -> &'static [Cut] {
    &CUTS
}

fn unfilled() -> &'static [Cut] {
    &UNFILLED
}

/// Answers a call: its kind, its numbers, what the disk holds at first (`-`: nothing), and a script.
pub fn call_disk(alloc: Global, said: &mut String, words: &mut Words<'_>) -> Result<(), RowFault> {
    match words.next() {
        "stop" => stopped(alloc, said, words),
        "fail" => failing(alloc, said, words),
        "memory" => left(alloc, said, words, &[]),
        "cuts" => cuts(alloc, said, words),
        "unfilled" => left(alloc, said, words, unfilled()),
        "reserve" => reserve(alloc, said, words),
        _ => Err(RowFault::Word),
    }
}

fn stops(passing: usize) -> Stops {
    Stops {
        calls_left: passing as u64,
    }
}

pub(crate) fn fails_one(passing: usize) -> FailsOne {
    FailsOne {
        calls_left: passing as u64,
        failed: false,
    }
}

fn counting(alloc: Global, held: &str) -> Result<Fuse<MemDisk>, AllocError> {
    let disk = MemDisk::holding(alloc, held.as_bytes(), b"")?;
    Ok(Fuse::new(disk, COUNTED))
}

fn stopped(alloc: Global, said: &mut String, words: &mut Words<'_>) -> Result<(), RowFault> {
    let plan = stops(words.number()?);
    planned(alloc, said, plan, words)
}

fn failing(alloc: Global, said: &mut String, words: &mut Words<'_>) -> Result<(), RowFault> {
    let plan = fails_one(words.number()?);
    planned(alloc, said, plan, words)
}

fn planned<P: Plan + Drop>(
    alloc: Global,
    said: &mut String,
    plan: P,
    words: &mut Words<'_>,
) -> Result<(), RowFault> {
    let mut disk = Planned {
        inner: counting(alloc, words.next())?,
        plan,
        refused: 0,
    };
    let answered = say_planned(said, &mut disk, words.rest);
    drop(disk);
    answered
}

/// The answers, how many more calls the disk within would pass, and what it then holds.
fn say_planned<P: Plan + Drop>(
    said: &mut String,
    disk: &mut Planned<Fuse<MemDisk>, P>,
    script: &str,
) -> Result<(), RowFault> {
    answers(said, disk, script)?;
    write!(said, " {} ", disk.inner.plan.calls_left)?;
    Ok(bytes::say_all(said, disk.inner.inner.bytes(Which::A))?)
}

fn bytes_of(word: &str) -> &[u8] {
    if word == "-" {
        return b"";
    }
    word.as_bytes()
}

fn holding(alloc: Global, words: &mut Words<'_>) -> Result<MemDisk, AllocError> {
    let a = bytes_of(words.next());
    let b = bytes_of(words.next());
    MemDisk::holding(alloc, a, b)
}

fn say_side(said: &mut String, disk: &MemDisk) -> Result<(), AllocError> {
    said.push(' ')?;
    bytes::say_all(said, disk.bytes(Which::A))
}

fn say_left(
    alloc: Global,
    said: &mut String,
    disk: &MemDisk,
    cuts: &[Cut],
) -> Result<(), RowFault> {
    for cut in cuts {
        let left = after(alloc, disk, *cut)?;
        let answered = say_side(said, &left);
        drop(left);
        answered?;
    }
    Ok(())
}

/// The answers, and what each of some cuts leaves of side A.
fn left(
    alloc: Global,
    said: &mut String,
    words: &mut Words<'_>,
    cuts: &[Cut],
) -> Result<(), RowFault> {
    let mut disk = holding(alloc, words)?;
    let answered = answer_and_cut(alloc, said, &mut disk, words.rest, cuts);
    drop(disk);
    answered
}

fn answer_and_cut(
    alloc: Global,
    said: &mut String,
    disk: &mut MemDisk,
    script: &str,
    cuts: &[Cut],
) -> Result<(), RowFault> {
    answers(said, disk, script)?;
    say_left(alloc, said, disk, cuts)
}

/// The answers, what reads then give of side A, and what cuts leave of it.
fn cuts(alloc: Global, said: &mut String, words: &mut Words<'_>) -> Result<(), RowFault> {
    let mut disk = holding(alloc, words)?;
    let answered = answer_and_read(alloc, said, &mut disk, words.rest);
    drop(disk);
    answered
}

fn answer_and_read(
    alloc: Global,
    said: &mut String,
    disk: &mut MemDisk,
    script: &str,
) -> Result<(), RowFault> {
    answers(said, disk, script)?;
    say_side(said, disk)?;
    say_left(alloc, said, disk, all_cuts())
}

/// The answers of a disk that has room for so many calls and bytes, or `refused`.
fn reserve(alloc: Global, said: &mut String, words: &mut Words<'_>) -> Result<(), RowFault> {
    let calls = words.number()?;
    let bytes = words.number()?;
    let mut disk = MemDisk::new(alloc);
    let answered = reserve_and_answer(said, &mut disk, calls, bytes, words.rest);
    drop(disk);
    answered
}

fn reserve_and_answer(
    said: &mut String,
    disk: &mut MemDisk,
    calls: usize,
    bytes: usize,
    script: &str,
) -> Result<(), RowFault> {
    if disk.reserve(calls, bytes).is_err() {
        return Ok(said.push_str("refused")?);
    }
    answers(said, disk, script)
}
