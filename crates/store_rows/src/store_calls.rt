//! Calls of two sides and of the store that is open over them.
use crate::held::{Change, Held, OverMemory, changed, opened};
use crate::power_cuts::say_cuts;
use crate::sides::Sides;
use crate::sweeps::sweep;
use record_rows::{say_state, side_named};
use row_files::{RowFault, Words, bytes};
use st_disk::Disk;
use st_file::{CommitFault, Extent};
use st_records::HashKey;
use st_recovery::{Store, choose, recover};
use std::alloc::{AllocError, Global};
use std::mem;

/// Answers a call behind `store`.
pub(crate) fn call_store(
    alloc: Global,
    said: &mut String,
    sides: &mut Sides,
    words: &mut Words<'_>,
) -> Result<(), RowFault> {
    match words.next() {
        "recover" => Ok(say_recovered(alloc, said, &sides.a, &sides.b)?),
        "chosen" => Ok(say_chosen(alloc, said, &sides.a, &sides.b)?),
        "open" => open(alloc, said, sides),
        "sweep" => sweep(alloc, said, sides, words),
        name => call_held(alloc, said, &mut sides.held, name, words),
    }
}

fn call_held<D: Disk + Drop + OverMemory>(
    alloc: Global,
    said: &mut String,
    held: &mut Held<D>,
    name: &str,
    words: &mut Words<'_>,
) -> Result<(), RowFault> {
    match name {
        "reopen" => reopen(alloc, said, held),
        "bytes" | "cuts" | "refused" => ask_disk(alloc, said, held.device()?, name, words),
        "calls" => counted(alloc, said, held.store()?, words),
        _ => change_or_ask(alloc, said, held.store()?, name, words.rest),
    }
}

fn ask_disk<D: OverMemory>(
    alloc: Global,
    said: &mut String,
    disk: &D,
    name: &str,
    words: &mut Words<'_>,
) -> Result<(), RowFault> {
    match name {
        "bytes" => say_bytes(said, disk, words),
        "cuts" => say_cuts(alloc, said, "", disk.memory()),
        _ => Ok(say_refused(said, disk)?),
    }
}

fn say_recovered(alloc: Global, said: &mut String, a: &[u8], b: &[u8]) -> Result<(), AllocError> {
    match recover(alloc, HashKey::fixed(), a, b) {
        Ok(state) => say_state(alloc, said, &state),
        Err(fault) => write!(said, "{fault:?}"),
    }
}

/// The side that counts, and what it has beside its records.
fn say_chosen(alloc: Global, said: &mut String, a: &[u8], b: &[u8]) -> Result<(), AllocError> {
    match choose(alloc, HashKey::fixed(), a, b) {
        Ok(Some(chosen)) => write!(said, "{:?} {:?}", chosen.side, chosen.extent),
        Ok(None) => said.push_str("none"),
        Err(fault) => write!(said, "{fault:?}"),
    }
}

/// Opens the store of the two sides.
fn open(alloc: Global, said: &mut String, sides: &mut Sides) -> Result<(), RowFault> {
    let disk = sides.device_at(alloc, sides.stop, sides.fail)?;
    Ok(open_disk(alloc, said, &mut sides.held, disk)?)
}

/// Opens what the disk holds once more.
fn reopen<D: Disk + Drop>(
    alloc: Global,
    said: &mut String,
    held: &mut Held<D>,
) -> Result<(), RowFault> {
    let disk = mem::replace(held, Held::Nothing).into_device()?;
    Ok(open_disk(alloc, said, held, disk)?)
}

fn open_disk<D: Disk + Drop>(
    alloc: Global,
    said: &mut String,
    held: &mut Held<D>,
    disk: D,
) -> Result<(), AllocError> {
    match opened(alloc, disk) {
        Ok(store) => {
            *held = Held::Store(store);
            said.push_str("ok")
        }
        Err((fault, disk)) => {
            *held = Held::Disk(disk);
            write!(said, "{fault:?}")
        }
    }
}

/// `calls CALL`: what the call says, and how many calls of the disk it makes.
fn counted<D: Disk + Drop + OverMemory>(
    alloc: Global,
    said: &mut String,
    store: &mut Store<D>,
    words: &mut Words<'_>,
) -> Result<(), RowFault> {
    let before = store.log.disk.calls_left();
    change(alloc, said, store, words.next(), words.rest)?;
    let calls = before.saturating_sub(store.log.disk.calls_left());
    Ok(write!(said, ", {calls} calls")?)
}

/// `commit RECORDS`, or `compact`: `ok`, or the fault.
fn change<D: Disk + Drop>(
    alloc: Global,
    said: &mut String,
    store: &mut Store<D>,
    name: &str,
    rest: &str,
) -> Result<(), RowFault> {
    let change = Change::of(alloc, name, rest)?;
    let answer = changed(alloc, store, &change);
    drop(change);
    Ok(say_change(said, answer?)?)
}

fn say_change(said: &mut String, answer: Result<(), CommitFault>) -> Result<(), AllocError> {
    match answer {
        Ok(()) => said.push_str("ok"),
        Err(fault) => write!(said, "{fault:?}"),
    }
}

fn change_or_ask<D: Disk + Drop>(
    alloc: Global,
    said: &mut String,
    store: &mut Store<D>,
    name: &str,
    rest: &str,
) -> Result<(), RowFault> {
    match asked(alloc, said, store, name) {
        Some(answered) => Ok(answered?),
        None => change(alloc, said, store, name, rest),
    }
}

/// Answers a question, where it is one.
fn asked<D: Disk + Drop>(
    alloc: Global,
    said: &mut String,
    store: &Store<D>,
    name: &str,
) -> Option<Result<(), AllocError>> {
    match name {
        "state" => Some(say_state(alloc, said, store.state())),
        "log" => Some(say_log(said, store)),
        "names" => Some(write!(said, "{}", store.state().len())),
        "dead" => Some(write!(said, "{}", store.is_dead())),
        _ => None,
    }
}

/// The open side, and what it has beside its records.
fn say_log<D: Disk + Drop>(said: &mut String, store: &Store<D>) -> Result<(), AllocError> {
    let extent = Extent {
        version: store.log.version,
        generation: store.log.generation,
        end: store.log.end as u64,
    };
    write!(said, "{:?} {extent:?}", store.log.side)
}

/// `bytes SIDE`: what a side holds.
fn say_bytes<D: OverMemory>(
    said: &mut String,
    disk: &D,
    words: &mut Words<'_>,
) -> Result<(), RowFault> {
    let side = side_named(words.next())?;
    Ok(bytes::say_all(said, disk.memory().bytes(side))?)
}

/// How many calls the disk has refused.
fn say_refused<D: OverMemory>(said: &mut String, disk: &D) -> Result<(), AllocError> {
    write!(said, "{}", disk.refused())
}
