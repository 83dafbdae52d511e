//! Stores, and their states as texts.

use bd_flusher::SiteIn;
use byte_strings::{ByteString, Iter};
use st_disk::Disk;
use st_file::OpenFault;
use st_memory::MemDisk;
use st_packed::PackedEntry;
use st_records::{Form, HashKey, Phase};
use st_recovery::{StoreIn, open_in};
use st_state::{Listed, State};
use std::alloc::{AllocError, Global};
use std::test::Fail;

/// The store of a disk.
pub fn opened<D: Disk + Drop>(alloc: Global, disk: D) -> Result<StoreIn<D>, OpenFault> {
    match open_in(alloc, HashKey::fixed(), Form::Plain, disk) {
        Ok(store) => Ok(store),
        Err((fault, _disk)) => Err(fault),
    }
}

/// A store on a new disk.
pub fn new_store(alloc: Global) -> Result<StoreIn<MemDisk>, Fail> {
    Ok(opened(alloc, MemDisk::new(alloc))?)
}

/// The site of a store.
pub fn site_of<D: Disk + Drop>(alloc: Global, store: StoreIn<D>) -> Result<SiteIn<D>, Fail> {
    if store.is_dead() {
        return Err("the store is dead".into());
    }
    match SiteIn::new(alloc, store) {
        Ok(site) => Ok(site),
        Err((fault, _store)) => Err(fault.into()),
    }
}

fn phase_line(alloc: Global, name: &[u8], phase: Phase) -> Result<String, AllocError> {
    let name = ByteString::from_slice(alloc, name)?;
    match phase {
        Phase::Begun => format!(in alloc; "begun {name}\n"),
        Phase::Done => format!(in alloc; "done {name}\n"),
        Phase::Failed(status) => format!(in alloc; "failed {name} {status}\n"),
    }
}

fn push_lines(
    alloc: Global,
    text: &mut String,
    sign: char,
    strings: Iter<'_>,
) -> Result<(), AllocError> {
    for string in strings {
        push_line(alloc, text, sign, string)?;
    }
    Ok(())
}

fn push_line(
    alloc: Global,
    text: &mut String,
    sign: char,
    string: &[u8],
) -> Result<(), AllocError> {
    let string = ByteString::from_slice(alloc, string)?;
    writeln!(text, "    {sign} {string}")
}

fn push_entry(
    alloc: Global,
    text: &mut String,
    name: &[u8],
    entry: &PackedEntry,
) -> Result<(), AllocError> {
    let line = phase_line(alloc, name, entry.phase())?;
    text.push_str(line.as_str())?;
    push_lines(alloc, text, '$', entry.commands())?;
    push_lines(alloc, text, '<', entry.hidden())?;
    push_lines(alloc, text, ':', entry.names())
}

fn push_entries(alloc: Global, text: &mut String, named: &Listed<'_>) -> Result<(), AllocError> {
    for place in 0..named.len() {
        let (name, entry) = named.at(place);
        push_entry(alloc, text, name, entry)?;
    }
    Ok(())
}

/// The state as a text: each name in byte order behind its phase, then its commands, its hidden and its explicit names.
pub fn listing(alloc: Global, state: &State) -> Result<String, AllocError> {
    let named = state.in_byte_order(alloc)?;
    let mut text = String::new(alloc);
    push_entries(alloc, &mut text, &named)?;
    Ok(text)
}
