//! States as text: each entry in byte order of the names, written as a record of `notation`, with a `;` behind it.
use byte_strings::Iter;
use row_files::bytes;
use st_packed::PackedEntry;
use st_records::Phase;
use st_state::{Listed, State};
use std::alloc::{AllocError, Global};

fn say_marked(said: &mut String, mark: &str, items: Iter<'_>) -> Result<(), AllocError> {
    for item in items {
        said.push_str(mark)?;
        bytes::say(said, item)?;
    }
    Ok(())
}

/// What stands for explicit names that are known to be none.
fn no_names(explicit: Option<Iter<'_>>) -> &'static str {
    match explicit {
        Some(names) => { if names.len() == 0 { " :" } else { "" } }
        None => "",
    }
}

fn kind(phase: Phase) -> &'static str {
    match phase {
        Phase::Begun => "begun ",
        Phase::Done => "done ",
        Phase::Failed(_) => "failed ",
    }
}

fn say_status(said: &mut String, phase: Phase) -> Result<(), AllocError> {
    match phase {
        Phase::Failed(status) => write!(said, " ={status}"),
        _ => Ok(()),
    }
}

fn say_entry(said: &mut String, name: &[u8], entry: &PackedEntry) -> Result<(), AllocError> {
    said.push_str(kind(entry.phase()))?;
    bytes::say(said, name)?;
    say_status(said, entry.phase())?;
    say_marked(said, " $", entry.commands())?;
    say_marked(said, " <", entry.hidden())?;
    say_marked(said, " :", entry.names())?;
    said.push_str(no_names(entry.explicit()))?;
    said.push(';')
}

fn say_entries(said: &mut String, named: &Listed<'_>) -> Result<(), AllocError> {
    for place in 0..named.len() {
        let (name, entry) = named.at(place);
        say_entry(said, name, entry)?;
    }
    Ok(())
}

/// Says what a state knows; of no names, `nothing`.
pub fn say_state(alloc: Global, said: &mut String, state: &State) -> Result<(), AllocError> {
    let named = state.in_byte_order(alloc)?;
    if named.len() == 0 {
        return said.push_str("nothing");
    }
    say_entries(said, &named)
}

/// Says a text unless it is among those that were said, with ` or ` between them.
pub fn say_once(said: &mut String, text: &str) -> Result<(), AllocError> {
    for before in said.as_str().split(" or ") {
        if before == text {
            return Ok(());
        }
    }
    if !said.is_empty() {
        said.push_str(" or ")?;
    }
    said.push_str(text)
}
