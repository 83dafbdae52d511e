//! Calls of states.
use crate::notation::records_of;
use crate::shown::{say_once, say_state};
use byte_strings::ByteString;
use row_files::{RowFault, bytes};
use st_packed::PackedRecord;
use st_records::Record;
use st_state::{Staged, State};
use std::alloc::{AllocError, Global};

fn applied(alloc: Global, records: &[Record]) -> Result<State, AllocError> {
    let mut state = State::new(alloc);
    for record in records {
        state.apply(alloc, record)?;
    }
    Ok(state)
}

fn taken_over(alloc: Global, records: &[Record]) -> Result<State, AllocError> {
    let mut state = State::new(alloc);
    for record in records {
        state.apply_owned(alloc, PackedRecord::of(alloc, record)?)?;
    }
    Ok(state)
}

fn staged(alloc: Global, state: State, records: &[Record]) -> Result<Staged, AllocError> {
    match state.stage(alloc, records) {
        Ok(staged) => Ok(staged),
        Err(_state) => Err(AllocError),
    }
}

/// Says a state, unless it was said.
fn say_unlike(alloc: Global, said: &mut String, state: &State) -> Result<(), AllocError> {
    let mut text = String::new(alloc);
    say_state(alloc, &mut text, state)?;
    say_once(said, text.as_str())
}

fn say_applied(alloc: Global, said: &mut String, records: &[Record]) -> Result<(), AllocError> {
    let state = applied(alloc, records)?;
    say_unlike(alloc, said, &state)?;
    say_unlike(alloc, said, &state.copy(alloc)?)
}

fn say_staged(alloc: Global, said: &mut String, records: &[Record]) -> Result<(), AllocError> {
    let state = staged(alloc, State::new(alloc), records)?.finish();
    say_unlike(alloc, said, &state)
}

/// `replay RECORDS`: the state that they leave: one by one, copied, as one batch, and taken over.
pub(crate) fn replay(alloc: Global, said: &mut String, text: &str) -> Result<(), RowFault> {
    let records = records_of(alloc, text)?;
    let answered = say_replayed(alloc, said, records.as_slice());
    drop(records);
    Ok(answered?)
}

fn say_replayed(alloc: Global, said: &mut String, records: &[Record]) -> Result<(), AllocError> {
    say_applied(alloc, said, records)?;
    say_staged(alloc, said, records)?;
    let state = taken_over(alloc, records)?;
    say_unlike(alloc, said, &state)
}

fn state_of(alloc: Global, text: &str) -> Result<State, RowFault> {
    let records = records_of(alloc, text)?;
    let state = applied(alloc, records.as_slice());
    drop(records);
    Ok(state?)
}

/// The state of the records before a `/`, with those behind it staged.
fn batch_over(alloc: Global, text: &str) -> Result<Staged, RowFault> {
    let (before, batch) = text.split_once('/').ok_or(RowFault::Word)?;
    let state = state_of(alloc, before)?;
    let batch = records_of(alloc, batch)?;
    let staged = staged(alloc, state, batch.as_slice());
    drop(batch);
    Ok(staged?)
}

/// `finish BEFORE / BATCH`, or `discard BEFORE / BATCH`: the state with a batch that is taken in, or beside one that is
/// let go.
pub(crate) fn batch(
    alloc: Global,
    said: &mut String,
    text: &str,
    is_taken_in: bool,
) -> Result<(), RowFault> {
    let staged = batch_over(alloc, text)?;
    let state = if is_taken_in {
        staged.finish()
    } else {
        staged.discard()
    };
    Ok(say_state(alloc, said, &state)?)
}

fn begun(alloc: Global, name: &str) -> Result<PackedRecord, RowFault> {
    let target = ByteString::new(bytes::read(alloc, name)?);
    let begun = Record::Begun { target };
    let packed = PackedRecord::of(alloc, &begun);
    drop(begun);
    Ok(packed?)
}

fn begin(alloc: Global, state: &mut State, name: &str) -> Result<(), RowFault> {
    let begun = begun(alloc, name)?;
    Ok(state.apply_owned(alloc, begun)?)
}

fn begin_all(alloc: Global, state: &mut State, names: &str) -> Result<(), RowFault> {
    for name in names.split(' ') {
        begin(alloc, state, name)?;
    }
    Ok(())
}

fn say_names(alloc: Global, said: &mut String, state: &State) -> Result<(), AllocError> {
    let named = state.in_byte_order(alloc)?;
    for place in 0..named.len() {
        if place > 0 {
            said.push(' ')?;
        }
        let (name, _entry) = named.at(place);
        bytes::say(said, name)?;
    }
    Ok(())
}

/// `order NAME ..`: the order in which a state lists names that it has seen in this order.
pub(crate) fn order(alloc: Global, said: &mut String, names: &str) -> Result<(), RowFault> {
    let mut state = State::new(alloc);
    begin_all(alloc, &mut state, names)?;
    Ok(say_names(alloc, said, &state)?)
}
