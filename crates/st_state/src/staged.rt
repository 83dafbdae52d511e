//! A batch of records on its way into the state. All that it takes is grown before the first change, so that it can be
//! taken in where no step may fail any more.

ghost use Rattle.std.specs.Prelude.{◌≡◌, ◌+◌, ◌<◌, ◌≤◌, length};
ghost use Rattle.std.specs.FinMap as map;
ghost use Rattle.indexmap.specs.IndexMap.{spare};
ghost use Rattle.st_state.specs.State.{by_name, apply_record, known_hidden, replay, unfinished};

use crate::state::{Entries, State};
use crate::taking::take_in;
use st_packed::PackedRecord;

/// A state and a batch of records that it is about to take in.
///
/// The records stand here as copies, and there is room for as many new names. So neither outcome takes memory or fails.
#[derive(Debug)]
pub struct Staged {
    pub(crate) entries: Entries,
    pub(crate) events: Vec<PackedRecord>,
    ghost room: { length events.items ≤ spare entries },
}

impl Drop for Staged {
    fn drop(self) {
        let Staged {
            entries: _,
            events: _,
        } = self;
    }
}

impl Staged {
    ghost use Rattle.st_state.specs.Staged.{staged_state, staged_records};

    /// The state with the whole batch taken in, from its first record to its last.
    pub fn finish(self) -> State
        ensures { result ≡ replay (staged_state self) (staged_records self) }
    {
        let Staged {
            mut entries,
            events,
        } = self;
        put_all(&mut entries, events);
        State::from_entries(entries)
    }

    /// The state as it was; the batch is let go.
    pub fn discard(self) -> State
        ensures { result ≡ staged_state self }
    {
        let Staged { entries, events: _ } = self;
        State::from_entries(entries)
    }
}

fn put_all(entries: &mut Entries, events: Vec<PackedRecord>)
    requires { length events.items ≤ spare entries.old }
    ensures { by_name (λ k. k) entries.new.entries ≡ replay (by_name (λ k. k) entries.old.entries) events.items }
{
    let alloc = *entries.allocator();
    for event in events {
        take_in(alloc, entries, event).unwrap();
    }
}
