//! The names of a state in byte order.

ghost use Rattle.std.specs.Prelude.{◌≡◌, ◌<◌, Some, length, slice_get, map as list_map};
ghost use Rattle.std.specs.List.{All};
ghost use Rattle.st_state.specs.Listed.{entry_at};

use crate::name_order::Ranked;
use crate::state::Entries;
use st_packed::PackedEntry;
use std::marker::Model;

/// The names of a state with their entries, in byte order of the names. Contracts see it as the list of these pairs.
///
/// It takes 16 bytes a name: names and entries stay where they are.
/// References beside the ranks take 32, and 24 more for a second list without ranks, both at once.
pub struct Listed<'a> {
    entries: &'a Entries,
    order: Vec<Ranked>,
}

impl<'a> Model for Listed<'a> {
    ghost use Rattle.std.specs.Prelude.{◌<◌, ℕ, List, length, map as list_map};
    ghost use Rattle.std.specs.List.{All};
    ghost use Rattle.st_records.specs.declared.record.Entry.{Entry};
    ghost use Rattle.st_state.specs.Listed.{entry_at};

    ghost Value = { List (List ℕ × Entry) };

    ghost view = { λ l. list_map (λ r. entry_at l.entries.now.entries r.place) l.order.items };

    ghost invariant = { λ l. All (λ r. r.place < length l.entries.now.entries) l.order.items };
}

impl Drop for Listed<'_> {
    fn drop(self) {
        let Listed {
            entries: _,
            order: _,
        } = self;
    }
}

impl<'a> Listed<'a> {
    pub(crate) fn new(entries: &'a Entries, order: Vec<Ranked>) -> Listed<'a>
        requires { All (λ r. r.place < length entries.now.entries) order.items }
        ensures { result ≡ list_map (λ r. entry_at entries.now.entries r.place) order.items }
    {
        Listed { entries, order }
    }

    /// How many names there are.
    pub fn len(&self) -> usize
        ensures { result ≡ length self.now }
    {
        self.order.len()
    }

    /// The name at this place in byte order, and its entry.
    pub fn at(&self, place: usize) -> (&'a [u8], &'a PackedEntry)
        requires { place < length self.now }
        ensures { slice_get self.now place ≡ Some (result.0.now, result.1.now) }
    {
        let (name, entry) = self.entries.get_index(self.order[place].place).unwrap();
        (name.as_slice(), entry)
    }
}
