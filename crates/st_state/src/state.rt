//! The state: what the records so far say of each target, as a map from names to entries.

ghost use Rattle.std.specs.Prelude.{◌≡◌, ◌+◌, ◌<◌, ◌⊎◌, None, Some, OnOk, OnErr, IfOk, IfSome, MatchOption, length, map as list_map};
ghost use Rattle.std.specs.Option.{option_copied};
ghost use Rattle.std.specs.FinMap as map;
ghost use Rattle.st_state.specs.Keepable.{kept_bytes, kept_bytes_in};
ghost use Rattle.st_records.specs.Parts.{target_of};
ghost use Rattle.st_state.specs.State.{SetsEntry, apply_record, known_hidden, unfinished};

use crate::listed::Listed;
use crate::name_order::in_order;
use crate::staged::Staged;
use crate::taking::take_event;
use indexmap::{Equivalent, IndexMap};
use name_keys::{Name, NameEnds, NameRef};
use st_packed::{PackedEntry, PackedRecord, room_after_kept_in};
use st_records::{Form, HashKey, Phase, Record};
use st_unfinished::leave_unfinished;
use std::alloc::{AllocError, Global};
use std::marker::Model;

// Each name with its entry. Names are hashed under a key, so that a file's writer can't choose names that collide.
pub(crate) type Entries = IndexMap<Name, PackedEntry, HashKey>;

/// What is known of each target. Contracts see it as a finite map from names to entries.
///
/// The names stand in the order in which they were first seen, so that an entry is found by one look-up by hash. They
/// are sorted where they are listed.
///
/// A B-tree, which is in order at all times, took two to three times as long with four million names (22 November 2026).
#[derive(Debug)]
pub struct State {
    entries: Entries,
    /// How the names begin and end.
    ends: NameEnds,
}

impl Model for State {
    ghost use Rattle.st_state.specs.State.{StateMap, state_code, by_name};
    ghost use Rattle.st_state.specs.Ends.{AreEndsOf};

    ghost Value = { StateMap };

    ghost coded = { state_code };

    ghost view = { λ a. by_name (λ k. k) a.entries.entries };

    ghost invariant = { λ a. AreEndsOf a.ends (by_name (λ k. k) a.entries.entries) };
}

impl Drop for State {
    fn drop(self) {
        let State {
            entries: _,
            ends: _,
        } = self;
    }
}

impl State {
    ghost use Rattle.std.specs.Prelude.{IfErr};
    ghost use Rattle.st_state.specs.State.{by_name};
    ghost use Rattle.st_state.specs.Staged.{staged_state, staged_records};

    /// The state of no records: it knows no name. Its names are hashed under the fixed key.
    pub fn new(alloc: Global) -> State
        ensures { result ≡ map.empty }
    {
        State::with_key(alloc, HashKey::fixed())
    }

    /// The state of no records, whose names are hashed under this key.
    pub fn with_key(alloc: Global, key: HashKey) -> State
        ensures { result ≡ map.empty }
    {
        State {
            entries: IndexMap::with_hasher(alloc, key),
            ends: NameEnds::none(),
        }
    }

    /// Takes room for as many more names, where there is memory for it.
    pub fn reserve(&mut self, names: usize)
        ensures { self.new ≡ self.old }
    {
        let _ = self.entries.reserve(names);
    }

    /// How many names the state knows.
    pub fn len(&self) -> usize
        ensures { result ≡ map.len self.now }
    {
        self.entries.len()
    }

    /// What the state knows of `name`.
    pub fn get(&self, name: &[u8]) -> Option<&PackedEntry>
        ensures { option_copied result ≡ map.get self.now name.now }
    {
        self.entries.get(NameRef { bytes: name })
    }

    /// What the state knows of `name`, and the place to hand over with the next name. The entry at `place` is tried first,
    /// so that names asked for in the order in which they were first seen are found without a search, and of one that
    /// begins or ends as no name of the state does none is made.
    pub fn near(&self, name: &[u8], place: usize) -> (Option<&PackedEntry>, usize)
        ensures { option_copied result.0 ≡ map.get self.now name.now }
    {
        if let Some(entry) = self.entry_at(name, place) {
            return (Some(entry), place.saturating_add(1));
        }
        if !self.ends.may_have(name) {
            return (None, place);
        }
        match self.entries.get_full(NameRef { bytes: name }) {
            Some((found, _, entry)) => (Some(entry), found.saturating_add(1)),
            None => (None, place),
        }
    }

    /// The entry at a place, if it is that of `name`.
    fn entry_at(&self, name: &[u8], place: usize) -> Option<&PackedEntry>
        ensures { IfSome result (λ entry. map.get self.now name.now ≡ Some entry.now) }
    {
        let (known, entry) = self.entries.get_index(place)?;
        let asked = NameRef { bytes: name };
        if !asked.equivalent(known) {
            return None;
        }
        Some(entry)
    }

    /// Each name with what is known of it, in byte order of the names.
    pub fn in_byte_order(&self, alloc: Global) -> Result<Listed<'_>, AllocError>
        ensures { IfOk result (λ listed. listed ≡ map.entries self.now) }
    {
        let order = in_order(alloc, &self.entries)?;
        Ok(Listed::new(&self.entries, order))
    }

    /// What is left of `room` after the bytes of a kept record for each entry, in a file of version 2; None where they do
    /// not fit. It takes no memory.
    pub fn room_after_kept(&self, room: usize) -> Option<usize>
        ensures { MatchOption result (room < kept_bytes self.now) (λ left. left + kept_bytes self.now ≡ room) }
    {
        self.room_after_kept_in(Form::Plain, room)
    }

    /// The same in a form.
    pub fn room_after_kept_in(&self, form: Form, room: usize) -> Option<usize>
        ensures { MatchOption result (room < kept_bytes_in form self.now) (λ left. left + kept_bytes_in form self.now ≡ room) }
    {
        let mut left = room;
        for (name, entry) in self.entries.iter() {
            left = room_after_kept_in(form, name.as_slice(), entry, left)?;
        }
        Some(left)
    }

    /// An equal state. To copy one without names takes no memory.
    pub fn copy(&self, alloc: Global) -> Result<State, AllocError>
        ensures equal { IfOk result (λ copied. copied ≡ self.now) }
        ensures memory { OnErr result (0 < map.len self.now) }
    {
        let mut copied = State::with_key(alloc, *self.entries.hasher());
        for (name, entry) in self.entries.iter() {
            copied.add(alloc, name.as_slice(), entry.copy(alloc)?)?;
        }
        Ok(copied)
    }

    /// Makes ready to take in a batch of records: the records are copied, and the map gets room for as many new names.
    /// Without memory the state is handed back as it was; a batch without records takes none.
    pub fn stage(self, alloc: Global, events: &[Record]) -> Result<Staged, State>
        ensures staged { IfOk result (λ s. (staged_state s ≡ self) × (staged_records s ≡ events.now)) }
        ensures err { IfErr result (λ s. s ≡ self) }
        ensures memory { OnErr result (0 < length events.now) }
    {
        let mut entries = self.into_entries();
        let events = match copies(alloc, events) {
            Ok(events) => events,
            Err(_) => return Err(State::from_entries(entries)),
        };
        match entries.reserve(events.len()) {
            Ok(()) => Ok(Staged { entries, events }),
            Err(_) => Err(State::from_entries(entries)),
        }
    }

    /// Takes in one more record; without memory for it the state stays as it was.
    ///
    /// An entry is changed in its place after one search. Only a new name is copied.
    pub fn apply(&mut self, alloc: Global, event: &Record) -> Result<(), AllocError>
        ensures ok { OnOk result (self.new ≡ apply_record self.old event.now) }
        ensures err { OnErr result (self.new ≡ self.old) }
        // A recipe that began or failed takes memory for a new target alone.
        ensures memory { OnErr result ((map.get self.old (target_of event.now) ≡ None) ⊎ SetsEntry event.now) }
    {
        match event {
            Record::Begun { target } => self.set_unfinished(alloc, target.as_slice(), Phase::Begun),
            Record::Done {
                target,
                commands,
                hidden,
                explicit,
            } => {
                let entry = PackedEntry::of(alloc, Phase::Done, commands, hidden, explicit)?;
                self.set(alloc, target.as_slice(), entry)
            }
            Record::Failed { target, status } => {
                self.set_unfinished(alloc, target.as_slice(), Phase::Failed(*status))
            }
            Record::Kept { target, entry } => {
                let entry = PackedEntry::of_entry(alloc, entry)?;
                self.set(alloc, target.as_slice(), entry)
            }
        }
    }

    /// Takes in one more record as `apply` does, with the strings of the record in place of copies. Without memory the
    /// state stays as it was, and the record is let go.
    pub fn apply_owned(&mut self, alloc: Global, event: PackedRecord) -> Result<(), AllocError>
        ensures ok { OnOk result (self.new ≡ apply_record self.old event) }
        ensures err { OnErr result (self.new ≡ self.old) }
        // Any record takes memory for a new target alone.
        ensures memory { OnErr result (map.get self.old (target_of event) ≡ None) }
    {
        let (target, event) = event.into_parts();
        self.ends.mark(target.as_slice());
        take_event(alloc, &mut self.entries, Name::new(target), event)
    }

    pub(crate) fn from_entries(entries: Entries) -> State
        ensures { result ≡ by_name (λ k. k) entries.entries }
    {
        State {
            entries,
            ends: NameEnds::any(),
        }
    }

    fn into_entries(self) -> Entries
        ensures { by_name (λ k. k) result.entries ≡ self }
    {
        let State { entries, ends: _ } = self;
        entries
    }

    // A recipe that began or failed: no commands and no explicit names count any more, the hidden names stay as last known.
    fn set_unfinished(&mut self, alloc: Global, name: &[u8], phase: Phase) -> Result<(), AllocError>
        ensures ok { OnOk result (self.new ≡ map.insert self.old name.now (unfinished phase (known_hidden self.old name.now))) }
        ensures err { OnErr result (self.new ≡ self.old) }
        ensures memory { OnErr result (map.get self.old name.now ≡ None) }
    {
        self.ends.mark(name);
        if let Some(known) = self.entries.get_mut(NameRef { bytes: name }) {
            leave_unfinished(known, phase);
            return Ok(());
        }
        self.add(alloc, name, PackedEntry::new(alloc, phase))
    }

    fn set(&mut self, alloc: Global, name: &[u8], entry: PackedEntry) -> Result<(), AllocError>
        ensures ok { OnOk result (self.new ≡ map.insert self.old name.now entry) }
        ensures err { OnErr result (self.new ≡ self.old) }
        ensures memory { OnErr result (map.get self.old name.now ≡ None) }
    {
        self.ends.mark(name);
        if let Some(known) = self.entries.get_mut(NameRef { bytes: name }) {
            *known = entry;
            return Ok(());
        }
        self.add(alloc, name, entry)
    }

    fn add(&mut self, alloc: Global, name: &[u8], entry: PackedEntry) -> Result<(), AllocError>
        ensures ok { OnOk result (self.new ≡ map.insert self.old name.now entry) }
        ensures err { OnErr result (self.new ≡ self.old) }
    {
        self.ends.mark(name);
        self.entries.insert(Name::from_slice(alloc, name)?, entry)?;
        Ok(())
    }
}

fn copies(alloc: Global, events: &[Record]) -> Result<Vec<PackedRecord>, AllocError>
    ensures equal { IfOk result (λ copied. copied.items ≡ events.now) }
    ensures memory { OnErr result (0 < length events.now) }
{
    let mut copied = Vec::with_capacity(alloc, events.len())?;
    for event in events {
        copied.push(PackedRecord::of(alloc, event)?)?;
    }
    Ok(copied)
}
