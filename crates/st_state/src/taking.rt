//! A record taken into the map of entries, with its strings in place of copies.

ghost use Rattle.std.specs.Prelude.{◌≡◌, ◌+◌, ◌<◌, ◌≤◌, None, IsOk, OnOk, OnErr};
ghost use Rattle.std.specs.FinMap as map;
ghost use Rattle.indexmap.specs.IndexMap.{spare};
ghost use Rattle.st_records.specs.Parts.{target_of};
ghost use Rattle.st_packed.specs.Event.{record_from};
ghost use Rattle.st_state.specs.State.{by_name, apply_record, known_hidden, unfinished};

use crate::state::Entries;
use name_keys::Name;
use st_packed::{Event, PackedEntry, PackedRecord};
use st_records::Phase;
use st_unfinished::leave_unfinished;
use std::alloc::{AllocError, Global};

/// Takes in one record. Without memory for a new name the map stays as it was, and the record is let go.
pub(crate) fn take_in(
    alloc: Global,
    entries: &mut Entries,
    event: PackedRecord,
) -> Result<(), AllocError>
    ensures ok { OnOk result (by_name (λ k. k) entries.new.entries ≡ apply_record (by_name (λ k. k) entries.old.entries) event) }
    ensures err { OnErr result (by_name (λ k. k) entries.new.entries ≡ by_name (λ k. k) entries.old.entries) }
    ensures memory { OnErr result (map.get (by_name (λ k. k) entries.old.entries) (target_of event) ≡ None) }
    ensures succeeds { 0 < spare entries.old → IsOk result }
    ensures room { spare entries.old ≤ spare entries.new + 1 }
{
    let (target, event) = event.into_parts();
    take_event(alloc, entries, Name::new(target), event)
}

/// Takes in what happened to the target of this name, as `take_in` does.
pub(crate) fn take_event(
    alloc: Global,
    entries: &mut Entries,
    name: Name,
    event: Event,
) -> Result<(), AllocError>
    ensures ok { OnOk result (by_name (λ k. k) entries.new.entries ≡ apply_record (by_name (λ k. k) entries.old.entries) (record_from name event)) }
    ensures err { OnErr result (by_name (λ k. k) entries.new.entries ≡ by_name (λ k. k) entries.old.entries) }
    ensures memory { OnErr result (map.get (by_name (λ k. k) entries.old.entries) (target_of (record_from name event)) ≡ None) }
    ensures succeeds { 0 < spare entries.old → IsOk result }
    ensures room { spare entries.old ≤ spare entries.new + 1 }
{
    match event {
        Event::Begun => set_unfinished(alloc, entries, name, Phase::Begun),
        Event::Done(entry) => set_entry(entries, name, entry.done()),
        Event::Failed(status) => set_unfinished(alloc, entries, name, Phase::Failed(status)),
        Event::Kept(entry) => set_entry(entries, name, entry),
    }
}

fn set_entry(entries: &mut Entries, name: Name, entry: PackedEntry) -> Result<(), AllocError>
    ensures ok { OnOk result (by_name (λ k. k) entries.new.entries ≡ map.insert (by_name (λ k. k) entries.old.entries) name entry) }
    ensures err { OnErr result (by_name (λ k. k) entries.new.entries ≡ by_name (λ k. k) entries.old.entries) }
    ensures memory { OnErr result (map.get (by_name (λ k. k) entries.old.entries) name ≡ None) }
    ensures succeeds { 0 < spare entries.old → IsOk result }
    ensures room { spare entries.old ≤ spare entries.new + 1 }
{
    entries.insert(name, entry)?;
    Ok(())
}

// A recipe that began or failed.
fn set_unfinished(
    alloc: Global,
    entries: &mut Entries,
    name: Name,
    phase: Phase,
) -> Result<(), AllocError>
    ensures ok { OnOk result (by_name (λ k. k) entries.new.entries
        ≡ map.insert (by_name (λ k. k) entries.old.entries) name (unfinished phase (known_hidden (by_name (λ k. k) entries.old.entries) name))) }
    ensures err { OnErr result (by_name (λ k. k) entries.new.entries ≡ by_name (λ k. k) entries.old.entries) }
    ensures memory { OnErr result (map.get (by_name (λ k. k) entries.old.entries) name ≡ None) }
    ensures succeeds { 0 < spare entries.old → IsOk result }
    ensures room { spare entries.old ≤ spare entries.new + 1 }
{
    let known = entries
        .entry(name)?
        .or_insert(PackedEntry::new(alloc, phase));
    leave_unfinished(known, phase);
    Ok(())
}
