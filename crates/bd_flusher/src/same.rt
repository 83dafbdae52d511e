//! Whether two records are one. It takes no memory.

ghost use Rattle.std.specs.Prelude.{◌≡◌, ◌↔◌, IsTrue};
ghost use Rattle.st_records.specs.declared.record.Explicit.TheVariants as explicit_is;
ghost use Rattle.st_records.specs.declared.record.Record.TheVariants as record_of;

use st_records::{ByteString, ByteStrings, Entry, Explicit, Record};

fn are_same(names: &ByteStrings, others: &ByteStrings) -> bool
    ensures { IsTrue result ↔ (names.now ≡ others.now) }
{
    names == others
}

fn is_explicit(explicit: &Explicit, other: &Explicit) -> bool
    ensures { IsTrue result ↔ (explicit.now ≡ other.now) }
{
    match explicit {
        Explicit::Unknown => is_unknown(other),
        Explicit::Known(names) => is_known(other, names),
        Explicit::Marked(names, marks) => is_marked(other, names, marks),
    }
}

fn is_unknown(explicit: &Explicit) -> bool
    ensures { IsTrue result ↔ (explicit.now ≡ explicit_is.Unknown) }
{
    matches!(explicit, Explicit::Unknown)
}

fn is_known(explicit: &Explicit, names: &ByteStrings) -> bool
    ensures { IsTrue result ↔ (explicit.now ≡ explicit_is.Known names.now) }
{
    match explicit {
        Explicit::Unknown => false,
        Explicit::Known(known) => are_same(known, names),
        Explicit::Marked(_known, _marks) => false,
    }
}

fn is_marked(explicit: &Explicit, names: &ByteStrings, marks: &ByteString) -> bool
    ensures { IsTrue result ↔ (explicit.now ≡ explicit_is.Marked names.now marks.now) }
{
    match explicit {
        Explicit::Unknown => false,
        Explicit::Known(_known) => false,
        Explicit::Marked(known, of_these) => are_same(known, names) && of_these == marks,
    }
}

fn is_entry(entry: &Entry, other: &Entry) -> bool
    ensures { IsTrue result ↔ (entry.now ≡ other.now) }
{
    entry.phase == other.phase
        && are_same(&entry.commands, &other.commands)
        && are_same(&entry.hidden, &other.hidden)
        && is_explicit(&entry.explicit, &other.explicit)
}

fn is_begun(note: &Record, name: &ByteString) -> bool
    ensures { IsTrue result ↔ (note.now ≡ record_of.Begun name.now) }
{
    match note {
        Record::Begun { target } => target == name,
        _ => false,
    }
}

fn is_done(
    note: &Record,
    name: &ByteString,
    run: &ByteStrings,
    read: &ByteStrings,
    named: &Explicit,
) -> bool
    ensures { IsTrue result ↔ (note.now ≡ record_of.Done name.now run.now read.now named.now) }
{
    match note {
        Record::Done {
            target,
            commands,
            hidden,
            explicit,
        } => {
            target == name
                && are_same(commands, run)
                && are_same(hidden, read)
                && is_explicit(explicit, named)
        }
        _ => false,
    }
}

fn is_failed(note: &Record, name: &ByteString, with: u32) -> bool
    ensures { IsTrue result ↔ (note.now ≡ record_of.Failed name.now with) }
{
    match note {
        Record::Failed { target, status } => target == name && *status == with,
        _ => false,
    }
}

fn is_kept(note: &Record, name: &ByteString, known: &Entry) -> bool
    ensures { IsTrue result ↔ (note.now ≡ record_of.Kept name.now known.now) }
{
    match note {
        Record::Kept { target, entry } => target == name && is_entry(entry, known),
        _ => false,
    }
}

/// Whether both are one record.
pub fn is_same(note: &Record, other: &Record) -> bool
    ensures { IsTrue result ↔ (note.now ≡ other.now) }
{
    match other {
        Record::Begun { target } => is_begun(note, target),
        Record::Done {
            target,
            commands,
            hidden,
            explicit,
        } => is_done(note, target, commands, hidden, explicit),
        Record::Failed { target, status } => is_failed(note, target, *status),
        Record::Kept { target, entry } => is_kept(note, target, entry),
    }
}
