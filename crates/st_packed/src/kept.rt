//! Kept records, written from what the state holds.

ghost use Rattle.std.specs.Prelude.{◌≡◌, ◌+◌, ◌<◌, ◌≤◌, ◌++◌, length, take, OnOk, OnErr, MatchOption, vec_len, vec_capacity};
ghost use Rattle.st_records.specs.declared.record.Record.TheVariants as records;
ghost use Rattle.st_records.specs.declared.version.Version.TheVariants as versions;
ghost use Rattle.st_records.specs.Encoding.{encoding, encoding_in, FitsRecord};
ghost use Rattle.st_records.specs.Limits.{IsGood, IsGoodIn};
ghost use Rattle.st_records.specs.Tests.{explicit_length, kept_length};

use crate::packed::PackedEntry;
use st_records::{Form, Named, put_entry, put_front, room_after};
use std::alloc::AllocError;

/// Adds the bytes of the kept record of this name and this entry in a file of version 2 at the end, without a copy of
/// either. It fails, and leaves what stood there, as `Record::append_to` does.
pub fn append_kept(out: &mut Vec<u8>, name: &[u8], entry: &PackedEntry) -> Result<(), AllocError>
    requires { IsGood versions.Two (records.Kept name.now entry.now) }
    ensures ok { OnOk result (out.new.items ≡ out.old.items ++ encoding versions.Two (records.Kept name.now entry.now)) }
    ensures full { OnErr result (vec_capacity out.old < vec_len out.old + length (encoding versions.Two (records.Kept name.now entry.now))) }
    ensures front { take (vec_len out.old) out.new.items ≡ out.old.items }
    ensures room { vec_capacity out.old ≤ vec_capacity out.new }
{
    append_kept_in(out, Form::Plain, name, entry)
}

/// The same in a form.
pub fn append_kept_in(
    out: &mut Vec<u8>,
    form: Form,
    name: &[u8],
    entry: &PackedEntry,
) -> Result<(), AllocError>
    requires { IsGoodIn form (records.Kept name.now entry.now) }
    ensures ok { OnOk result (out.new.items ≡ out.old.items ++ encoding_in form (records.Kept name.now entry.now)) }
    ensures full { OnErr result (vec_capacity out.old < vec_len out.old + length (encoding_in form (records.Kept name.now entry.now))) }
    ensures front { take (vec_len out.old) out.new.items ≡ out.old.items }
    ensures room { vec_capacity out.old ≤ vec_capacity out.new }
{
    put_packed(out, form, name, entry)
}

fn put_packed(
    out: &mut Vec<u8>,
    form: Form,
    name: &[u8],
    entry: &PackedEntry,
) -> Result<(), AllocError>
    requires { FitsRecord form (records.Kept name.now entry.now) }
    ensures ok { OnOk result (out.new.items ≡ out.old.items ++ encoding_in form (records.Kept name.now entry.now)) }
    ensures full { OnErr result (vec_capacity out.old < vec_len out.old + length (encoding_in form (records.Kept name.now entry.now))) }
    ensures front { take (vec_len out.old) out.new.items ≡ out.old.items }
    ensures room { vec_capacity out.old ≤ vec_capacity out.new }
{
    put_front(out, 4, name)?;
    put_entry(
        out,
        form,
        entry.phase(),
        entry.commands(),
        entry.hidden(),
        entry.lend(),
    )
}

/// What is left of `room` after the bytes of the kept record of this name and this entry in a file of version 2; None
/// where they do not fit. It takes no memory.
pub fn room_after_kept(name: &[u8], entry: &PackedEntry, room: usize) -> Option<usize>
    ensures { MatchOption result (room < length (encoding versions.Two (records.Kept name.now entry.now)))
        (λ left. left + length (encoding versions.Two (records.Kept name.now entry.now)) ≡ room) }
{
    room_after_kept_in(Form::Plain, name, entry, room)
}

/// The same in a form.
pub fn room_after_kept_in(
    form: Form,
    name: &[u8],
    entry: &PackedEntry,
    room: usize,
) -> Option<usize>
    ensures { MatchOption result (room < length (encoding_in form (records.Kept name.now entry.now)))
        (λ left. left + length (encoding_in form (records.Kept name.now entry.now)) ≡ room) }
{
    let room = room.checked_sub(plain_len(form, entry))?;
    let room = room.checked_sub(name.len())?;
    let room = room_after(entry.commands(), room)?;
    let room = room_after(entry.hidden(), room)?;
    room_after_explicit(form, entry, room)
}

fn room_after_explicit(form: Form, entry: &PackedEntry, room: usize) -> Option<usize>
    ensures { MatchOption result (room < explicit_length form entry.now.explicit) (λ left. left + explicit_length form entry.now.explicit ≡ room) }
{
    match form {
        Form::Old => Some(room),
        Form::Plain => room_after(entry.names(), room),
        Form::Marked => room_after(entry.names(), room)?.checked_sub(entry.marks().len()),
    }
}

/// The bytes of an entry's kept record beside those of names, commands and marks.
fn plain_len(form: Form, entry: &PackedEntry) -> usize
    ensures { result ≡ kept_length form entry.now.explicit }
{
    match form {
        Form::Old => 18,
        Form::Plain => match entry.lend() {
            Named::Unknown => 19,
            Named::Known(_) => 23,
            Named::Marked(_, _) => 23,
        },
        Form::Marked => match entry.lend() {
            Named::Unknown => 19,
            Named::Known(_) => 23,
            Named::Marked(_, _) => 27,
        },
    }
}
