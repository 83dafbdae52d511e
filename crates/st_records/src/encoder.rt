//! From a record to its bytes.

ghost use Rattle.std.specs.Prelude.{◌≡◌, ◌+◌, ◌<◌, ◌≤◌, ◌++◌, ◌∷◌, length, take, IfOk, OnOk, OnErr, vec_len, vec_capacity};
ghost use Rattle.st_records.specs.declared.version.Version.TheVariants as versions;
ghost use Rattle.st_records.specs.declared.version.Form.TheVariants as forms;
ghost use Rattle.st_records.specs.Parts.{names_known, marks_known, explicit_from};
ghost use Rattle.st_records.specs.Encoding.{number, string, strings, marked_fields, phase_fields, done_explicit_in, kept_explicit_in, entry_fields_in, encoding, encoding_in, FitsString, FitsStrings, FitsDoneExplicit, FitsKeptExplicit, FitsEntry, FitsRecord};
ghost use Rattle.st_records.specs.Limits.{IsGood, IsGoodIn};

use crate::record::{Explicit, Named, Phase, Record};
use crate::version::Form;
use byte_strings::Iter;
use byteorder::{ByteOrder, LittleEndian};
use std::alloc::{AllocError, Global};

impl Record {
    /// The bytes of a good record in a file of version 2.
    pub fn encode(&self, alloc: Global) -> Result<Vec<u8>, AllocError>
        requires { IsGood versions.Two self.now }
        ensures { IfOk result (λ bytes. bytes.items ≡ encoding versions.Two self.now) }
    {
        self.encode_in(alloc, Form::Plain)
    }

    /// The bytes of a record that is good in this form.
    pub fn encode_in(&self, alloc: Global, form: Form) -> Result<Vec<u8>, AllocError>
        requires { IsGoodIn form self.now }
        ensures { IfOk result (λ bytes. bytes.items ≡ encoding_in form self.now) }
    {
        let mut out = Vec::new(alloc);
        self.append_in(&mut out, form)?;
        Ok(out)
    }

    /// Adds the bytes of a good record in a file of version 2 at the end.
    ///
    /// With room for all of them it cannot fail, so a caller that must not fail later reserves first. After a failure a
    /// part of the record may stand behind the bytes that were there.
    pub fn append_to(&self, out: &mut Vec<u8>) -> Result<(), AllocError>
        requires { IsGood versions.Two self.now }
        ensures ok { OnOk result (out.new.items ≡ out.old.items ++ encoding versions.Two self.now) }

        // It fails only where room was missing, and what stood there stays.
        ensures full { OnErr result (vec_capacity out.old < vec_len out.old + length (encoding versions.Two self.now)) }
        ensures front { take (vec_len out.old) out.new.items ≡ out.old.items }
        ensures room { vec_capacity out.old ≤ vec_capacity out.new }
    {
        self.append_in(out, Form::Plain)
    }

    /// The same of a record that is good in this form.
    pub fn append_in(&self, out: &mut Vec<u8>, form: Form) -> Result<(), AllocError>
        requires { IsGoodIn form self.now }
        ensures ok { OnOk result (out.new.items ≡ out.old.items ++ encoding_in form self.now) }
        ensures full { OnErr result (vec_capacity out.old < vec_len out.old + length (encoding_in form self.now)) }
        ensures front { take (vec_len out.old) out.new.items ≡ out.old.items }
        ensures room { vec_capacity out.old ≤ vec_capacity out.new }
    {
        put_record(out, form, self)
    }
}

fn put_record(out: &mut Vec<u8>, form: Form, of: &Record) -> Result<(), AllocError>
    requires { FitsRecord form of.now }
    ensures ok { OnOk result (out.new.items ≡ out.old.items ++ encoding_in form of.now) }
    ensures room { vec_capacity out.old ≤ vec_capacity out.new }
    ensures front { take (vec_len out.old) out.new.items ≡ out.old.items }
    ensures full { OnErr result (vec_capacity out.old < vec_len out.old + length (encoding_in form of.now)) }
{
    match of {
        Record::Begun { target } => put_front(out, 1, target.as_slice()),
        Record::Done {
            target,
            commands,
            hidden,
            explicit,
        } => {
            put_front(out, 2, target.as_slice())?;
            put_lists(out, form, commands.iter(), hidden.iter(), explicit)
        }
        Record::Failed { target, status } => {
            put_front(out, 3, target.as_slice())?;
            put_number(out, *status)
        }
        Record::Kept { target, entry } => {
            put_front(out, 4, target.as_slice())?;
            put_entry(
                out,
                form,
                entry.phase,
                entry.commands.iter(),
                entry.hidden.iter(),
                entry.explicit.lend(),
            )
        }
    }
}

/// The byte of a record's kind, and its target.
pub fn put_front(out: &mut Vec<u8>, kind: u8, target: &[u8]) -> Result<(), AllocError>
    requires { FitsString target.now }
    ensures ok { OnOk result (out.new.items ≡ out.old.items ++ (kind ∷ string target.now)) }
    ensures len { OnOk result (vec_len out.new ≡ vec_len out.old + 1 + length (string target.now)) }
    ensures room { vec_capacity out.old ≤ vec_capacity out.new }
    ensures front { take (vec_len out.old) out.new.items ≡ out.old.items }
    ensures full { OnErr result (vec_capacity out.old < vec_len out.old + 1 + length (string target.now)) }
{
    out.push(kind)?;
    put_string(out, target)
}

/// What a kept record has of the entry behind its target.
pub fn put_entry(
    out: &mut Vec<u8>,
    form: Form,
    phase: Phase,
    commands: Iter<'_>,
    hidden: Iter<'_>,
    explicit: Named<'_>,
) -> Result<(), AllocError>
    requires { FitsEntry form (record { phase = phase; commands = commands; hidden = hidden; explicit = explicit_from explicit }) }
    ensures ok { OnOk result (out.new.items ≡ out.old.items ++ entry_fields_in form (record { phase = phase; commands = commands.entry; hidden = hidden.entry; explicit = explicit_from explicit.entry })) }
    ensures room { vec_capacity out.old ≤ vec_capacity out.new }
    ensures front { take (vec_len out.old) out.new.items ≡ out.old.items }
    ensures full { OnErr result (vec_capacity out.old < vec_len out.old + length (entry_fields_in form (record { phase = phase; commands = commands.entry; hidden = hidden.entry; explicit = explicit_from explicit.entry }))) }
{
    put_phase(out, phase)?;
    put_strings(out, commands)?;
    put_strings(out, hidden)?;
    put_kept_explicit(out, form, explicit)
}

fn put_kept_explicit(out: &mut Vec<u8>, form: Form, of: Named<'_>) -> Result<(), AllocError>
    requires { FitsKeptExplicit form (explicit_from of) }
    ensures ok { OnOk result (out.new.items ≡ out.old.items ++ kept_explicit_in form (explicit_from of.entry)) }
    ensures room { vec_capacity out.old ≤ vec_capacity out.new }
    ensures front { take (vec_len out.old) out.new.items ≡ out.old.items }
    ensures full { OnErr result (vec_capacity out.old < vec_len out.old + length (kept_explicit_in form (explicit_from of.entry))) }
{
    match form {
        Form::Old => Ok(()),
        Form::Plain => put_kept_names(out, of),
        Form::Marked => put_kept_marked(out, of),
    }
}

/// Of marks nothing.
fn put_kept_names(out: &mut Vec<u8>, of: Named<'_>) -> Result<(), AllocError>
    requires { FitsStrings (names_known (explicit_from of)) }
    ensures ok { OnOk result (out.new.items ≡ out.old.items ++ kept_explicit_in forms.Plain (explicit_from of.entry)) }
    ensures room { vec_capacity out.old ≤ vec_capacity out.new }
    ensures front { take (vec_len out.old) out.new.items ≡ out.old.items }
    ensures full { OnErr result (vec_capacity out.old < vec_len out.old + length (kept_explicit_in forms.Plain (explicit_from of.entry))) }
{
    match of {
        Named::Unknown => Ok(out.push(0)?),
        Named::Known(names) => {
            out.push(1)?;
            put_strings(out, names)
        }
        Named::Marked(names, _marks) => {
            out.push(1)?;
            put_strings(out, names)
        }
    }
}

fn put_kept_marked(out: &mut Vec<u8>, of: Named<'_>) -> Result<(), AllocError>
    requires { FitsKeptExplicit forms.Marked (explicit_from of) }
    ensures ok { OnOk result (out.new.items ≡ out.old.items ++ kept_explicit_in forms.Marked (explicit_from of.entry)) }
    ensures room { vec_capacity out.old ≤ vec_capacity out.new }
    ensures front { take (vec_len out.old) out.new.items ≡ out.old.items }
    ensures full { OnErr result (vec_capacity out.old < vec_len out.old + length (kept_explicit_in forms.Marked (explicit_from of.entry))) }
{
    match of {
        Named::Unknown => Ok(out.push(0)?),
        Named::Known(names) => {
            out.push(1)?;
            put_strings(out, names)
        }
        Named::Marked(names, marks) => {
            out.push(2)?;
            put_marked(out, names, marks)
        }
    }
}

fn put_marked(out: &mut Vec<u8>, names: Iter<'_>, marks: &[u8]) -> Result<(), AllocError>
    requires { FitsStrings names × FitsString marks.now }
    ensures ok { OnOk result (out.new.items ≡ out.old.items ++ marked_fields names.entry marks.now) }
    ensures room { vec_capacity out.old ≤ vec_capacity out.new }
    ensures front { take (vec_len out.old) out.new.items ≡ out.old.items }
    ensures full { OnErr result (vec_capacity out.old < vec_len out.old + length (marked_fields names.entry marks.now)) }
{
    put_strings(out, names)?;
    put_string(out, marks)
}

fn put_phase(out: &mut Vec<u8>, of: Phase) -> Result<(), AllocError>
    ensures ok { OnOk result (out.new.items ≡ out.old.items ++ phase_fields of) }
    ensures len { OnOk result (vec_len out.new ≡ vec_len out.old + 5) }
    ensures room { vec_capacity out.old ≤ vec_capacity out.new }
    ensures front { take (vec_len out.old) out.new.items ≡ out.old.items }
    ensures full { OnErr result (vec_capacity out.old < vec_len out.old + 5) }
{
    let (byte, status) = match of {
        Phase::Begun => (1, 0),
        Phase::Done => (2, 0),
        Phase::Failed(status) => (3, status),
    };
    out.push(byte)?;
    put_number(out, status)
}

fn put_lists(
    out: &mut Vec<u8>,
    form: Form,
    commands: Iter<'_>,
    hidden: Iter<'_>,
    explicit: &Explicit,
) -> Result<(), AllocError>
    requires { FitsStrings commands × (FitsStrings hidden × FitsDoneExplicit form explicit.now) }
    ensures ok { OnOk result (out.new.items ≡ out.old.items ++ (strings commands.entry ++ (strings hidden.entry ++ done_explicit_in form explicit.now))) }
    ensures room { vec_capacity out.old ≤ vec_capacity out.new }
    ensures front { take (vec_len out.old) out.new.items ≡ out.old.items }
    ensures full { OnErr result (vec_capacity out.old < vec_len out.old + length (strings commands.entry ++ (strings hidden.entry ++ done_explicit_in form explicit.now))) }
{
    put_strings(out, commands)?;
    put_strings(out, hidden)?;
    put_done_explicit(out, form, explicit)
}

fn put_done_explicit(out: &mut Vec<u8>, form: Form, of: &Explicit) -> Result<(), AllocError>
    requires { FitsDoneExplicit form of.now }
    ensures ok { OnOk result (out.new.items ≡ out.old.items ++ done_explicit_in form of.now) }
    ensures room { vec_capacity out.old ≤ vec_capacity out.new }
    ensures front { take (vec_len out.old) out.new.items ≡ out.old.items }
    ensures full { OnErr result (vec_capacity out.old < vec_len out.old + length (done_explicit_in form of.now)) }
{
    match form {
        Form::Old => Ok(()),
        Form::Plain => put_strings(out, of.names()),
        Form::Marked => {
            out.push(2)?;
            put_marked(out, of.names(), of.marks())
        }
    }
}

fn put_strings(out: &mut Vec<u8>, items: Iter<'_>) -> Result<(), AllocError>
    requires { FitsStrings items }
    ensures ok { OnOk result (out.new.items ≡ out.old.items ++ strings items.entry) }
    ensures len { OnOk result (vec_len out.new ≡ vec_len out.old + length (strings items.entry)) }
    ensures room { vec_capacity out.old ≤ vec_capacity out.new }
    ensures front { take (vec_len out.old) out.new.items ≡ out.old.items }
    ensures full { OnErr result (vec_capacity out.old < vec_len out.old + length (strings items.entry)) }
{
    put_number(out, items.len() as u32)?;
    for item in items {
        put_string(out, item)?;
    }
    Ok(())
}

fn put_string(out: &mut Vec<u8>, bytes: &[u8]) -> Result<(), AllocError>
    requires { FitsString bytes.now }
    ensures ok { OnOk result (out.new.items ≡ out.old.items ++ string bytes.now) }
    ensures len { OnOk result (vec_len out.new ≡ vec_len out.old + length (string bytes.now)) }
    ensures room { vec_capacity out.old ≤ vec_capacity out.new }
    ensures front { take (vec_len out.old) out.new.items ≡ out.old.items }
    ensures full { OnErr result (vec_capacity out.old < vec_len out.old + length (string bytes.now)) }
{
    put_number(out, bytes.len() as u32)?;
    out.extend_from_slice(bytes)
}

fn put_number(out: &mut Vec<u8>, n: u32) -> Result<(), AllocError>
    ensures ok { OnOk result (out.new.items ≡ out.old.items ++ number n) }
    ensures len { OnOk result (vec_len out.new ≡ vec_len out.old + 4) }
    ensures room { vec_capacity out.old ≤ vec_capacity out.new }
    ensures front { take (vec_len out.old) out.new.items ≡ out.old.items }
    ensures full { OnErr result (vec_capacity out.old < vec_len out.old + 4) }
{
    let mut bytes = [0; 4];
    LittleEndian::write_u32(&mut bytes, n);
    out.extend_from_slice(&bytes)
}
