//! From marks to their text.

ghost use Rattle.std.specs.Prelude.{◌≡◌, ◌+◌, ◌^◌, ◌<◌, ◌≤◌, ◌++◌, ◌∷◌, length, IfOk, OnOk, OnErr, vec_len, vec_capacity};
ghost use Rattle.std.specs.List.{flat_map, AllByRecursion};
ghost use Rattle.std.specs.Option.{option_copied};
ghost use Rattle.st_records.specs.Encoding.{number, string, FitsString};
ghost use Rattle.st_marks.specs.Encoding.{stamp_fields, mark_fields, source_fields, text_of, FitsStamp, FitsMark, FitsSource, IsText};

use crate::mark::{Mark, Stamp};
use std::alloc::{AllocError, Global};

/// The text of these marks, of a target that has this source or none.
pub fn write_marks(
    alloc: Global,
    source: Option<&[u8]>,
    marks: &[Mark],
) -> Result<Vec<u8>, AllocError>
    requires source { FitsSource (option_copied source) }
    requires count { length marks.now < 2 ^ 32 }
    ensures { IfOk result (λ text. IsText (option_copied source.entry) marks.now text.items) }
{
    let mut out = Vec::new(alloc);
    append_marks(&mut out, source, marks)?;
    Ok(out)
}

/// Adds that text at the end. After a failure a part of it may stand behind the bytes that were there.
pub fn append_marks(
    out: &mut Vec<u8>,
    source: Option<&[u8]>,
    marks: &[Mark],
) -> Result<(), AllocError>
    requires source { FitsSource (option_copied source) }
    requires count { length marks.now < 2 ^ 32 }
    ensures ok { OnOk result (out.new.items ≡ out.old.items ++ text_of (option_copied source.entry) marks.now) }
    ensures fit { OnOk result (AllByRecursion FitsMark marks.now) }

    // It fails only where room was missing.
    ensures full { OnErr result (vec_capacity out.old < vec_len out.old + length (text_of (option_copied source.entry) marks.now)) }
    ensures room { vec_capacity out.old ≤ vec_capacity out.new }
{
    put_source(out, source)?;
    put_list(out, marks)
}

fn put_source(out: &mut Vec<u8>, source: Option<&[u8]>) -> Result<(), AllocError>
    requires { FitsSource (option_copied source) }
    ensures ok { OnOk result (out.new.items ≡ out.old.items ++ source_fields (option_copied source.entry)) }
    ensures len { OnOk result (vec_len out.new ≡ vec_len out.old + length (source_fields (option_copied source.entry))) }
    ensures full { OnErr result (vec_capacity out.old < vec_len out.old + length (source_fields (option_copied source.entry))) }
    ensures room { vec_capacity out.old ≤ vec_capacity out.new }
{
    match source {
        None => Ok(out.push(0)?),
        Some(name) => {
            out.push(1)?;
            put_string(out, name)
        }
    }
}

fn put_list(out: &mut Vec<u8>, marks: &[Mark]) -> Result<(), AllocError>
    requires { length marks.now < 2 ^ 32 }
    ensures ok { OnOk result (out.new.items ≡ out.old.items ++ (number (length marks.now) ++ flat_map mark_fields marks.now)) }
    ensures fit { OnOk result (AllByRecursion FitsMark marks.now) }
    ensures full { OnErr result (vec_capacity out.old < vec_len out.old + length (number (length marks.now) ++ flat_map mark_fields marks.now)) }
    ensures room { vec_capacity out.old ≤ vec_capacity out.new }
{
    put_number(out, marks.len() as u32)?;
    for mark in marks {
        put_mark(out, *mark)?;
    }
    Ok(())
}

fn put_mark(out: &mut Vec<u8>, mark: Mark) -> Result<(), AllocError>
    ensures ok { OnOk result (out.new.items ≡ out.old.items ++ mark_fields mark) }
    ensures len { OnOk result (vec_len out.new ≡ vec_len out.old + length (mark_fields mark)) }
    ensures fits { FitsMark mark }
    ensures full { OnErr result (vec_capacity out.old < vec_len out.old + length (mark_fields mark)) }
    ensures room { vec_capacity out.old ≤ vec_capacity out.new }
{
    match mark {
        Mark::Unknown => Ok(out.push(0)?),
        Mark::NoFile => Ok(out.push(1)?),
        Mark::Other => Ok(out.push(2)?),
        Mark::File(stamp) => put_stamp(out, 3, stamp),
        Mark::Own(stamp) => put_stamp(out, 4, stamp),
    }
}

fn put_stamp(out: &mut Vec<u8>, kind: u8, stamp: Stamp) -> Result<(), AllocError>
    ensures ok { OnOk result (out.new.items ≡ out.old.items ++ (kind ∷ stamp_fields stamp)) }
    ensures len { OnOk result (vec_len out.new ≡ vec_len out.old + 13) }
    ensures fits { FitsStamp stamp }
    ensures full { OnErr result (vec_capacity out.old < vec_len out.old + 13) }
    ensures room { vec_capacity out.old ≤ vec_capacity out.new }
{
    out.push(kind)?;
    out.extend_from_slice(&stamp.time.to_le_bytes())?;
    put_number(out, stamp.size)
}

fn put_string(out: &mut Vec<u8>, bytes: &[u8]) -> Result<(), AllocError>
    requires { FitsString bytes.now }
    ensures ok { OnOk result (out.new.items ≡ out.old.items ++ string bytes.now) }
    ensures len { OnOk result (vec_len out.new ≡ vec_len out.old + length (string bytes.now)) }
    ensures full { OnErr result (vec_capacity out.old < vec_len out.old + length (string bytes.now)) }
    ensures room { vec_capacity out.old ≤ vec_capacity out.new }
{
    put_number(out, bytes.len() as u32)?;
    out.extend_from_slice(bytes)
}

fn put_number(out: &mut Vec<u8>, n: u32) -> Result<(), AllocError>
    ensures ok { OnOk result (out.new.items ≡ out.old.items ++ number n) }
    ensures len { OnOk result (vec_len out.new ≡ vec_len out.old + 4) }
    ensures full { OnErr result (vec_capacity out.old < vec_len out.old + 4) }
    ensures room { vec_capacity out.old ≤ vec_capacity out.new }
{
    out.extend_from_slice(&n.to_le_bytes())
}
