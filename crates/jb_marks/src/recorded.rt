//! What the entry of a target has of its hidden prerequisites.
ghost use Rattle.std.specs.Prelude.{◌≡◌, IfOk, [], length};
ghost use Rattle.jb_marks.specs.Recorded.{hidden_marks, named_with, recorded_in};

use crate::names::Recorded;
use byte_strings::ByteString;
use st_marks::{Marks, marks_of, parts_of};
use st_packed::PackedEntry;
use st_records::Named;
use std::alloc::{AllocError, Global};

/// None.
fn no_marks<'e>() -> Marks<'e>
    ensures { result ≡ [] }
{
    marks_of(&[], 0)
}

/// The marks of the hidden prerequisites that an entry names; none where it has no marks, or another number of them than of names.
fn hidden_marks(entry: &PackedEntry) -> Marks<'_>
    ensures { result ≡ hidden_marks entry.now.explicit (length entry.now.hidden) }
{
    match entry.lend() {
        Named::Unknown => no_marks(),
        Named::Known(_names) => no_marks(),
        Named::Marked(names, text) => match parts_of(text, names.len(), entry.hidden().len()) {
            Some(parts) => parts.hidden,
            None => no_marks(),
        },
    }
}

/// The hidden prerequisites that the entry of a target names, each with its mark, if it has one.
pub fn recorded_in(alloc: Global, entry: &PackedEntry) -> Result<Vec<Recorded>, AllocError>
    ensures { IfOk result (λ recorded. recorded.items ≡ recorded_in entry.now) }
{
    let mut marks = hidden_marks(entry);
    let mut recorded = Vec::with_capacity(alloc, entry.hidden().len())?;
    for name in entry.hidden() {
        let name = ByteString::from_slice(alloc, name)?;
        let mark = marks.next();
        recorded.push(Recorded { name, mark })?;
    }
    Ok(recorded)
}
