//! The text of marks, where there is one.
ghost use Rattle.std.specs.Prelude.{◌≡◌, true, false, ◌↔◌, ◌<◌, ◌^◌, ℕ, List, IsTrue, IfOk, IfSome, IfNone, length};
ghost use Rattle.std.specs.Option.{option_copied};
ghost use Rattle.st_marks.specs.Encoding.{FitsSource, IsText};
ghost use Rattle.jb_marks.specs.Sights.{IsTextOfSights};

use crate::done::file_marks;
use crate::sights::Sight;
use byte_strings::ByteString;
use st_marks::{Mark, write_marks};
use std::alloc::{AllocError, Global};

/// A text has four bytes for the length of a name, and for how many marks there are.
const LIMIT: usize = 1 << 32;

fn fits_source(source: Option<&[u8]>) -> bool
    ensures { IsTrue result ↔ FitsSource (option_copied source.entry) }
{
    match source {
        Some(name) => name.len() < LIMIT,
        None => true,
    }
}

/// The text of these marks, of a target that has this source or none; None where no text can say them.
pub(crate) fn text_of(
    alloc: Global,
    source: Option<&[u8]>,
    marks: &[Mark],
) -> Result<Option<Vec<u8>>, AllocError>
    ensures some { IfOk result (λ text. IfSome text (λ t. IsText (option_copied source.entry) marks.now t.items)) }
    ensures none { IfOk result (λ text. IfNone text ((t : List ℕ) → IsText (option_copied source.entry) marks.now t → ⊥)) }
{
    if !fits_source(source) || marks.len() >= LIMIT {
        return Ok(None);
    }
    Ok(Some(write_marks(alloc, source, marks)?))
}

/// The text of the marks of what looks told, of a target that has this source or none: first of what its recipe makes, then of its
/// source, and of its explicit and its hidden prerequisites. No bytes where no text can say them.
pub fn text_of_sights(
    alloc: Global,
    source: Option<&[u8]>,
    sights: &[Sight],
) -> Result<ByteString, AllocError>
    ensures { IfOk result (λ text. IsTextOfSights (option_copied source.entry) sights.now text) }
{
    let marks = file_marks(alloc, sights)?;
    let Some(text) = text_of(alloc, source, marks.as_slice())? else {
        return Ok(ByteString::new(Vec::new(alloc)));
    };
    Ok(ByteString::new(text))
}
