//! The fault of a line.
ghost use Rattle.mk_reader.specs.Form.{Refuses, refusal};

use crate::fault::{Cause, ReadFault, Refusal};
use crate::line_place::LinePlace;
use byte_strings::ByteString;

/// The fault of a line; the file's name is copied.
#[cold]
pub fn refuse(place: LinePlace<'_>, cause: Cause) -> ReadFault
    ensures { Refuses result (refusal place.entry.file.now place.entry.number cause) }
{
    match ByteString::from_slice(place.alloc, place.file.as_slice()) {
        Ok(file) => ReadFault::Refused(Refusal {
            file,
            line: place.number,
            cause,
        }),
        Err(_) => ReadFault::OutOfMemory,
    }
}
