//! The words of a line.
ghost use Rattle.std.specs.Prelude.{◌≡◌, IfOk};
ghost use Rattle.mk_depfiles.specs.Words.{words};

use crate::gathering::Gathering;
use crate::refusal::Cause;
use byte_strings::ByteStrings;
use std::alloc::{AllocError, Global};

/// The words of a line, as names that were written so; or why it isn't in this form.
pub fn words(alloc: Global, line: &[u8]) -> Result<Result<ByteStrings, Cause>, AllocError>
    ensures { IfOk result (λ found. found ≡ words line.now) }
{
    let mut gathering = Gathering::new(alloc);
    let mut rest = line;
    while let Some((byte, behind)) = rest.split_first() {
        match gathering.take(*byte)? {
            Some(cause) => return Ok(Err(cause)),
            None => rest = behind,
        }
    }
    gathering.finish()
}
