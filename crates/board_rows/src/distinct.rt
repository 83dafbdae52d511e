//! Names of which no two are alike.
ghost use Rattle.std.specs.Prelude.{IsTrue, IfOk};
ghost use Rattle.bd_ledger.specs.Sheet.{AreDistinct};

use byte_strings::ByteString;
use mk_names::Names;
use std::alloc::{AllocError, Global};

/// Whether no two of the names are alike.
pub fn are_distinct(alloc: Global, names: &[ByteString]) -> Result<bool, AllocError>
    ensures { IfOk result (λ are. IsTrue are → AreDistinct names.now) }
{
    let mut seen = Names::new(alloc);
    for name in names {
        let is_new = seen.mention(alloc, name.as_slice())?;
        if !is_new {
            return Ok(false);
        }
    }
    Ok(true)
}
