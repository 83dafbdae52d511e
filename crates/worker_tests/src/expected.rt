//! What a test wants of a text.

use std::alloc::Global;
use std::test::Fail;

/// Fails, with the row's name, where the text isn't what is wanted.
pub fn expect(alloc: Global, row: &str, given: &str, wanted: &str) -> Result<(), Fail> {
    if given == wanted {
        return Ok(());
    }
    let why = format!(in alloc; "{row}: {given:?} for {wanted:?}")?;
    Err(Fail::new(why))
}
