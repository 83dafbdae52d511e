//! Names in the order of their bytes.
ghost use Rattle.std.specs.Prelude.{◌≡◌, IfOk};
ghost use Rattle.std.specs.List.{list_any};
ghost use Rattle.mk_wildcards.specs.Found.{is_mark_byte, is_mark, is_word, in_order};

use byte_strings::{ByteStrings, is_blank};
use std::alloc::{AllocError, Global};
use std::collections::BTreeSet;

fn is_mark_byte(byte: u8) -> bool
    ensures { result ≡ is_mark_byte byte }
{
    byte == b'%' || byte == b'\n' || is_blank(byte)
}

fn has_mark_byte(name: &[u8]) -> bool
    ensures { result ≡ list_any is_mark_byte name.now }
{
    name.iter().any(|byte| is_mark_byte(*byte))
}

fn is_mark(name: &[u8]) -> bool
    ensures { result ≡ is_mark name.now }
{
    name == b"|".as_slice() || name == b".WAIT".as_slice()
}

/// Whether a rule line can say the name.
fn is_word(name: &[u8]) -> bool
    ensures { result ≡ is_word name.now }
{
    !has_mark_byte(name) && !is_mark(name)
}

/// Those of the names that a rule line can say, in order, each once.
pub fn in_order(alloc: Global, names: &ByteStrings) -> Result<ByteStrings, AllocError>
    ensures { IfOk result (λ ordered. ordered ≡ in_order names.now) }
{
    let mut those = BTreeSet::new(alloc);
    for name in names.iter() {
        if is_word(name) {
            those.insert(Vec::from_slice(alloc, name)?)?;
        }
    }
    let mut ordered = ByteStrings::empty(alloc);
    for name in those.iter() {
        ordered.push(name.as_slice())?;
    }
    Ok(ordered)
}
