//! From which load of the machine on no further recipe begins beside others.

use crate::option_table::{LOAD, UNBOUND};
use clap::ArgMatches;
use jb_flags::{Load, has_value};

/// Whether a word is a load, or says that none is too high.
pub(crate) fn is_load(word: &str) -> bool {
    word == UNBOUND || Load::of(word.as_bytes()).is_some()
}

/// The load by the words that were found: the last one counts.
pub(crate) fn load_of(found: &ArgMatches<'_>) -> Option<Load> {
    Load::of(found.get_strs(LOAD)?.last()?.as_bytes())
}

/// Whether a word is meant as the load of an option that stands before it.
pub(crate) fn may_be_load(word: &[u8]) -> bool {
    match word.first() {
        Some(byte) => byte.is_ascii_digit() || *byte == b'.',
        None => false,
    }
}

/// What stands behind the letter of such an option among letters; None where there is none.
pub(crate) fn load_in(letters: &[u8]) -> Option<&[u8]> {
    let at = letters.iter().position(|letter| has_value(*letter))?;
    letters[at..].strip_prefix(b"l")
}

/// What stands behind the long one; None where it is another one.
pub(crate) fn long_load(word: &[u8]) -> Option<&[u8]> {
    let behind = match word.strip_prefix(b"--load-average") {
        Some(behind) => behind,
        None => word.strip_prefix(b"--max-load")?,
    };
    match behind {
        [] => Some(behind),
        [b'=', load @ ..] => Some(load),
        _ => None,
    }
}
