//! The folders in which included files are looked for, as MAKEFLAGS has them.

use byte_strings::ByteStrings;
use jb_flags::{has_value, push_quoted};
use std::alloc::{AllocError, Global};

/// What stands behind the letter of such an option among letters; None where there is none.
pub(crate) fn folder_in(letters: &[u8]) -> Option<&[u8]> {
    let at = letters.iter().position(|letter| has_value(*letter))?;
    letters[at..].strip_prefix(b"I")
}

/// What stands behind the long one; None where it is another one.
pub(crate) fn long_folder(word: &[u8]) -> Option<&[u8]> {
    match word.strip_prefix(b"--include-dir")? {
        [] => Some(b""),
        [b'=', folder @ ..] => Some(folder),
        _ => None,
    }
}

/// Takes a folder, unless its name is empty.
fn push_taken(alloc: Global, taken: &mut ByteStrings, folder: &[u8]) -> Result<(), AllocError> {
    if folder.is_empty() {
        return Ok(());
    }
    let mut word = Vec::from_slice(alloc, b"-I")?;
    word.extend_from_slice(folder)?;
    taken.push(&word)
}

/// Takes a folder, where one is said: by what stands behind the option, or by the next word.
pub(crate) fn take_folder(
    alloc: Global,
    taken: &mut ByteStrings,
    said: Option<&[u8]>,
    next: Option<&[u8]>,
) -> Result<(), AllocError> {
    let Some(folder) = said else {
        return Ok(());
    };
    if !folder.is_empty() {
        return push_taken(alloc, taken, folder);
    }
    match next {
        Some(word) => push_taken(alloc, taken, word),
        None => Ok(()),
    }
}

/// Appends the options by which these folders are looked through, as words of MAKEFLAGS.
pub(crate) fn push_folders(words: &mut Vec<u8>, folders: &ByteStrings) -> Result<(), AllocError> {
    for folder in folders.iter() {
        words.extend_from_slice(b" -I")?;
        push_quoted(words, folder)?;
    }
    Ok(())
}
