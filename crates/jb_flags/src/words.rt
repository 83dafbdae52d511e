//! The words of MAKEFLAGS: how they are read, and how a make writes them for those below.
ghost use Rattle.std.specs.Prelude.{◌≡◌, ◌≢◌, ◌<◌, ◌++◌, ◌∷◌, [], length, IfOk, OnOk, MatchOption, IsTrue};
ghost use Rattle.std.specs.List.{flat_map};
ghost use Rattle.jb_flags.specs.Words.{is_blank, is_pair, spelled, behind_blanks, IsWord, Reads, is_special, quoted_byte, quoted, written, shown_byte};

use byte_strings::ByteStrings;
use std::alloc::{AllocError, Global};

// Whether a byte parts words.
fn is_blank(byte: u8) -> bool
    ensures { result ≡ is_blank byte }
{
    byte == b' ' || byte == b'\t'
}

// Whether two bytes spell the second one.
fn is_pair(first: u8, second: u8) -> bool
    ensures { result ≡ is_pair first second }
{
    first == b'\\' || (first == b'$' && second == b'$')
}

// The byte that is spelled where a text of a word begins, and what stands behind it; None where the word ends.
fn next_byte(text: &[u8]) -> Option<(u8, &[u8])>
    ensures { shown_byte result ≡ spelled text.now }
{
    let (first, rest) = text.split_first()?;
    if is_blank(*first) {
        return None;
    }
    match rest.split_first() {
        Some((second, behind)) if is_pair(*first, *second) => Some((*second, behind)),
        _ => Some((*first, rest)),
    }
}

// What stands behind the blanks that a text begins with.
fn behind_blanks(text: &[u8]) -> &[u8]
    ensures { result.now ≡ behind_blanks text.now }
{
    let mut rest = text;
    while let Some((first, behind)) = rest.split_first() {
        if !is_blank(*first) {
            return rest;
        }
        rest = behind;
    }
    rest
}

// The word that a text begins with, and what stands behind it.
fn first_word(alloc: Global, text: &[u8]) -> Result<(Vec<u8>, &[u8]), AllocError>
    ensures { IfOk result (λ found. IsWord found.0.items text.now found.1.now) }
{
    let mut word = Vec::new(alloc);
    let mut rest = text;
    while let Some((byte, behind)) = next_byte(rest) {
        word.push(byte)?;
        rest = behind;
    }
    Ok((word, rest))
}

/// The words of MAKEFLAGS, whatever bytes it holds. Blanks part them; a backslash takes the byte behind it along, and two dollars are
/// one.
pub fn words_of(alloc: Global, makeflags: &[u8]) -> Result<ByteStrings, AllocError>
    ensures { IfOk result (λ words. Reads makeflags.now words) }
{
    let mut words = ByteStrings::empty(alloc);
    let mut rest = behind_blanks(makeflags);
    while !rest.is_empty() {
        let (word, behind) = first_word(alloc, rest)?;
        words.push(&word)?;
        rest = behind_blanks(behind);
    }
    Ok(words)
}

// Whether a byte is a part of a word only where a backslash stands before it.
fn is_special(byte: u8) -> bool
    ensures { result ≡ is_special byte }
{
    is_blank(byte) || (byte == b'\\' || (byte == b'\'' || (byte == b'"' || byte == b'#')))
}

fn push_quoted_byte(text: &mut Vec<u8>, byte: u8) -> Result<(), AllocError>
    ensures { OnOk result (text.new.items ≡ text.old.items ++ quoted_byte byte) }
{
    if byte == b'$' {
        text.push(b'$')?;
    } else if is_special(byte) {
        text.push(b'\\')?;
    }
    text.push(byte)?;
    Ok(())
}

/// Appends a part of a word, so that it is read as it is.
pub fn push_quoted(text: &mut Vec<u8>, part: &[u8]) -> Result<(), AllocError>
    ensures { OnOk result (text.new.items ≡ text.old.items ++ quoted part.now) }
{
    for byte in part {
        push_quoted_byte(text, *byte)?;
    }
    Ok(())
}
