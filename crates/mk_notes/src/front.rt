//! What a recipe line begins with, as it stands there.
ghost use Rattle.std.specs.Prelude.{◌≡◌, ◌≤◌, length, option_map};
ghost use Rattle.std.specs.List.{prefix_len};
ghost use Rattle.mk_notes.specs.Leading.{goes_on, bracketed, single, referred_behind, referred};

use crate::built_in::{behind_prefixes, len_before};
use crate::references::closing;
use byte_strings::first_word;
use std::alloc::{AllocError, Global};

fn goes_on(byte: u8) -> bool
    ensures { result ≡ goes_on byte }
{
    0x80 <= byte && byte <= 0xbf
}

/// How many bytes go on with a character.
fn character_len(bytes: &[u8]) -> usize
    ensures value { result ≡ prefix_len goes_on bytes.now }
    ensures within { result ≤ length bytes.now }
{
    let mut count = 0;
    while count < bytes.len() && goes_on(bytes[count]) {
        count += 1;
    }
    count
}

/// What stands in brackets, and behind them. What holds references is none.
fn bracketed(closing: u8, inner: &[u8]) -> Option<(&[u8], &[u8])>
    ensures { option_map (λ parts. (parts.0.now, parts.1.now)) result ≡ bracketed closing inner.now }
{
    if !inner.contains(&closing) {
        return None;
    }
    let (inside, rest) = inner.split_at(len_before(inner, closing));
    match rest.split_first() {
        Some((_closing, behind)) if !inside.contains(&b'$') => Some((inside, behind)),
        _ => None,
    }
}

/// The character that a text begins with, and what stands behind it.
fn single(text: &[u8]) -> (&[u8], &[u8])
    ensures { (result.0.now, result.1.now) ≡ single text.now }
{
    match text.split_first() {
        Some((_first, more)) => text.split_at(1 + character_len(more)),
        None => (text, text),
    }
}

pub(crate) fn referred_behind(behind: &[u8]) -> Option<(&[u8], &[u8])>
    ensures { option_map (λ parts. (parts.0.now, parts.1.now)) result ≡ referred_behind behind.now }
{
    let (first, inner) = behind.split_first()?;
    if *first == b'$' {
        return None;
    }
    match closing(*first) {
        Some(closing) => bracketed(closing, inner),
        None => Some(single(behind)),
    }
}

/// What the reference that a text begins with has in its brackets, or the character behind its dollar; and what stands behind it.
pub(crate) fn referred(text: &[u8]) -> Option<(&[u8], &[u8])>
    ensures { option_map (λ parts. (parts.0.now, parts.1.now)) result ≡ referred text.now }
{
    let (first, behind) = text.split_first()?;
    if *first == b'$' {
        referred_behind(behind)
    } else {
        None
    }
}

/// What stands behind the references, prefixes and blanks that a text begins with.
fn behind_references(text: &[u8]) -> &[u8] {
    let mut rest = behind_prefixes(text);
    for _ in 0..text.len() {
        let Some((_inside, behind)) = referred(rest) else {
            break;
        };
        rest = behind_prefixes(behind);
    }
    rest
}

/// What a recipe line begins with, down to the first byte outside references that is neither a prefix nor a blank; None where that is no
/// reference. A dollar that begins no reference isn't there.
pub(crate) fn front(line: &[u8]) -> Option<&[u8]> {
    referred(behind_prefixes(line))?;
    let rest = behind_references(line);
    let last = match rest.first() {
        None | Some(b'$') => 0,
        Some(_) => 1,
    };
    line.get(..line.len().saturating_sub(rest.len()).saturating_add(last))
}

/// As much of a macro's text as says what it comes to begins with: down to the end of the first word that has such a byte.
pub(crate) fn head(text: &[u8]) -> &[u8] {
    let rest = behind_references(text);
    let word = first_word(rest);
    if word.contains(&b'$') {
        return text;
    }
    let len = text.len().saturating_sub(rest.len());
    text.get(..len.saturating_add(word.len())).unwrap_or(text)
}

/// The reference to the macro as it would be if its words weren't changed.
pub(crate) fn unchanged_reference(
    alloc: Global,
    reference: &[u8],
    name: &[u8],
) -> Result<Vec<u8>, AllocError> {
    let mut plain = Vec::new(alloc);
    if let [dollar, opening, ..] = reference {
        plain.push(*dollar)?;
        plain.push(*opening)?;
    }
    plain.extend_from_slice(name)?;
    if let Some(closing) = reference.last() {
        plain.push(*closing)?;
    }
    Ok(plain)
}
