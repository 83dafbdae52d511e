//! Patterns read as their elements.
ghost use Rattle.std.specs.Prelude.{◌≡◌, ◌+◌, ◌≤◌, length, drop, IfOk, IfSome};
ghost use Rattle.std.specs.List.{position_or_len};
ghost use Rattle.mk_wildcards.specs.Pattern.{is_wildcard, has_wildcard, is_pattern_byte, is_pattern, is_close, sign_len, members_len, begins_class, names_class, brackets_of, brackets, element, width, elements};

use crate::element::{Brackets, Element};
use byte_strings::ByteString;
use std::alloc::{AllocError, Global};

fn is_wildcard(byte: u8) -> bool
    ensures { result ≡ is_wildcard byte }
{
    matches!(byte, b'*' | b'?' | b'[')
}

/// Whether a `*`, `?` or `[` stands in the text.
pub fn has_wildcard(text: &[u8]) -> bool
    ensures { result ≡ has_wildcard text.now }
{
    text.iter().any(|byte| is_wildcard(*byte))
}

fn is_pattern_byte(byte: u8) -> bool
    ensures { result ≡ is_pattern_byte byte }
{
    byte == b'\\' || is_wildcard(byte)
}

/// Whether the text has to be read as a pattern.
pub fn is_pattern(text: &[u8]) -> bool
    ensures { result ≡ is_pattern text.now }
{
    text.iter().any(|byte| is_pattern_byte(*byte))
}

fn sign_len(behind: &[u8]) -> usize
    ensures value { result ≡ sign_len behind.now }
    ensures within { result ≤ length behind.now }
{
    match behind.split_first() {
        Some((b'!' | b'^', _)) => 1,
        _ => 0,
    }
}

/// How many bytes stand before the first `]`.
fn closed_len(text: &[u8]) -> usize
    ensures value { result ≡ position_or_len is_close text.now }
    ensures within { result ≤ length text.now }
{
    let mut count = 0;
    while count < text.len() && text[count] != b']' {
        count += 1;
    }
    count
}

/// How many bytes stand in the brackets, where they are closed.
fn members_len(inner: &[u8]) -> Option<usize>
    ensures value { result ≡ members_len inner.now }
    ensures within { IfSome result (λ n. n + 1 ≤ length inner.now) }
{
    let (_, behind) = inner.split_first()?;
    let len = closed_len(behind);
    if len < behind.len() {
        Some(len + 1)
    } else {
        None
    }
}

fn begins_class(text: &[u8]) -> bool
    ensures { result ≡ begins_class text.now }
{
    matches!(text.split_first(), Some((b':' | b'.' | b'=', _)))
}

/// Whether a class of characters, or what is written like one, begins among the members.
fn names_class(members: &[u8]) -> bool
    ensures { result ≡ names_class members.now }
{
    let mut rest = members;
    while let Some((byte, behind)) = rest.split_first() {
        if *byte == b'[' && begins_class(behind) {
            return true;
        }
        rest = behind;
    }
    false
}

fn brackets_of(
    alloc: Global,
    is_negated: bool,
    members: &[u8],
) -> Result<Option<Brackets>, AllocError>
    ensures { IfOk result (λ found. found ≡ brackets_of is_negated members.now) }
{
    if names_class(members) {
        return Ok(None);
    }
    Ok(Some(Brackets {
        is_negated,
        members: ByteString::from_slice(alloc, members)?,
    }))
}

/// The brackets whose `[` stands before this text.
fn brackets(alloc: Global, behind: &[u8]) -> Result<Option<Brackets>, AllocError>
    ensures { IfOk result (λ found. found ≡ brackets behind.now) }
{
    let signs = sign_len(behind);
    let inner = &behind[signs..];
    match members_len(inner) {
        None => Ok(None),
        Some(len) => brackets_of(alloc, signs > 0, &inner[..len]),
    }
}

/// The element of a `[`, and the text behind it.
fn bracket_element(alloc: Global, behind: &[u8]) -> Result<(Element, &[u8]), AllocError>
    ensures element { IfOk result (λ found. found.0 ≡ element 91 behind.now) }
    ensures rest { IfOk result (λ found. found.1.now ≡ drop (width 91 behind.now) behind.now) }
{
    match brackets(alloc, behind)? {
        None => Ok((Element::Byte(b'['), behind)),
        Some(found) => {
            let width = sign_len(behind) + (found.members.as_slice().len() + 1);
            Ok((Element::OneOf(found), &behind[width..]))
        }
    }
}

/// The element of a `\`, and the text behind it.
fn quoted_element(behind: &[u8]) -> (Element, &[u8])
    ensures element { result.0 ≡ element 92 behind.now }
    ensures rest { result.1.now ≡ drop (width 92 behind.now) behind.now }
{
    match behind.split_first() {
        None => (Element::Byte(b'\\'), behind),
        Some((byte, rest)) => (Element::Byte(*byte), rest),
    }
}

/// The element that begins with this byte, and the text behind it.
fn element(alloc: Global, byte: u8, behind: &[u8]) -> Result<(Element, &[u8]), AllocError>
    ensures element { IfOk result (λ found. found.0 ≡ element byte behind.now) }
    ensures rest { IfOk result (λ found. found.1.now ≡ drop (width byte behind.now) behind.now) }
{
    match byte {
        b'*' => Ok((Element::AnyRun, behind)),
        b'?' => Ok((Element::AnyByte, behind)),
        b'[' => bracket_element(alloc, behind),
        b'\\' => Ok(quoted_element(behind)),
        _ => Ok((Element::Byte(byte), behind)),
    }
}

/// The elements of a pattern.
pub fn elements(alloc: Global, pattern: &[u8]) -> Result<Vec<Element>, AllocError>
    ensures { IfOk result (λ v. v.items ≡ elements pattern.now) }
{
    let mut found = Vec::new(alloc);
    let mut rest = pattern;
    while let Some((byte, behind)) = rest.split_first() {
        let (element, after) = element(alloc, *byte, behind)?;
        found.push(element)?;
        rest = after;
    }
    Ok(found)
}
