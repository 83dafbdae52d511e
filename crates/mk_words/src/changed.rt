//! Words that change by a pattern.
ghost use Rattle.std.specs.Prelude.{◌≡◌, ◌+◌, ◌<◌, ◌++◌, ◌∷◌, ◌&&◌, [], length, drop, true, false, not, is_some, map, filter, if◌then◌else◌, IfOk, OnOk, MatchOption};
ghost use Rattle.mk_words.specs.Words.{words_of, spaced};
ghost use Rattle.mk_words.specs.Patterns.{pattern_of, stem_of};
ghost use Rattle.mk_words.specs.Changed.{filled, changed, changed_words, ends_word, is_next, ends_open, exchanged, exchanged_all, patsubst_of, changed_ends, substitution_of};

use crate::cursor::{Words, is_space};
use crate::joined::{push_word, without_last};
use crate::patterns::{Pattern, stem_of};
use std::alloc::{AllocError, Global};

/// Adds a replacement with this in the place of its `%`.
fn push_filled(out: &mut Vec<u8>, to: &Pattern<'_>, stem: &[u8]) -> Result<(), AllocError>
    ensures { OnOk result (out.new.items ≡ out.old.items ++ filled to.now stem.now) }
{
    out.extend_from_slice(to.front.as_slice())?;
    if let Some(behind) = to.behind {
        out.extend_from_slice(stem)?;
        out.extend_from_slice(behind)?;
    }
    Ok(())
}

/// Adds what a word becomes, and a space.
fn push_changed(
    out: &mut Vec<u8>,
    front: &[u8],
    behind: &[u8],
    to: &Pattern<'_>,
    word: &[u8],
) -> Result<(), AllocError>
    ensures { OnOk result (out.new.items ≡ out.old.items ++ (changed front.now behind.now to.now word.now ++ 32 ∷ [])) }
{
    match stem_of(front, behind, word) {
        None => push_word(out, word),
        Some(stem) => {
            push_filled(out, to, stem)?;
            push_word(out, b"")
        }
    }
}

/// The words that haven't this form.
fn other_words(
    alloc: Global,
    front: &[u8],
    behind: &[u8],
    text: &[u8],
) -> Result<Vec<u8>, AllocError>
    ensures { IfOk result (λ v. v.items ≡ spaced (filter (λ word. not (is_some (stem_of front.now behind.now word))) (words_of text.now))) }
{
    let mut out = Vec::new(alloc);
    for word in Words::new(text) {
        if stem_of(front, behind, word).is_none() {
            push_word(&mut out, word)?;
        }
    }
    Ok(without_last(out))
}

fn changed_words(
    alloc: Global,
    front: &[u8],
    behind: &[u8],
    replacement: &[u8],
    text: &[u8],
) -> Result<Vec<u8>, AllocError>
    ensures { IfOk result (λ v. v.items ≡ changed_words front.now behind.now replacement.now text.now) }
{
    if replacement.is_empty() {
        return other_words(alloc, front, behind, text);
    }
    let to = Pattern::of(alloc, replacement)?;
    let mut out = Vec::new(alloc);
    for word in Words::new(text) {
        push_changed(&mut out, front, behind, &to, word)?;
    }
    Ok(without_last(out))
}

fn ends_word(text: &[u8]) -> bool
    ensures { result ≡ ends_word text.now }
{
    match text.split_first() {
        None => true,
        Some((byte, _)) => is_space(*byte),
    }
}

/// What stands behind the word, where one begins and it is this.
fn behind_next<'a>(begins: bool, word: &[u8], text: &'a [u8]) -> Option<&'a [u8]>
    ensures { MatchOption result ((begins && is_next word.now text.now) ≡ false) (λ rest. ((begins && is_next word.now text.now) ≡ true) × (rest.now ≡ drop (length word.now) text.now) × (length rest.now + length word.now ≡ length text.now)) }
{
    if !begins {
        return None;
    }
    let rest = text.strip_prefix(word)?;
    if ends_word(rest) { Some(rest) } else { None }
}

/// Each word that is this one, which isn't empty, with another text in its place.
fn exchanged(alloc: Global, from: &[u8], to: &[u8], text: &[u8]) -> Result<Vec<u8>, AllocError>
    requires { 0 < length from.now }
    ensures { IfOk result (λ v. v.items ≡ exchanged from.now to.now 0 true text.now) }
{
    let mut out = Vec::new(alloc);
    let mut rest = text;
    let mut begins = true;
    while let Some((byte, after)) = rest.split_first() {
        match behind_next(begins, from, rest) {
            Some(behind) => {
                out.extend_from_slice(to)?;
                begins = false;
                rest = behind;
            }
            None => {
                out.push(*byte)?;
                begins = is_space(*byte);
                rest = after;
            }
        }
    }
    Ok(out)
}

/// No word stands at the end of the text.
fn ends_open(text: &[u8]) -> bool
    ensures { result ≡ ends_open text.now }
{
    match text.last() {
        None => true,
        Some(byte) => is_space(*byte),
    }
}

/// The text, with another one behind it where no word stands at its end.
fn with_end(alloc: Global, text: &[u8], other: &[u8]) -> Result<Vec<u8>, AllocError>
    ensures { IfOk result (λ v. v.items ≡ (if ends_open text.now then text.now ++ other.now else text.now)) }
{
    let mut out = Vec::from_slice(alloc, text)?;
    if ends_open(text) {
        out.extend_from_slice(other)?;
    }
    Ok(out)
}

/// Each word that is this one with the replacement in its place.
fn exchanged_words(
    alloc: Global,
    word: &[u8],
    replacement: &[u8],
    text: &[u8],
) -> Result<Vec<u8>, AllocError>
    ensures { IfOk result (λ v. v.items ≡ exchanged_all word.now (filled (pattern_of replacement.now) (37 ∷ [])) text.now) }
{
    let to = Pattern::of(alloc, replacement)?;
    let mut other = Vec::new(alloc);
    push_filled(&mut other, &to, b"%")?;
    if word.is_empty() {
        return with_end(alloc, text, other.as_slice());
    }
    exchanged(alloc, word, other.as_slice(), text)
}

/// `$(patsubst PATTERN,REPLACEMENT,TEXT)`
pub fn patsubst(
    alloc: Global,
    pattern: &[u8],
    replacement: &[u8],
    text: &[u8],
) -> Result<Vec<u8>, AllocError>
    ensures { IfOk result (λ v. v.items ≡ patsubst_of (pattern_of pattern.now) replacement.now text.now) }
{
    let from = Pattern::of(alloc, pattern)?;
    let behind = from.behind;
    let front = from.front.as_slice();
    match behind {
        Some(behind) => changed_words(alloc, front, behind, replacement, text),
        None => exchanged_words(alloc, front, replacement, text),
    }
}

/// The words that end in these bytes have others in their place, as they stand.
fn changed_ends(alloc: Global, end: &[u8], to: &[u8], text: &[u8]) -> Result<Vec<u8>, AllocError>
    ensures { IfOk result (λ v. v.items ≡ changed_ends end.now to.now text.now) }
{
    let to = Pattern {
        front: Vec::new(alloc),
        behind: Some(to),
    };
    let mut out = Vec::new(alloc);
    for word in Words::new(text) {
        push_changed(&mut out, b"", end, &to, word)?;
    }
    Ok(without_last(out))
}

/// `$(NAME:FROM=TO)`, of the name's value.
pub fn substitution(
    alloc: Global,
    from: &[u8],
    to: &[u8],
    value: &[u8],
) -> Result<Vec<u8>, AllocError>
    ensures { IfOk result (λ v. v.items ≡ substitution_of (pattern_of from.now) to.now value.now) }
{
    let from = Pattern::of(alloc, from)?;
    let behind = from.behind;
    let front = from.front.as_slice();
    match behind {
        Some(behind) => changed_words(alloc, front, behind, to, value),
        None => changed_ends(alloc, front, to, value),
    }
}
