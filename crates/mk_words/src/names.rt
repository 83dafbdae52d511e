//! Parts of names of files, and names put together.
ghost use Rattle.std.specs.Prelude.{◌≡◌, ◌≤◌, ◌++◌, [], length, map, filter, IfOk};
ghost use Rattle.byte_strings.specs.Blanks.{is_nonempty};
ghost use Rattle.mk_words.specs.Words.{words_of, spaced};
ghost use Rattle.mk_words.specs.Names.{notdir_of, dir_of, suffix_of, basename_of, paired};

use crate::cursor::Words;
use crate::joined::{push_parts, push_word, without_last};
use std::alloc::{AllocError, Global};

/// What stands behind the last slash of a name.
fn notdir_of(name: &[u8]) -> &[u8]
    ensures value { result.now ≡ notdir_of name.now }
    ensures within { length result.now ≤ length name.now }
{
    let mut found = name;
    let mut rest = name;
    while let Some((byte, behind)) = rest.split_first() {
        if *byte == b'/' {
            found = behind;
        }
        rest = behind;
    }
    found
}

fn dir_of(name: &[u8]) -> &[u8]
    ensures { result.now ≡ dir_of name.now }
{
    let dir = &name[..name.len() - notdir_of(name).len()];
    if dir.is_empty() { b"./" } else { dir }
}

/// The last dot of a name with what stands behind it, or nothing where that is a slash too.
fn suffix_of(name: &[u8]) -> &[u8]
    ensures value { result.now ≡ suffix_of name.now }
    ensures within { length result.now ≤ length name.now }
{
    let mut found = b"".as_slice();
    let mut rest = name;
    while let Some((byte, behind)) = rest.split_first() {
        if *byte == b'.' {
            found = rest;
        } else if *byte == b'/' {
            found = b"";
        }
        rest = behind;
    }
    found
}

fn basename_of(name: &[u8]) -> &[u8]
    ensures { result.now ≡ basename_of name.now }
{
    &name[..name.len() - suffix_of(name).len()]
}

/// `$(dir NAMES)`
pub fn dir(alloc: Global, names: &[u8]) -> Result<Vec<u8>, AllocError>
    ensures { IfOk result (λ v. v.items ≡ spaced (map dir_of (words_of names.now))) }
{
    let mut out = Vec::new(alloc);
    for name in Words::new(names) {
        push_word(&mut out, dir_of(name))?;
    }
    Ok(without_last(out))
}

/// `$(notdir NAMES)`
pub fn notdir(alloc: Global, names: &[u8]) -> Result<Vec<u8>, AllocError>
    ensures { IfOk result (λ v. v.items ≡ spaced (map notdir_of (words_of names.now))) }
{
    let mut out = Vec::new(alloc);
    for name in Words::new(names) {
        push_word(&mut out, notdir_of(name))?;
    }
    Ok(without_last(out))
}

/// `$(suffix NAMES)`
pub fn suffix(alloc: Global, names: &[u8]) -> Result<Vec<u8>, AllocError>
    ensures { IfOk result (λ v. v.items ≡ spaced (filter is_nonempty (map suffix_of (words_of names.now)))) }
{
    let mut out = Vec::new(alloc);
    for name in Words::new(names) {
        let suffix = suffix_of(name);
        if !suffix.is_empty() {
            push_word(&mut out, suffix)?;
        }
    }
    Ok(without_last(out))
}

/// `$(basename NAMES)`
pub fn basename(alloc: Global, names: &[u8]) -> Result<Vec<u8>, AllocError>
    ensures { IfOk result (λ v. v.items ≡ spaced (map basename_of (words_of names.now))) }
{
    let mut out = Vec::new(alloc);
    for name in Words::new(names) {
        push_word(&mut out, basename_of(name))?;
    }
    Ok(without_last(out))
}

/// `$(addsuffix SUFFIX,NAMES)`
pub fn add_suffix(alloc: Global, suffix: &[u8], names: &[u8]) -> Result<Vec<u8>, AllocError>
    ensures { IfOk result (λ v. v.items ≡ spaced (map (λ name. name ++ suffix.now) (words_of names.now))) }
{
    let mut out = Vec::new(alloc);
    for name in Words::new(names) {
        push_parts(&mut out, name, suffix)?;
    }
    Ok(without_last(out))
}

/// `$(addprefix PREFIX,NAMES)`
pub fn add_prefix(alloc: Global, prefix: &[u8], names: &[u8]) -> Result<Vec<u8>, AllocError>
    ensures { IfOk result (λ v. v.items ≡ spaced (map (λ name. prefix.now ++ name) (words_of names.now))) }
{
    let mut out = Vec::new(alloc);
    for name in Words::new(names) {
        push_parts(&mut out, prefix, name)?;
    }
    Ok(without_last(out))
}

/// `$(join FIRST,SECOND)`
pub fn join(alloc: Global, first: &[u8], second: &[u8]) -> Result<Vec<u8>, AllocError>
    ensures { IfOk result (λ v. v.items ≡ spaced (paired (words_of first.now) (words_of second.now))) }
{
    let mut out = Vec::new(alloc);
    let mut others = Words::new(second);
    for word in Words::new(first) {
        push_parts(&mut out, word, others.next().unwrap_or(b""))?;
    }
    for word in others {
        push_word(&mut out, word)?;
    }
    Ok(without_last(out))
}
