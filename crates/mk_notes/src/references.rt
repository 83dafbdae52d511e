//! The references of a text that are empty here.
ghost use Rattle.std.specs.Prelude.{◌≡◌, ◌≤◌, false, length, IfOk, OnOk, option_map};
ghost use Rattle.std.specs.List.{list_any, prefix_len};
ghost use Rattle.mk_notes.specs.Notes.{all_noted};
ghost use Rattle.mk_notes.specs.References.{is_letter, is_dollar, closing, called, begins_with_blank, word_at, is_automatic, subject_at, listed, subjects_in};

use crate::note::Subject;
use crate::notes::Notes;
use byte_strings::{ByteString, is_blank};
use mk_profile::Profile;
use std::alloc::{AllocError, Global};

/// What may stand in the name of a function.
fn is_letter(byte: u8) -> bool
    ensures { result ≡ is_letter byte }
{
    (b'a' <= byte && byte <= b'z') || byte == b'-'
}

fn word_len(bytes: &[u8]) -> usize
    ensures value { result ≡ prefix_len is_letter bytes.now }
    ensures within { result ≤ length bytes.now }
{
    let mut count = 0;
    while count < bytes.len() && is_letter(bytes[count]) {
        count += 1;
    }
    count
}

fn begins_with_blank(bytes: &[u8]) -> bool
    ensures { result ≡ begins_with_blank bytes.now }
{
    match bytes.first() {
        Some(byte) => is_blank(*byte),
        None => false,
    }
}

/// The name of the function that these bytes call, which stand behind an opening bracket.
fn word_at(bytes: &[u8]) -> Option<&[u8]>
    ensures { option_map (λ word. word.now) result ≡ word_at bytes.now }
{
    let (word, rest) = bytes.split_at(word_len(bytes));
    if word.is_empty() || !begins_with_blank(rest) {
        return None;
    }
    Some(word)
}

/// What closes a bracket, if the byte is one.
pub(crate) fn closing(byte: u8) -> Option<u8>
    ensures { result ≡ closing byte }
{
    if byte == b'(' {
        return Some(b')');
    }
    if byte == b'{' { Some(b'}') } else { None }
}

/// The name of the function that a bracket calls, with what follows it. One that isn't closed calls none.
fn called(byte: u8, after: &[u8]) -> Option<&[u8]>
    ensures { option_map (λ word. word.now) result ≡ called byte after.now }
{
    match closing(byte) {
        Some(closing) if after.contains(&closing) => word_at(after),
        _ => None,
    }
}

/// An automatic macro that is empty in this language.
pub(crate) fn is_automatic(profile: Profile, byte: u8) -> bool
    ensures { result ≡ is_automatic profile byte }
{
    !profile.is_wide() && (byte == b'^' || byte == b'+' || byte == b'|')
}

/// What is to be noted of the reference that a byte begins behind a dollar, with what follows it.
fn subject_at(
    alloc: Global,
    profile: Profile,
    byte: u8,
    after: &[u8],
) -> Result<Option<Subject>, AllocError>
    ensures { IfOk result (λ found. found ≡ subject_at profile byte after.now) }
{
    if is_automatic(profile, byte) {
        return Ok(Some(Subject::Automatic(byte)));
    }
    if profile.is_wide() {
        return Ok(None);
    }
    match called(byte, after) {
        Some(word) => Ok(Some(Subject::Function(ByteString::from_slice(alloc, word)?))),
        None => Ok(None),
    }
}

fn has_dollar(text: &[u8]) -> bool
    ensures { result ≡ list_any is_dollar text.now }
{
    text.contains(&b'$')
}

impl Notes {
    /// Notes what a reference is, where that is anything.
    fn note_reference(
        &mut self,
        alloc: Global,
        profile: Profile,
        file: &[u8],
        line: usize,
        byte: u8,
        after: &[u8],
    ) -> Result<(), AllocError>
        ensures found { OnOk result (self.new.found.items
            ≡ all_noted file.now line (listed (subject_at profile byte after.now)) self.old.found.items) }
        ensures suffixes { self.new.suffixes ≡ self.old.suffixes }
        ensures defined { self.new.defined ≡ self.old.defined }
    {
        match subject_at(alloc, profile, byte, after)? {
            Some(subject) => self.note(alloc, file, line, subject),
            None => Ok(()),
        }
    }

    /// Notes the references of a text that has some.
    #[inline(never)]
    fn note_references(
        &mut self,
        alloc: Global,
        profile: Profile,
        file: &[u8],
        line: usize,
        text: &[u8],
    ) -> Result<(), AllocError>
        ensures found { OnOk result (self.new.found.items ≡ all_noted file.now line (subjects_in profile false text.now) self.old.found.items) }
        ensures suffixes { self.new.suffixes ≡ self.old.suffixes }
        ensures defined { self.new.defined ≡ self.old.defined }
    {
        let mut rest = text;
        let mut is_behind = false;
        while let Some((byte, after)) = rest.split_first() {
            if is_behind && *byte != b'$' {
                self.note_reference(alloc, profile, file, line, *byte, after)?;
                self.see_of_run(alloc, profile, file, line, rest)?;
                self.see_referred(alloc, file, line, rest)?;
            }
            is_behind = *byte == b'$' && !is_behind;
            rest = after;
        }
        Ok(())
    }

    /// Notes the references of a text.
    #[inline]
    pub(crate) fn note_text(
        &mut self,
        alloc: Global,
        profile: Profile,
        file: &[u8],
        line: usize,
        text: &[u8],
    ) -> Result<(), AllocError>
        ensures found { OnOk result (self.new.found.items ≡ all_noted file.now line (subjects_in profile false text.now) self.old.found.items) }
        ensures suffixes { self.new.suffixes ≡ self.old.suffixes }
        ensures defined { self.new.defined ≡ self.old.defined }
    {
        if !has_dollar(text) {
            return Ok(());
        }
        self.note_references(alloc, profile, file, line, text)
    }
}
