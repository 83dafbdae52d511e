//! Where a text would have a value that GNU make has built in.
ghost use Rattle.std.specs.Prelude.{◌≡◌, ◌≤◌, length, option_map};
ghost use Rattle.std.specs.List.{prefix_len};
ghost use Rattle.mk_notes.specs.BuiltIn.{is_prefix, behind_prefixes, differs, unchanged, plain, name_behind, first_name, command_of, of_run};

use crate::names::{is_command, is_of_run};
use crate::notes::Notes;
use crate::references::closing;
use byte_strings::is_blank;
use mk_profile::Profile;
use std::alloc::{AllocError, Global};

/// Whether the byte says how the line is run that it stands before.
pub(crate) fn is_prefix(byte: u8) -> bool
    ensures { result ≡ is_prefix byte }
{
    byte == b'@' || (byte == b'-' || (byte == b'?' || (byte == b'!' || byte == b'+')))
}

/// A recipe line without the prefixes and blanks in front.
pub(crate) fn behind_prefixes(line: &[u8]) -> &[u8]
    ensures { result.now ≡ behind_prefixes line.now }
{
    let mut rest = line;
    while let Some((byte, after)) = rest.split_first() {
        if !is_prefix(*byte) && !is_blank(*byte) {
            return rest;
        }
        rest = after;
    }
    rest
}

/// How many bytes stand before this one.
pub(crate) fn len_before(bytes: &[u8], closing: u8) -> usize
    ensures value { result ≡ prefix_len (differs closing) bytes.now }
    ensures within { result ≤ length bytes.now }
{
    let mut count = 0;
    while count < bytes.len() && bytes[count] != closing {
        count += 1;
    }
    count
}

/// The name of a macro whose words are changed, or else the whole text in the brackets.
pub(crate) fn unchanged(text: &[u8]) -> &[u8]
    ensures { result.now ≡ unchanged text.now }
{
    let (name, change) = text.split_at(len_before(text, b':'));
    if change.contains(&b'=') { name } else { text }
}

/// The name that a text in brackets has, unless it holds references.
fn plain(text: &[u8]) -> Option<&[u8]>
    ensures { option_map (λ name. name.now) result ≡ plain text.now }
{
    let name = unchanged(text);
    if name.contains(&b'$') {
        return None;
    }
    Some(name)
}

/// The name in the brackets behind a dollar.
fn name_behind(behind: &[u8]) -> Option<&[u8]>
    ensures { option_map (λ name. name.now) result ≡ name_behind behind.now }
{
    let (opening, inner) = behind.split_first()?;
    match closing(*opening) {
        Some(closing) if inner.contains(&closing) => {
            let (text, _rest) = inner.split_at(len_before(inner, closing));
            plain(text)
        }
        _ => None,
    }
}

/// The name that a text begins with.
fn first_name(text: &[u8]) -> Option<&[u8]>
    ensures { option_map (λ name. name.now) result ≡ first_name text.now }
{
    let (first, behind) = text.split_first()?;
    if *first == b'$' {
        name_behind(behind)
    } else {
        None
    }
}

/// The command of GNU make that a line begins with.
fn command_of(line: &[u8]) -> Option<&[u8]>
    ensures { option_map (λ name. name.now) result ≡ command_of line.now }
{
    let name = first_name(behind_prefixes(line))?;
    if is_command(name) { Some(name) } else { None }
}

/// What GNU make says of a run that is named behind a dollar.
fn of_run(behind: &[u8]) -> Option<&[u8]>
    ensures { option_map (λ name. name.now) result ≡ of_run behind.now }
{
    let name = name_behind(behind)?;
    if is_of_run(name) { Some(name) } else { None }
}

impl Notes {
    /// Notes, in the wide profile, a text that begins with a command of GNU make.
    pub(crate) fn see_command(
        &mut self,
        alloc: Global,
        profile: Profile,
        file: &[u8],
        line: usize,
        text: &[u8],
    ) -> Result<(), AllocError>
        ensures found { self.new.found ≡ self.old.found }
        ensures suffixes { self.new.suffixes ≡ self.old.suffixes }
        ensures defined { self.new.defined ≡ self.old.defined }
    {
        if !profile.is_wide() {
            return Ok(());
        }
        match command_of(text) {
            Some(name) => self.keep_macro(alloc, file, line, name),
            None => Ok(()),
        }
    }

    /// Notes, in the wide profile, what GNU make says of a run where it is named behind a dollar.
    pub(crate) fn see_of_run(
        &mut self,
        alloc: Global,
        profile: Profile,
        file: &[u8],
        line: usize,
        behind: &[u8],
    ) -> Result<(), AllocError>
        ensures found { self.new.found ≡ self.old.found }
        ensures suffixes { self.new.suffixes ≡ self.old.suffixes }
        ensures defined { self.new.defined ≡ self.old.defined }
    {
        if !profile.is_wide() {
            return Ok(());
        }
        match of_run(behind) {
            Some(name) => self.keep_macro(alloc, file, line, name),
            None => Ok(()),
        }
    }
}
