//! Macros that a makefile refers to and that nothing defines, where they are asked for.
ghost use Rattle.std.specs.Prelude.{◌≡◌, option_map};
ghost use Rattle.std.specs.List.{list_any};
ghost use Rattle.byte_strings.specs.Blanks.{is_blank};
ghost use Rattle.mk_notes.specs.Undefined.{is_automatic_byte, is_part, is_automatic_name, if_definable, macro_behind};

use crate::built_in::unchanged;
use crate::front::referred_behind;
use crate::note::{Note, Subject};
use crate::notes::Notes;
use byte_strings::{ByteString, ByteStrings, is_blank};
use mk_macros::Macros;
use mk_names::Names;
use mk_reader::BUILT_IN;
use std::alloc::{AllocError, Global};

/// The names of automatic macros.
const AUTOMATIC: &[u8] = b"@%?<*^+|";

/// The macros that are referred to, each with the first place where it is.
#[derive(Drop)]
pub struct Referred {
    names: Names,
    /// By number.
    places: Vec<Note>,
}

fn is_automatic_byte(byte: u8) -> bool
    ensures { result ≡ is_automatic_byte byte }
{
    AUTOMATIC.contains(&byte)
}

/// Whether nothing stands behind an automatic macro's name, or what asks for its folder or file alone.
fn is_part(rest: &[u8]) -> bool
    ensures { result ≡ is_part rest.now }
{
    match rest {
        [] => true,
        [byte] => *byte == b'D' || *byte == b'F',
        _ => false,
    }
}

fn is_automatic_name(name: &[u8]) -> bool
    ensures { result ≡ is_automatic_name name.now }
{
    match name.split_first() {
        Some((byte, rest)) => is_automatic_byte(*byte) && is_part(rest),
        None => false,
    }
}

fn has_blank(name: &[u8]) -> bool
    ensures { result ≡ list_any is_blank name.now }
{
    name.iter().any(|byte| is_blank(*byte))
}

/// The name, if it is one that a makefile may define.
fn if_definable(name: &[u8]) -> Option<&[u8]>
    ensures { option_map (λ name. name.now) result ≡ if_definable name.now }
{
    if name.is_empty() || is_automatic_name(name) || has_blank(name) {
        None
    } else {
        Some(name)
    }
}

/// The macro of the reference that stands behind a dollar.
fn macro_behind(behind: &[u8]) -> Option<&[u8]>
    ensures { option_map (λ name. name.now) result ≡ macro_behind behind.now }
{
    let (inside, _rest) = referred_behind(behind)?;
    if_definable(unchanged(inside))
}

impl Referred {
    /// Takes in that a macro is referred to there.
    fn add(
        &mut self,
        alloc: Global,
        file: &[u8],
        line: usize,
        name: &[u8],
    ) -> Result<(), AllocError> {
        if !self.names.mention(alloc, name)? {
            return Ok(());
        }
        let subject = Subject::Undefined(ByteString::from_slice(alloc, name)?);
        let file = ByteString::from_slice(alloc, file)?;
        self.places.push(Note {
            file,
            line,
            subject,
        })?;
        Ok(())
    }
}

impl Notes {
    /// Asks for the macros that are referred to and that nothing defines.
    pub fn ask_undefined(&mut self, alloc: Global)
        ensures found { self.new.found ≡ self.old.found }
        ensures suffixes { self.new.suffixes ≡ self.old.suffixes }
        ensures defined { self.new.defined ≡ self.old.defined }
    {
        self.referred = Some(Referred {
            names: Names::new(alloc),
            places: Vec::new(alloc),
        });
    }

    /// Takes in the macro of the reference that stands behind a dollar, where it is asked for: what rules that are built in refer to may
    /// be defined or not.
    pub(crate) fn see_referred(
        &mut self,
        alloc: Global,
        file: &[u8],
        line: usize,
        behind: &[u8],
    ) -> Result<(), AllocError>
        ensures found { self.new.found ≡ self.old.found }
        ensures suffixes { self.new.suffixes ≡ self.old.suffixes }
        ensures defined { self.new.defined ≡ self.old.defined }
    {
        let Some(referred) = &mut self.referred else {
            return Ok(());
        };
        match macro_behind(behind) {
            Some(name) if file != BUILT_IN => referred.add(alloc, file, line, name),
            _ => Ok(()),
        }
    }

    /// A line for each macro that was referred to and that nothing defines, here or above; at its first place, in their order.
    pub fn undefined_lines(
        &self,
        alloc: Global,
        above: &Macros,
    ) -> Result<ByteStrings, AllocError> {
        let mut lines = ByteStrings::empty(alloc);
        let Some(referred) = &self.referred else {
            return Ok(lines);
        };
        let mut defined = Names::new(alloc);
        for name in self.names.iter() {
            let _new = defined.mention(alloc, name)?;
        }
        for note in referred.places.iter() {
            if let Subject::Undefined(name) = &note.subject {
                let name = name.as_slice();
                if defined.number_of(name).is_none() && !above.is_defined(name) {
                    lines.push(format!(in alloc; "{note}")?.as_bytes())?;
                }
            }
        }
        Ok(lines)
    }
}
