//! Macros that notes are kept on: those that recipe lines begin with.
ghost use Rattle.std.specs.Prelude.{◌≡◌};

use crate::note::{Note, Subject};
use crate::notes::Notes;
use byte_strings::ByteString;
use mk_profile::Profile;
use std::alloc::{AllocError, Global};

fn is_on(subject: &Subject, name: &[u8]) -> bool {
    match subject {
        Subject::BuiltIn(macro_name) => macro_name.as_slice() == name,
        _ => false,
    }
}

impl Notes {
    /// Keeps a note on a macro that GNU make has built in, unless there is one.
    pub(crate) fn keep_macro(
        &mut self,
        alloc: Global,
        file: &[u8],
        line: usize,
        name: &[u8],
    ) -> Result<(), AllocError>
        ensures found { self.new.found ≡ self.old.found }
        ensures suffixes { self.new.suffixes ≡ self.old.suffixes }
        ensures defined { self.new.defined ≡ self.old.defined }
    {
        if self.leading.iter().any(|note| is_on(&note.subject, name)) {
            return Ok(());
        }
        let name = ByteString::from_slice(alloc, name)?;
        let subject = Subject::BuiltIn(name);
        let file = ByteString::from_slice(alloc, file)?;
        self.leading.push(Note {
            file,
            line,
            subject,
        })?;
        Ok(())
    }

    /// Takes in a recipe line of the strict profile, of a rule of these targets, by what it begins with.
    pub(crate) fn see_leading(
        &mut self,
        profile: Profile,
        file: &[u8],
        line: usize,
        targets: &[u8],
        text: &[u8],
    ) -> Result<(), AllocError>
        ensures found { self.new.found ≡ self.old.found }
        ensures suffixes { self.new.suffixes ≡ self.old.suffixes }
        ensures defined { self.new.defined ≡ self.old.defined }
    {
        if profile.is_wide() {
            return Ok(());
        }
        self.fronts.see_line(file, line, targets, text)
    }

    /// Whether the macro of a note that was kept is defined nowhere.
    pub fn is_undefined(&self, note: &Note) -> bool {
        match &note.subject {
            Subject::BuiltIn(name) => !self.names.iter().any(|defined| defined == name.as_slice()),
            _ => false,
        }
    }
}
