//! The notes of a run, each of them said once.
ghost use Rattle.std.specs.Prelude.{◌≡◌, [], OnOk};
ghost use Rattle.std.specs.List.{list_any};
ghost use Rattle.mk_notes.specs.Notes.{is_same, noted};

use crate::fronts::Fronts;
use crate::note::{Note, Subject};
use crate::undefined::Referred;
use byte_strings::{ByteString, ByteStrings};
use std::alloc::{AllocError, Global};

/// What was noted of the makefiles so far.
#[derive(Drop)]
pub struct Notes {
    /// In the order of reading.
    pub found: Vec<Note>,
    /// The lines of `.SUFFIXES`, one behind the other, each with a blank.
    pub suffixes: Vec<u8>,
    /// What is defined of what would be empty: the bytes of automatic macros, and a blank for any name that has one.
    pub defined: Vec<u8>,
    /// The names that are defined, in the wide profile.
    pub names: ByteStrings,
    /// There, the first place of each macro that is empty unless one of these is its name.
    pub leading: Vec<Note>,
    /// What recipe lines of the strict profile begin with.
    pub fronts: Fronts,
    /// The macros that are referred to, where those are asked for that nothing defines.
    pub referred: Option<Referred>,
}

/// Whether one note serves for both.
fn is_same(one: &Subject, other: &Subject) -> bool
    ensures { result ≡ is_same one.now other.now }
{
    match (one, other) {
        (Subject::Function(_), Subject::Function(_)) => true,
        (Subject::Automatic(one), Subject::Automatic(other)) => *one == *other,
        (Subject::SuffixRule(one), Subject::SuffixRule(other)) => one.as_slice()
            == other.as_slice(),
        (Subject::PlainTarget(one), Subject::PlainTarget(other)) => {
            one.as_slice() == other.as_slice()
        }
        (Subject::Target(one), Subject::Target(other)) => one.as_slice() == other.as_slice(),
        _ => false,
    }
}

impl Notes {
    pub fn new(alloc: Global) -> Notes
        ensures found { result.found.items ≡ [] }
        ensures suffixes { result.suffixes.items ≡ [] }
        ensures defined { result.defined.items ≡ [] }
    {
        Notes {
            found: Vec::new(alloc),
            suffixes: Vec::new(alloc),
            defined: Vec::new(alloc),
            names: ByteStrings::empty(alloc),
            leading: Vec::new(alloc),
            fronts: Fronts::new(alloc),
            referred: None,
        }
    }

    fn has(&self, subject: &Subject) -> bool
        ensures { result ≡ list_any (λ note. is_same note.subject subject.now) self.now.found.items }
    {
        self.found
            .iter()
            .any(|note| is_same(&note.subject, subject))
    }

    /// Notes the subject, unless it was noted before.
    pub(crate) fn note(
        &mut self,
        alloc: Global,
        file: &[u8],
        line: usize,
        subject: Subject,
    ) -> Result<(), AllocError>
        ensures found { OnOk result (self.new.found.items ≡ noted file.now line subject self.old.found.items) }
        ensures suffixes { self.new.suffixes ≡ self.old.suffixes }
        ensures defined { self.new.defined ≡ self.old.defined }
    {
        if self.has(&subject) {
            return Ok(());
        }
        let file = ByteString::from_slice(alloc, file)?;
        self.found.push(Note {
            file,
            line,
            subject,
        })?;
        Ok(())
    }
}
