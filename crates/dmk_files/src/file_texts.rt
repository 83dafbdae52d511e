//! The texts of files, what commands write and the names in folders, by the system's calls, each read and run once.
ghost use Rattle.std.specs.Prelude.{◌≡◌, None, option_map, IfOk, IfErr, IsSome};
ghost use Rattle.mk_eval.specs.Output.{World};
ghost use Rattle.dmk_files.specs.Commands.{Agree};
ghost use Rattle.dmk_files.specs.Listings.{AgreeIn};
ghost use Rattle.dmk_files.specs.Files.{known_text};

use crate::commands::Commands;
use crate::file_calls::FileCalls;
use crate::listings::{Listings, copy_of as copy_of_names};
use crate::texts::Texts;
use bd_lists::Variable;
use byte_strings::ByteStrings;
use mk_eval::Includes;
use mk_macros::{Macros, Rank};
use mk_notes::Notes;
use mk_profile::Profile;
use mk_reader::Statement;
use std::alloc::{AllocError, Global};
use std::fmt;
use std::io::{self, ErrorKind};
use std::rc::Rc;

/// A file that is there and couldn't be read, by the system's own error.
pub struct Unread {
    pub name: String,
    pub error: io::Error,
}

impl Drop for Unread {
    fn drop(self) {
        let Unread { name: _, error: _ } = self;
    }
}

impl fmt::Display for Unread {
    fn fmt<W: fmt::Write>(&self, f: &mut fmt::Formatter<W>) -> fmt::Result {
        let name = self.name.as_str();
        let error = self.error;
        write!(f, "cannot read {name}: {error}")
    }
}

/// The files of the current folder that are read, the commands that are run, and the folders that are listed. What was read of a name or of
/// a folder, and what a command wrote, holds from then on.
pub struct FileTexts<C: FileCalls + Drop> {
    calls: C,
    texts: Texts,
    commands: Commands,
    listings: Listings,
    unread: Option<Unread>,
    notes: Notes,
    /// What is defined next before a makefile is read.
    rank: Rank,
    /// What is defined before, where macros are asked for that nothing defines.
    above: Option<Macros>,
}

impl<C: FileCalls + Drop> Drop for FileTexts<C> {
    fn drop(self) {
        let FileTexts {
            calls: _,
            texts: _,
            commands: _,
            listings: _,
            unread: _,
            notes: _,
            rank: _,
            above: _,
        } = self;
    }
}

/// The bytes of a file. Only an ordinary one is opened: a pipe would be waited for, and a device may never end.
fn bytes_of<C: FileCalls>(alloc: Global, calls: &mut C, name: &str) -> io::Result<Vec<u8>> {
    if !calls.status(name)?.is_ordinary {
        return Err(io::Error::new(ErrorKind::InvalidInput, "not an ordinary file"));
    }
    calls.contents(alloc, name)
}

/// Whether an error of reading a file is to be told beside what comes of it.
fn needs_a_note(error: &io::Error) -> bool {
    let kind = error.kind();
    kind != ErrorKind::OutOfMemory && kind != ErrorKind::NotFound
}

/// The text that was read; none where it wasn't, but for want of memory.
fn text_read(found: io::Result<Vec<u8>>) -> Result<Option<Vec<u8>>, AllocError>
    ensures text { IfOk found (λ text. result ≡ Ok (Some text)) }
    ensures none { IfErr found (λ _. IfOk result (λ answer. answer ≡ None)) }
{
    match found {
        Ok(text) => Ok(Some(text)),
        Err(error) if error.kind() == ErrorKind::OutOfMemory => Err(AllocError),
        Err(_) => Ok(None),
    }
}

/// What the system gives of a name. A file that is there and can't be read is noted.
fn text_of<C: FileCalls>(
    alloc: Global,
    calls: &mut C,
    unread: &mut Option<Unread>,
    name: &[u8],
) -> Result<Option<Vec<u8>>, AllocError> {
    let Ok(name) = std::str::from_utf8(name) else {
        return Ok(None);
    };
    let error = match bytes_of(alloc, calls, name) {
        Err(error) if needs_a_note(&error) => error,
        found => return text_read(found),
    };
    let name = String::from_str(alloc, name)?;
    *unread = Some(Unread { name, error });
    Ok(None)
}

/// The names that the system gives of a folder; none where it can't be read.
fn names_of<C: FileCalls>(
    alloc: Global,
    calls: &mut C,
    folder: &[u8],
) -> Result<Option<ByteStrings>, AllocError> {
    let Ok(folder) = std::str::from_utf8(folder) else {
        return Ok(None);
    };
    match calls.names(alloc, folder) {
        Ok(names) => Ok(Some(names)),
        Err(error) if error.kind() == ErrorKind::OutOfMemory => Err(AllocError),
        Err(_) => Ok(None),
    }
}

// A text stays with the thread that reads, so its count needs no atomic steps.
/// A text that others may hold too.
fn to_share(alloc: Global, text: Option<Vec<u8>>) -> Result<Option<Rc<Vec<u8>>>, AllocError>
    ensures { IfOk result (λ shared. option_map (λ text. text.value.items) shared ≡ option_map (λ text. text.items) text) }
{
    match text {
        Some(text) => Ok(Some(Rc::new(alloc, text)?)),
        None => Ok(None),
    }
}

/// The same text for one more that holds it.
fn shared(text: &Option<Rc<Vec<u8>>>) -> Result<Option<Rc<Vec<u8>>>, AllocError>
    ensures { IfOk result (λ shared. option_map (λ text. text.value.items) shared ≡ option_map (λ text. text.value.items) text.now) }
{
    match text {
        Some(text) => Ok(Some(text.clone()?)),
        None => Ok(None),
    }
}

impl<C: FileCalls + Drop> FileTexts<C> {
    pub fn new(alloc: Global, calls: C) -> FileTexts<C> {
        FileTexts {
            calls,
            texts: Texts::new(alloc),
            commands: Commands::new(alloc),
            listings: Listings::new(alloc),
            unread: None,
            notes: Notes::new(alloc),
            rank: Rank::CommandLine,
            above: None,
        }
    }

    /// Files and folders are read anew from here on, and no command is run that was run.
    pub fn forget_texts(&mut self, alloc: Global) {
        self.texts = Texts::new(alloc);
        self.listings = Listings::new(alloc);
        self.unread = None;
    }

    /// The last file that is there and couldn't be read as a makefile.
    pub fn unread(&self) -> Option<&Unread> {
        self.unread.as_ref()
    }

    /// What there is to note of the makefiles that were read, a line each.
    pub fn note_lines(&self, alloc: Global) -> Result<ByteStrings, AllocError> {
        let mut lines = ByteStrings::empty(alloc);
        for note in self.notes.found.iter() {
            if self.notes.counts(note) {
                lines.push(format!(in alloc; "{note}")?.as_bytes())?;
            }
        }
        for note in self.notes.leading.iter() {
            if self.notes.is_undefined(note) {
                lines.push(format!(in alloc; "{note}")?.as_bytes())?;
            }
        }
        for note in self.notes.fronts.notes()?.iter() {
            lines.push(format!(in alloc; "{note}")?.as_bytes())?;
        }
        if let Some(above) = &self.above {
            for line in self.notes.undefined_lines(alloc, above)?.iter() {
                lines.push(line)?;
            }
        }
        Ok(lines)
    }

    /// Asks for the macros that makefiles refer to and that nothing defines, where this is defined before.
    pub fn ask_undefined(&mut self, alloc: Global, above: Macros) {
        self.notes.ask_undefined(alloc);
        self.above = Some(above);
    }

    /// Takes in what is defined before a makefile is read: the command line's definitions first, and then the environment's.
    pub fn define(&mut self, profile: Profile, definitions: &[Variable]) {
        for definition in definitions {
            let Variable { name, value } = definition;
            let _ = self
                .notes
                .give(profile, self.rank, name.as_slice(), value.as_slice());
        }
        self.rank = Rank::Environment;
    }

    /// The text of this name. The file is read where the name isn't known.
    fn text(&mut self, alloc: Global, name: &[u8]) -> Result<Option<Rc<Vec<u8>>>, AllocError>
        ensures text { IfOk result (λ answer. (world : World) → Agree self.new.texts self.new.commands world
            → option_map (λ text. text.value.items) answer ≡ world.files name.now) }
        ensures grows { (world : World) → Agree self.new.texts self.new.commands world → Agree self.old.texts self.old.commands world }
        ensures known { IsSome (known_text self.old.texts name.now) → self.new ≡ self.old }
        ensures listings { self.new.listings ≡ self.old.listings }
    {
        if let Some(known) = self.texts.get(name) {
            return shared(known);
        }
        let read = text_of(alloc, &mut self.calls, &mut self.unread, name)?;
        let text = to_share(alloc, read)?;
        let answer = shared(&text)?;
        self.texts.add(alloc, name, text)?;
        Ok(answer)
    }

    /// What the command writes. It is run where that isn't known.
    fn written(
        &mut self,
        alloc: Global,
        file: &[u8],
        line: usize,
        command: &[u8],
    ) -> Result<Vec<u8>, AllocError>
        ensures output { IfOk result (λ output. (world : World) → Agree self.new.texts self.new.commands world
            → output.items ≡ world.outputs file.now line command.now) }
        ensures grows { (world : World) → Agree self.new.texts self.new.commands world → Agree self.old.texts self.old.commands world }
        ensures listings { self.new.listings ≡ self.old.listings }
    {
        if let Some(known) = self.commands.get(file, line, command) {
            let copy = Vec::from_slice(alloc, known)?;
            return Ok(copy);
        }
        let output = self.calls.output(alloc, file, line, command)?;
        self.commands
            .add(alloc, file, line, command, output.as_slice())?;
        Ok(output)
    }

    /// The names in a folder. It is read where it isn't known.
    fn listed(&mut self, alloc: Global, folder: &[u8]) -> Result<Option<ByteStrings>, AllocError>
        ensures names { IfOk result (λ names. (world : World) → AgreeIn self.new.listings world.folders
            → names ≡ world.folders folder.now) }
        ensures grows { (world : World) → AgreeIn self.new.listings world.folders → AgreeIn self.old.listings world.folders }
        ensures texts { self.new.texts ≡ self.old.texts }
        ensures commands { self.new.commands ≡ self.old.commands }
    {
        if let Some(known) = self.listings.get(folder) {
            return copy_of_names(alloc, known);
        }
        let names = names_of(alloc, &mut self.calls, folder)?;
        let copy = copy_of_names(alloc, &names)?;
        self.listings.add(alloc, folder, names)?;
        Ok(copy)
    }
}

impl<C: FileCalls + Drop> Includes for FileTexts<C> {
    ghost use Rattle.std.specs.Prelude.{None, [], unwrap_or};
    ghost use Rattle.dmk_files.specs.Commands.{known_output};
    ghost use Rattle.dmk_files.specs.Listings.{known_names};
    ghost use Rattle.dmk_files.specs.Fits.{some_fit, some_fit_at};

    ghost allows = { λ source world. Agree source.texts source.commands world × AgreeIn source.listings world.folders };

    fn read(&mut self, alloc: Global, name: &[u8]) -> Result<Option<Rc<Vec<u8>>>, AllocError> {
        self.text(alloc, name)
    }

    fn output(
        &mut self,
        alloc: Global,
        file: &[u8],
        line: usize,
        command: &[u8],
    ) -> Result<Vec<u8>, AllocError> {
        self.written(alloc, file, line, command)
    }

    fn names(&mut self, alloc: Global, folder: &[u8]) -> Result<Option<ByteStrings>, AllocError> {
        self.listed(alloc, folder)
    }

    // A note that there is no memory for isn't said.
    fn see(&mut self, alloc: Global, profile: Profile, file: &[u8], statements: &[Statement]) {
        let _ = self.notes.see(alloc, profile, file, statements);
    }

    fn take_notes(&mut self, alloc: Global) -> Result<ByteStrings, AllocError> {
        let lines = self.note_lines(alloc)?;
        self.notes.found = Vec::new(alloc);
        self.notes.leading = Vec::new(alloc);
        self.notes.fronts.forget_lines();
        self.above = None;
        Ok(lines)
    }

    ghost possible = { λ source. (
      record {
        files = λ name. unwrap_or (known_text source.texts name) None;
        outputs = λ file line text. unwrap_or (known_output source.commands.run.items file line text) [];
        folders = λ folder. unwrap_or (known_names source.listings folder) None;
      },
      (
        (some_fit (known_text source.texts) None, λ file line text. some_fit_at (known_output source.commands.run.items file line text) []),
        some_fit (known_names source.listings) None,
      ),
    ) };
}
