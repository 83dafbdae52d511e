//! Commands by which a compiler writes what it read elsewhere than into the report, and where: by the options of gcc.
use byte_strings::{ByteStrings, Words};
use mk_depfiles::depfile_of;
use mk_names::Names;
use std::alloc::{AllocError, Global};

/// The options that have gcc write what it read into a file of its own: then it writes no report.
const ELSEWHERE: [&[u8]; 2] = [b"-MD", b"-MMD"];

/// What the names of files end in of which one such file each is written.
const SOURCES: [&[u8]; 9] = [
    b".c", b".cc", b".cpp", b".cxx", b".C", b".S", b".m", b".mm", b".c++",
];

/// The words by which a shell goes into another folder.
const FOLDERS: [&[u8]; 3] = [b"cd", b"(cd", b"pushd"];

/// The file that lies in the place of another one's suffix.
const DEPFILE: &[u8] = b"%.d";

/// What automake has the file written as, and renamed into.
const WRITTEN: &[u8] = b".Tpo";

const RENAMED: &[u8] = b"%.Po";

/// Whether a word has one of these options, by itself or among those that gcc hands to its preprocessor.
fn is_elsewhere(word: &[u8]) -> bool {
    match word.strip_prefix(b"-Wp,".as_slice()) {
        Some(handed) => handed
            .split(|byte| *byte == b',')
            .any(|option| is_option(option)),
        None => is_option(word),
    }
}

fn is_option(word: &[u8]) -> bool {
    ELSEWHERE.iter().any(|option| *option == word)
}

/// Whether a command has such a word.
pub(crate) fn tells_elsewhere(command: &[u8]) -> bool {
    Words::new(command).any(|word| is_elsewhere(word))
}

/// Whether names behind it are those of another folder.
fn is_of_folder(word: &[u8]) -> bool {
    FOLDERS.iter().any(|program| *program == word)
}

fn is_source(word: &[u8]) -> bool {
    SOURCES.iter().any(|end| word.ends_with(end))
}

/// A word without the quotes or the semicolon of a shell around it.
fn bare(word: &[u8]) -> &[u8] {
    let word = word.strip_suffix(b";".as_slice()).unwrap_or(word);
    for quote in [b"\"".as_slice(), b"'".as_slice()] {
        if let Some(inner) = word
            .strip_prefix(quote)
            .and_then(|rest| rest.strip_suffix(quote))
        {
            return inner;
        }
    }
    word
}

/// The value of an option: the word behind it, or what stands behind it in its word.
fn value<'w>(option: &[u8], before: &[u8], word: &'w [u8]) -> Option<&'w [u8]> {
    if before == option {
        return Some(word);
    }
    word.strip_prefix(option).filter(|rest| !rest.is_empty())
}

fn file_of(path: &[u8]) -> &[u8] {
    path.rsplit(|byte| *byte == b'/').next().unwrap_or(path)
}

/// Where the compilers of a command may write what they read, each place once, and of how many sources.
#[derive(Drop)]
pub(crate) struct Places {
    alloc: Global,
    pub(crate) found: Names,
    pub(crate) sources: usize,
}

impl Places {
    fn add(&mut self, path: &[u8]) -> Result<(), AllocError> {
        let _is_new = self.found.mention(self.alloc, path)?;
        Ok(())
    }

    fn add_beside(&mut self, pattern: &[u8], path: &[u8]) -> Result<(), AllocError> {
        let beside = depfile_of(self.alloc, pattern, path)?;
        self.add(&beside)
    }

    /// A file that is named, which automake renames.
    fn add_named(&mut self, path: &[u8]) -> Result<(), AllocError> {
        self.add(path)?;
        if path.ends_with(WRITTEN) {
            self.add_beside(RENAMED, path)?;
        }
        Ok(())
    }

    /// What is handed to the preprocessor names the file behind the option.
    fn add_handed(&mut self, handed: &[u8]) -> Result<(), AllocError> {
        let mut before = b"".as_slice();
        for part in handed.split(|byte| *byte == b',') {
            if is_option(before) {
                self.add_named(part)?;
            }
            before = part;
        }
        Ok(())
    }

    /// That of a source: in the folder at hand, and where a program is made of it, by the program's name too.
    fn add_source(&mut self, object: Option<&[u8]>, source: &[u8]) -> Result<(), AllocError> {
        self.sources = self.sources.saturating_add(1);
        let file = file_of(source);
        self.add_beside(DEPFILE, file)?;
        if let Some(object) = object {
            let mut path = Vec::from_slice(self.alloc, object)?;
            path.push(b'-')?;
            path.extend_from_slice(file)?;
            self.add_beside(DEPFILE, &path)?;
        }
        Ok(())
    }

    fn add_word(
        &mut self,
        object: Option<&[u8]>,
        before: &[u8],
        word: &[u8],
    ) -> Result<(), AllocError> {
        if let Some(handed) = word.strip_prefix(b"-Wp,".as_slice()) {
            return self.add_handed(handed);
        }
        if let Some(path) = value(b"-MF", before, word) {
            return self.add_named(path);
        }
        if let Some(path) = value(b"-o", before, word) {
            return self.add_beside(DEPFILE, path);
        }
        if is_source(word) {
            return self.add_source(object, word);
        }
        Ok(())
    }
}

/// The last object or program that a command names.
fn object_of(command: &[u8]) -> Option<&[u8]> {
    let mut object = None;
    let mut before = b"".as_slice();
    for word in Words::new(command) {
        let word = bare(word);
        object = value(b"-o", before, word).or(object);
        before = word;
    }
    object
}

/// Where the compilers of a command may write what they read: behind `-MF`, or beside what they make or in the folder at hand, with the
/// suffix `.d` (GCC manual, "Options Controlling the Preprocessor"). None of a command that goes into another folder, whose names those
/// are.
pub(crate) fn places_told(alloc: Global, command: &[u8]) -> Result<Places, AllocError> {
    let mut places = Places {
        alloc,
        found: Names::new(alloc),
        sources: 0,
    };
    if !tells_elsewhere(command) || Words::new(command).any(|word| is_of_folder(word)) {
        return Ok(places);
    }
    let object = object_of(command);
    let mut before = b"".as_slice();
    for word in Words::new(command) {
        let word = bare(word);
        places.add_word(object, before, word)?;
        before = word;
    }
    Ok(places)
}
