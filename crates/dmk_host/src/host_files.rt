//! Files and folders by the system's own calls, and the commands of definitions by its shell.
ghost use Rattle.std.specs.Prelude.{◌≡◌, ℕ, List, None};
ghost use Rattle.dmk_files.specs.Stamps.{known_stamp};

use crate::always_run::NONE;
use crate::assumed::Assumed;
use crate::include_folders::IncludeFolders;
use crate::looks::Looks;
use crate::standard_streams::with_patience;
use bd_lists::Variable;
use byte_strings::ByteStrings;
use dmk_files::{FileCalls, FileStatus, FileTexts, FileTree};
use dmk_reading::Options;
use dmk_words::INPUT;
use jb_host::{DryShell, Written};
use mk_profile::Profile;
use plain_text::Plain;
use std::alloc::{AllocError, Global};
use std::fs::{self, File};
use std::io::{self, ErrorKind, Read, Write};

/// The files of the current folder, and those that names lead to from there.
#[derive(Drop)]
pub struct HostFiles<'a> {
    rt: HostRuntime,
    looks: Looks,
    /// What standard input held, which then is the text of the name `-`.
    input: Option<&'a [u8]>,
    /// What the environment of commands has beside dmk's own.
    env: &'a [Variable],
    /// The language of makefiles: in the wide one a byte order mark at the front is no part of a file.
    profile: Profile,
    /// Where makefiles are looked for that aren't there.
    folders: Option<&'a IncludeFolders>,
    /// What counts of files though it isn't so.
    assumed: Option<&'a Assumed>,
}

/// Reads standard input to its end.
pub fn read_input(rt: HostRuntime) -> io::Result<Vec<u8>> {
    let mut input = Vec::new(rt.alloc());
    rt.stdin().read_to_end(&mut input)?;
    Ok(input)
}

/// Reads a file of about this length to its end. One byte more than that is room in which a last read finds the end.
fn read_whole<R: Read>(alloc: Global, file: &mut R, length: u64) -> io::Result<Vec<u8>> {
    let room = usize::try_from(length)
        .unwrap_or(usize::MAX)
        .saturating_add(1);
    let mut text = vec![in alloc; 0; room]?;
    let count = match file.read(text.as_mut_slice()) {
        Err(error) if error.kind() == ErrorKind::Interrupted => 0,
        read => read?,
    };
    text.truncate(count);
    file.read_to_end(&mut text)?;
    Ok(text)
}

/// Makes the trees of files of this machine, as they are judged, by what the words say of them.
#[derive(Drop)]
pub struct HostTrees {
    rt: HostRuntime,
    assumed: Assumed,
}

impl HostTrees {
    /// The files as these options say.
    pub fn of(rt: HostRuntime, options: &Options) -> Result<HostTrees, AllocError> {
        let assumed = Assumed::of(rt.alloc(), options)?;
        Ok(HostTrees { rt, assumed })
    }

    /// The files as they are.
    pub fn plain(rt: HostRuntime) -> HostTrees {
        HostTrees {
            rt,
            assumed: Assumed::nothing(rt.alloc()),
        }
    }

    /// A tree of which nothing is known yet.
    pub fn tree(&self) -> FileTree<HostFiles<'_>>
        ensures { (name : List ℕ) → known_stamp result.stamps name ≡ None }
    {
        let looks = Looks::new();
        FileTree::new(
            self.rt.alloc(),
            HostFiles {
                rt: self.rt,
                looks,
                input: None,
                env: &[],
                profile: Profile::Strict,
                folders: None,
                assumed: Some(&self.assumed),
            },
        )
    }
}

impl<'a> HostFiles<'a> {
    /// The files as makefiles are read from them, and from standard input where that was read.
    pub fn texts(
        rt: HostRuntime,
        profile: Profile,
        input: Option<&'a [u8]>,
        env: &'a [Variable],
        folders: &'a IncludeFolders,
    ) -> FileTexts<HostFiles<'a>> {
        let looks = Looks::new();
        FileTexts::new(
            rt.alloc(),
            HostFiles {
                rt,
                looks,
                input,
                env,
                profile,
                folders: Some(folders),
                assumed: None,
            },
        )
    }

    // The file's name may be no text.
    fn tell_failed(&self, file: &[u8], line: usize, status: u32) {
        let mut stream = with_patience(self.rt, self.rt.stderr());
        let mut err = Plain::over(&mut stream);
        let _ = err.write_all(b"dmk: ");
        let _ = err.write_all(file);
        let _ = if status < NONE {
            writeln!(
                err,
                ":{line}: note: the command failed with status {status}"
            )
        } else {
            writeln!(err, ":{line}: note: the command was stopped or not started")
        };
    }

    /// A makefile's text without a byte order mark at its front.
    fn unmarked<'t>(&self, text: &'t [u8]) -> &'t [u8] {
        if !self.profile.is_wide() {
            return text;
        }
        text.strip_prefix(MARK).unwrap_or(text)
    }

    /// Where the file of this name lies, if that isn't where the name says.
    fn found_elsewhere(&mut self, name: &str) -> Result<Option<String>, AllocError> {
        let Some(folders) = self.folders else {
            return Ok(None);
        };
        if folders.are_none() || self.looks.status(name).is_ok() {
            return Ok(None);
        }
        for path in folders.paths(self.rt.alloc(), name)? {
            if self.looks.status(path.as_str()).is_ok() {
                return Ok(Some(path));
            }
        }
        Ok(None)
    }

    fn is_touched(&self, name: &str) -> bool {
        match self.assumed {
            Some(assumed) => assumed.is_touched(name),
            None => false,
        }
    }

    /// Whether it is a makefile that the words name, of which it is told that it isn't there.
    fn is_told_missing(&self, name: &str) -> bool {
        match self.folders {
            Some(folders) => self.profile.is_wide() && folders.names_makefile(name),
            None => false,
        }
    }

    fn input_named(&self, name: &str) -> Option<&'a [u8]> {
        if name.as_bytes() == INPUT {
            self.input
        } else {
            None
        }
    }
}

/// A command's first line, which is the shell, and the command.
fn behind_shell(command: &[u8]) -> (&[u8], &[u8]) {
    match command.iter().position(|byte| *byte == b'\n') {
        Some(end) => (&command[..end], &command[end + 1..]),
        None => (b"", command),
    }
}

/// A time later than that of any file: seconds since 1970.
const LATEST: i64 = i64::MAX;

/// What a UTF-8 text may begin with, which is no part of it.
const MARK: &[u8] = b"\xEF\xBB\xBF";

impl FileCalls for HostFiles<'_> {
    ghost says = { λ name look. Unit {0} };

    fn is_taken_as_old(&self, name: &str) -> bool {
        match self.assumed {
            Some(assumed) => assumed.is_old(name),
            None => false,
        }
    }

    fn status(&mut self, name: &str) -> io::Result<FileStatus> {
        if let Some(input) = self.input_named(name) {
            return Ok(FileStatus {
                seconds: 0,
                nanoseconds: 0,
                is_ordinary: true,
                bytes: input.len() as u64,
            });
        }
        let elsewhere = self.found_elsewhere(name)?;
        let path = match &elsewhere {
            Some(path) => path.as_str(),
            None => name,
        };
        let mut status = match self.looks.status(path) {
            Err(error) if error.kind() == ErrorKind::NotFound && self.is_told_missing(name) => {
                return Err(io::Error::new(ErrorKind::InvalidInput, "there is no such file"));
            }
            found => found?,
        };
        if self.is_touched(name) {
            status.seconds = LATEST;
        }
        Ok(status)
    }

    fn contents(&mut self, alloc: Global, name: &str) -> io::Result<Vec<u8>> {
        if let Some(input) = self.input_named(name) {
            return Ok(Vec::from_slice(alloc, self.unmarked(input))?);
        }
        let elsewhere = self.found_elsewhere(name)?;
        let path = match &elsewhere {
            Some(path) => path.as_str(),
            None => name,
        };
        let mut file = File::open(&self.rt, path)?;
        let length = file.metadata()?.len();
        let text = read_whole(alloc, &mut file, length)?;
        let unmarked = self.unmarked(&text);
        if unmarked.len() < text.len() {
            return Ok(Vec::from_slice(alloc, unmarked)?);
        }
        Ok(text)
    }

    fn names(&mut self, alloc: Global, folder: &str) -> io::Result<ByteStrings> {
        let folder = if folder.is_empty() { "." } else { folder };
        let mut names = ByteStrings::empty(alloc);
        for entry in fs::read_dir(&self.rt, folder)? {
            match entry {
                Ok(entry) => names.push(entry.file_name().as_bytes())?,
                Err(error) if error.kind() == ErrorKind::InvalidFilename => {}
                Err(error) => return Err(error),
            }
        }
        Ok(names)
    }

    fn output(
        &mut self,
        alloc: Global,
        file: &[u8],
        line: usize,
        command: &[u8],
    ) -> Result<Vec<u8>, AllocError> {
        let (shell, text) = behind_shell(command);
        let written = match DryShell::new(self.rt, alloc, self.env).output(shell, text) {
            Ok(written) => written,
            Err(_) => Written {
                status: NONE,
                out: Vec::new(alloc),
            },
        };
        if written.status != 0 {
            self.tell_failed(file, line, written.status);
        }
        Ok(written.out)
    }
}
