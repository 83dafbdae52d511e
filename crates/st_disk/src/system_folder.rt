//! The two files of a state file's name, by the system's own calls. Nothing is claimed of them: what a file gives and
//! keeps is outside every proof, and CRASH_SAFETY.md says in a sentence a call what is assumed of it.
ghost use Rattle.std.specs.Prelude.{◌≡◌, ◌++◌, [], true, false, IfOk, codes};
ghost use Rattle.st_disk.specs.Crash.{settled};
ghost use Rattle.st_disk.specs.SystemModel.{SystemKeepsModel, nothing_claimed};
ghost use Rattle.st_disk.specs.declared.which.Which.TheVariants.{A};

use crate::Which;
use crate::failed_call::{Call, FailedCall};
use crate::folder::Folder;
use crate::refusal::refuses_writing;
use std::alloc::{AllocError, Global};
use std::fs::{self, File, OpenOptions};
use std::io::{self, ErrorKind};
use std::os::unix::fs::{FileExt, MetadataExt};

/// Side A is the file of a name, side B that of the name with `.2` behind it. Symbolic links are followed.
pub struct SystemFolder {
    rt: HostRuntime,
    alloc: Global,
    a: String,
    b: String,
    failed: Option<FailedCall>,
}

impl Drop for SystemFolder {
    fn drop(self) {
        let SystemFolder {
            rt: _,
            alloc: _,
            a: _,
            b: _,
            failed: _,
        } = self;
    }
}

/// An open file, its side, and the name of the folder that it stands in.
pub struct SystemFile {
    file: File,
    side: Which,
    folder: String,
    /// Why it is open to be read alone.
    refused: Option<io::Error>,
}

impl Drop for SystemFile {
    fn drop(self) {
        let SystemFile {
            file: _,
            side: _,
            folder: _,
            refused: _,
        } = self;
    }
}

const NOT_ORDINARY: &str = "not an ordinary file";

const ONE_FILE: &str = "both sides are one file";

const IN_PART: &str = "only a part was written; the disk may be full";

impl SystemFolder {
    ghost use Rattle.st_disk.specs.SystemFolder.{file_name};

    /// Touches no file.
    pub fn new(rt: HostRuntime, alloc: Global, name: &str) -> Result<SystemFolder, AllocError>
        ensures a { IfOk result (λ folder. file_name folder Which.A ≡ name.now) }
        ensures b { IfOk result (λ folder. file_name folder Which.B ≡ name.now ++ codes ".2") }
    {
        Ok(SystemFolder {
            rt,
            alloc,
            a: String::from_str(alloc, name)?,
            b: format!(in alloc; "{name}.2")?,
            failed: None,
        })
    }

    /// The last call that failed.
    pub fn failed_call(&self) -> Option<FailedCall> {
        self.failed
    }

    // Keeps the error of a call, where it failed.
    fn noted<T>(&mut self, call: Call, side: Which, answer: io::Result<T>) -> io::Result<T> {
        if let Err(error) = &answer {
            let error = *error;
            self.failed = Some(FailedCall { call, side, error });
        }
        answer
    }

    /// The name of a side's file.
    pub fn name(&self, side: Which) -> &str
        ensures { result.now ≡ file_name self.now side }
    {
        match side {
            Which::A => &self.a,
            Which::B => &self.b,
        }
    }

    // The name, or where it is a link what it leads to: a link has no folder of its own to be synced.
    fn target(&self, side: Which) -> io::Result<String> {
        let name = self.name(side);
        if fs::symlink_metadata(&self.rt, name)?.is_symlink() {
            return Ok(fs::canonicalize(&self.rt, name)?.into_string());
        }
        Ok(String::from_str(self.alloc, name)?)
    }

    // Opened once, to be written too where that may be, so that no other file is written than was read. A folder can be
    // opened and a pipe would be waited for, so the kind is asked first.
    fn open(&self, side: Which, name: &str) -> io::Result<SystemFile> {
        if !fs::metadata(&self.rt, name)?.is_file() {
            return Err(io::Error::new(ErrorKind::InvalidInput, NOT_ORDINARY));
        }
        let folder = String::from_str(self.alloc, folder_of(name))?;
        let (file, refused) = match OpenOptions::new()
            .read(true)
            .write(true)
            .open(&self.rt, name)
        {
            Ok(file) => (file, None),
            Err(error) if refuses_writing(&error) => (File::open(&self.rt, name)?, Some(error)),
            Err(error) => return Err(error),
        };
        Ok(SystemFile {
            file,
            side,
            folder,
            refused,
        })
    }

    // Of two sides in one file, a write of the one would change the other.
    fn is_other_side(&self, side: Which, file: &File) -> io::Result<bool> {
        let other = match side {
            Which::A => &self.b,
            Which::B => &self.a,
        };
        match fs::metadata(&self.rt, other.as_str()) {
            Ok(theirs) => {
                let ours = file.metadata()?;
                Ok(ours.dev() == theirs.dev() && ours.ino() == theirs.ino())
            }
            Err(error) if error.kind() == ErrorKind::NotFound => Ok(false),
            Err(error) => Err(error),
        }
    }

    fn open_apart(&self, side: Which, name: &str) -> io::Result<SystemFile> {
        let opened = self.open(side, name)?;
        if self.is_other_side(side, &opened.file)? {
            return Err(io::Error::new(ErrorKind::InvalidInput, ONE_FILE));
        }
        Ok(opened)
    }

    fn look_for(&self, side: Which) -> io::Result<Option<SystemFile>> {
        match self.target(side) {
            Ok(name) => Ok(Some(self.open_apart(side, name.as_str())?)),
            Err(error) if error.kind() == ErrorKind::NotFound => Ok(None),
            Err(error) => Err(error),
        }
    }

    fn make(&self, side: Which) -> io::Result<SystemFile> {
        let folder = String::from_str(self.alloc, folder_of(self.name(side)))?;
        let file = OpenOptions::new()
            .read(true)
            .write(true)
            .create_new(true)
            .open(&self.rt, self.name(side))?;
        Ok(SystemFile {
            file,
            side,
            folder,
            refused: None,
        })
    }

    fn sync_folder(&self, folder: &str) -> io::Result<()> {
        File::open(&self.rt, folder)?.sync_all()
    }
}

impl SystemFile {
    ghost use Rattle.st_disk.specs.SystemFolder.{folder_name};

    /// The name of the folder that the file stands in: of a link the one of its target.
    pub fn folder(&self) -> &str
        ensures { result.now ≡ folder_name self.now }
    {
        &self.folder
    }

    // Of what was opened to be read alone the first refusal is told, not that of the descriptor.
    fn write(&self, bytes: &[u8], at: u64) -> io::Result<usize> {
        match self.refused {
            Some(error) => Err(error),
            None => whole(self.file.write_at(bytes, at), bytes.len()),
        }
    }

    fn cut(&self, len: u64) -> io::Result<()> {
        match self.refused {
            Some(error) => Err(error),
            None => self.file.set_len(len),
        }
    }
}

impl Folder for SystemFolder {
    type File = SystemFile;

    ghost honest = { SystemKeepsModel };

    ghost held = { λ _ _. [] };

    ghost moments = { λ _. record { newest = 0; at = λ _. record { a = settled []; b = settled [] } } };

    ghost missing = { λ _ _. false };

    ghost durable = { λ _ _. true };

    ghost sound = { λ _ _. true };

    ghost side_of = { λ _. A };

    ghost missing_holds_none = { λ _ keeps _ _. nothing_claimed keeps };

    ghost lost = { λ _ keeps _ _. nothing_claimed keeps };

    ghost held_is_image = { λ _ keeps _. nothing_claimed keeps };

    fn find(&mut self, side: Which) -> io::Result<Option<SystemFile>> {
        let found = self.look_for(side);
        self.noted(Call::Open, side, found)
    }

    fn create(&mut self, side: Which) -> io::Result<SystemFile> {
        let made = self.make(side);
        self.noted(Call::Open, side, made)
    }

    fn len(&mut self, file: &SystemFile) -> io::Result<usize> {
        let found = self.noted(Call::Read, file.side, file.file.metadata())?;
        Ok(found.len() as usize)
    }

    fn read_at(&mut self, file: &SystemFile, buf: &mut [u8], at: usize) -> io::Result<usize> {
        let read = file.file.read_exact_at(buf, at as u64);
        self.noted(Call::Read, file.side, read)?;
        Ok(buf.len())
    }

    fn write_at(&mut self, file: &SystemFile, bytes: &[u8], at: usize) -> io::Result<usize> {
        self.noted(Call::Write, file.side, file.write(bytes, at as u64))
    }

    fn set_len(&mut self, file: &SystemFile, len: usize) -> io::Result<()> {
        self.noted(Call::Cut, file.side, file.cut(len as u64))
    }

    fn sync(&mut self, file: &SystemFile) -> io::Result<()> {
        self.noted(Call::Sync, file.side, file.file.sync_all())
    }

    fn sync_name(&mut self, file: &SystemFile) -> io::Result<()> {
        let synced = self.sync_folder(file.folder.as_str());
        self.noted(Call::SyncFolder, file.side, synced)
    }

    fn sync_missing(&mut self, side: Which) -> io::Result<()> {
        let synced = self.sync_folder(folder_of(self.name(side)));
        self.noted(Call::SyncFolder, side, synced)
    }
}

// A write that was cut short has no error of the system.
fn whole(written: io::Result<usize>, len: usize) -> io::Result<usize> {
    match written {
        Ok(count) if count < len => Err(io::Error::new(ErrorKind::WriteZero, IN_PART)),
        answer => answer,
    }
}

fn folder_of(name: &str) -> &str {
    match name.rsplit_once('/') {
        None => ".",
        Some(("", _)) => "/",
        Some((folder, _)) => folder,
    }
}
