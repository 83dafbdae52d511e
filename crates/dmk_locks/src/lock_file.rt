//! Empty files that stand for what a lock on them is of. Each handle of one opening of such a file holds its lock, and it goes with the
//! last of them, by whatever death.

use crate::run_name::own_name;
use jb_host::folder_of;
use std::alloc::AllocError;
use std::fs::{self, File, Metadata, OpenOptions, Permissions, TryLockError};
use std::io::{self, ErrorKind};
use std::os::unix::fs::{MetadataExt, OpenOptionsExt, PermissionsExt};

/// Others neither read such a file nor lock it.
const OWN_MODE: u32 = 0o600;

/// The bits of a file's mode by which others may do anything with it.
const OTHERS: u32 = 0o077;

/// The bits of a folder's mode by which its group or all users may write it.
const OTHERS_WRITE: u32 = 0o022;

/// How often it is tried to open a file in whose place another one is put meanwhile.
const MAX_ATTEMPTS: usize = 100;

const NOT_EMPTY: &str = "its lock file is no empty file";

const NOT_OWN: &str = "its lock file is another user's";

/// A lock file, opened, and what it is known by.
#[derive(Drop)]
pub struct LockFile {
    pub file: File,
    device: u64,
    number: u64,
}

/// What came of an attempt to lock the file of a path.
#[derive(Drop)]
pub enum Tried {
    Locked(LockFile),
    /// Another opening of the file is locked.
    Taken(LockFile),
}

fn refused(why: &str) -> io::Error {
    io::Error::new(ErrorKind::InvalidInput, why)
}

/// Whether an error isn't the system's: something else than a lock file of this user's stands there.
pub fn is_refusal(error: &io::Error) -> bool {
    error.kind() == ErrorKind::InvalidInput && error.raw_os_error().is_none()
}

/// What stands at a path itself, None where nothing does.
fn found_at(rt: HostRuntime, path: &str) -> io::Result<Option<Metadata>> {
    match fs::symlink_metadata(&rt, path) {
        Ok(found) => Ok(Some(found)),
        Err(error) if error.kind() == ErrorKind::NotFound => Ok(None),
        Err(error) => Err(error),
    }
}

/// Makes the file, unless something stands there, and be it a link to nothing.
fn make(rt: HostRuntime, path: &str) -> io::Result<()> {
    let made = OpenOptions::new()
        .write(true)
        .create_new(true)
        .mode(OWN_MODE)
        .open(&rt, path);
    match made {
        Err(error) if error.kind() != ErrorKind::AlreadyExists => Err(error),
        _ => Ok(()),
    }
}

/// Whether others than this user may put files into the path's folder.
fn is_shared(rt: HostRuntime, path: &str) -> io::Result<bool> {
    let folder = fs::metadata(&rt, folder_of(path))?;
    Ok(folder.mode() & OTHERS_WRITE != 0)
}

/// Refuses a link, what isn't an empty file, and what another user may have put there.
fn check(rt: HostRuntime, path: &str, found: &Metadata) -> io::Result<()> {
    if !found.is_file() || found.len() != 0 {
        return Err(refused(NOT_EMPTY));
    }
    if found.uid() != libc::geteuid() && is_shared(rt, path)? {
        return Err(refused(NOT_OWN));
    }
    Ok(())
}

/// Takes from others what an earlier version gave them: who may read the file can lock it, and hold runs up. Where the system doesn't let
/// this user do so, it is locked as it is.
fn keep_to_owner(file: &File, opened: &Metadata) {
    if opened.uid() == libc::geteuid() && opened.mode() & OTHERS != 0 {
        let _ = file.set_permissions(Permissions::from_mode(OWN_MODE));
    }
}

impl LockFile {
    // None where what was found at the path isn't what was opened there.
    fn open_found(
        rt: HostRuntime,
        path: &str,
        writable: bool,
        found: &Metadata,
    ) -> io::Result<Option<LockFile>> {
        let file = OpenOptions::new()
            .read(true)
            .write(writable)
            .open(&rt, path)?;
        let opened = file.metadata()?;
        let device = opened.dev();
        let number = opened.ino();
        if device != found.dev() || number != found.ino() {
            return Ok(None);
        }
        keep_to_owner(&file, &opened);
        Ok(Some(LockFile {
            file,
            device,
            number,
        }))
    }

    // No link is followed: who may write the folder could have any file made, or locked, by one.
    fn open(rt: HostRuntime, path: &str, writable: bool) -> io::Result<LockFile> {
        for _ in 0..MAX_ATTEMPTS {
            match found_at(rt, path)? {
                None => make(rt, path)?,
                Some(found) => {
                    check(rt, path, &found)?;
                    match LockFile::open_found(rt, path, writable, &found) {
                        Ok(Some(opened)) => return Ok(opened),
                        Ok(None) => {}
                        Err(error) if error.kind() == ErrorKind::NotFound => {}
                        Err(error) => return Err(error),
                    }
                }
            }
        }
        Err(refused(NOT_EMPTY))
    }

    fn attempt(self) -> io::Result<Tried> {
        match self.file.try_lock() {
            Ok(()) => Ok(Tried::Locked(self)),
            Err(TryLockError::WouldBlock) => Ok(Tried::Taken(self)),
            Err(TryLockError::Error(error)) => Err(error),
        }
    }

    /// Opens the file, which it makes where there is none, and tries to lock it. What isn't an empty file is refused, and so is another
    /// user's in a folder that others may write.
    pub fn try_lock(rt: HostRuntime, path: &str) -> io::Result<Tried> {
        // For reading alone, so that no recipe can write into it.
        match LockFile::open(rt, path, false)?.attempt() {
            Ok(tried) => Ok(tried),
            // NFS 4 locks only what is open for writing.
            Err(_) => LockFile::open(rt, path, true)?.attempt(),
        }
    }

    /// What the lock is known by as the one that this run holds: the device and the number of the file, which it has under all its
    /// names, and this run.
    pub fn name(&self, rt: HostRuntime) -> Result<String, AllocError> {
        let device = self.device;
        let number = self.number;
        let run = own_name(rt)?;
        format!(in rt.alloc(); "{device}:{number}:{run}")
    }

    /// The run that holds this lock, where that is what a name says.
    pub fn run_of<'a>(
        &self,
        rt: HostRuntime,
        name: &'a str,
    ) -> Result<Option<&'a str>, AllocError> {
        let device = self.device;
        let number = self.number;
        let own = format!(in rt.alloc(); "{device}:{number}:")?;
        Ok(name.strip_prefix(own.as_str()))
    }

    /// Whether it is the file of this device and number.
    pub fn is_file_of(&self, found: &Metadata) -> bool {
        found.dev() == self.device && found.ino() == self.number
    }

    /// Whether the path still leads to the file. Whoever got the lock on one that was removed has a lock that nobody else sees.
    pub fn is_at(&self, rt: HostRuntime, path: &str) -> bool {
        match fs::symlink_metadata(&rt, path) {
            Ok(found) => self.is_file_of(&found),
            Err(_) => false,
        }
    }

    /// Waits until no other opening of the file is locked.
    pub fn wait(&self) -> io::Result<()> {
        for _ in 0..u64::MAX {
            match self.file.lock() {
                Err(error) if error.kind() == ErrorKind::Interrupted => {}
                answer => return answer,
            }
        }
        Err(ErrorKind::TimedOut.into())
    }
}
