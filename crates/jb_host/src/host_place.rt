//! The files of the system.

use crate::shared_syncs::SharedSyncs;
use crate::shell::set_text;
use crate::sights::{last_tick, time_now};
use crate::stops::Stops;
use jb_janitor::Janitor;
use jb_recipe::{Place, PlaceFault, Stopped, Turn};
use jb_turns::Turns;
use std::alloc::{AllocError, Global};
use std::fs::{self, File, Metadata, OpenOptions};
use std::io::{self, ErrorKind};
use std::os::unix::fs::MetadataExt;
use std::process::{Command, Stdio};
use std::sync::Wait;

/// The system's number of 'no such device or address'.
const NO_SUCH_DEVICE: i32 = 6;

// What isn't there, or can't be opened as what it is. Want of memory or of descriptors isn't passed over, nor is a fault of the device:
// a 'done' would be written of a file that may not be on the disk.
fn is_passed_over(error: &io::Error) -> bool {
    match error.kind() {
        ErrorKind::NotFound
        | ErrorKind::NotADirectory
        | ErrorKind::InvalidFilename
        | ErrorKind::FilesystemLoop
        | ErrorKind::PermissionDenied => true,
        _ => error.raw_os_error() == Some(NO_SUCH_DEVICE),
    }
}

// What the system has under a name, None where that is passed over.
fn if_there<T>(answer: io::Result<T>) -> io::Result<Option<T>> {
    match answer {
        Ok(found) => Ok(Some(found)),
        Err(error) if is_passed_over(&error) => Ok(None),
        Err(error) => Err(error),
    }
}

// What the system has under a name, None where there is none.
fn if_found<T>(answer: io::Result<T>) -> io::Result<Option<T>> {
    match answer {
        Ok(found) => Ok(Some(found)),
        Err(error) if error.kind() == ErrorKind::NotFound => Ok(None),
        Err(error) => Err(error),
    }
}

// Whether nothing can stand under a name that can't be looked at.
fn is_nothing(error: &io::Error) -> bool {
    matches!(
        error.kind(),
        ErrorKind::NotFound | ErrorKind::NotADirectory | ErrorKind::InvalidFilename
    )
}

fn is_kept(found: &Metadata) -> bool {
    found.is_file() || found.is_dir()
}

fn not_ordinary() -> io::Error {
    io::Error::new(ErrorKind::InvalidInput, "not an ordinary file")
}

fn fault_of(error: io::Error) -> PlaceFault {
    match error.kind() {
        ErrorKind::OutOfMemory => PlaceFault::OutOfMemory,
        _ => PlaceFault::Device(error),
    }
}

/// The folder that a name's last part stands in.
pub fn folder_of(name: &str) -> &str {
    match name.rsplit_once('/') {
        None => ".",
        Some(("", _)) => "/",
        Some((folder, _)) => folder,
    }
}

/// What a name's file is put on the disk by.
#[derive(Drop)]
enum Opened {
    File(File),
    /// It may be neither read nor written: a folder, or a file that may only be run.
    Refused(io::Error),
    Missing(io::Error),
}

impl Opened {
    // What may not be read is opened to be written.
    fn of(host: HostRuntime, path: &str) -> io::Result<Opened> {
        match File::open(&host, path) {
            Ok(file) => Ok(Opened::File(file)),
            Err(error) if error.kind() == ErrorKind::PermissionDenied => {
                Ok(Opened::unread(host, path, error))
            }
            Err(error) if is_passed_over(&error) => Ok(Opened::Missing(error)),
            Err(error) => Err(error),
        }
    }

    fn unread(host: HostRuntime, path: &str, error: io::Error) -> Opened {
        match OpenOptions::new().write(true).open(&host, path) {
            Ok(file) => Opened::File(file),
            Err(_) => Opened::Refused(error),
        }
    }

    // All file systems are synced where the file can't be opened.
    fn sync(&self, host: HostRuntime) -> io::Result<()> {
        match self {
            Opened::File(file) => file.sync_all(),
            Opened::Refused(_) => sync_all_files(host),
            Opened::Missing(_) => Ok(()),
        }
    }
}

// Why an ordinary file or a folder can't be opened to be synced.
fn unopened(host: HostRuntime, name: &str) -> Option<io::Error> {
    match fs::metadata(&host, name) {
        Ok(found) if !is_kept(&found) => return None,
        Ok(_) => {}
        Err(error) => return Some(error),
    }
    match Opened::of(host, name) {
        Ok(Opened::File(_)) => None,
        Ok(Opened::Refused(error) | Opened::Missing(error)) | Err(error) => Some(error),
    }
}

// The program sync, by which any user may have all file systems synced.
fn sync_program(alloc: Global) -> Result<Command, AllocError> {
    let mut command = Command::new(alloc, "/bin/sh")?;
    set_text(&mut command, "sync")?;
    command.stdin(Stdio::null());
    Ok(command)
}

fn end_well(host: HostRuntime, command: &mut Command) -> io::Result<()> {
    let output = command.output(&host)?;
    match output.status.code() {
        Some(0) => Ok(()),
        _ => Err(io::Error::other("the program sync failed")),
    }
}

fn sync_all_files(host: HostRuntime) -> io::Result<()> {
    let mut command = sync_program(host.alloc())?;
    let ended = end_well(host, &mut command);
    drop(command);
    ended
}

/// Reports and targets in the folder in which dmk runs. A name that isn't UTF-8 has no file here.
#[derive(Drop)]
pub struct HostPlace<'a, R: Wait> {
    rt: &'a R,
    pub(crate) host: HostRuntime,
    folders: SharedSyncs<'a, R>,
    stops: &'a Stops<'a, R>,
    turns: &'a Turns,
    janitor: &'a Janitor<'a, R>,
    /// What the clock said when the run began.
    pub(crate) began: i128,
}

impl<'a, R: Wait> HostPlace<'a, R> {
    pub fn new(
        rt: &'a R,
        host: HostRuntime,
        stops: &'a Stops<'a, R>,
        turns: &'a Turns,
        janitor: &'a Janitor<'a, R>,
    ) -> HostPlace<'a, R> {
        HostPlace {
            rt,
            host,
            folders: SharedSyncs::new(rt, host.alloc()),
            stops,
            turns,
            janitor,
            began: time_now(),
        }
    }

    /// Why a target's file can't be opened to be put on the disk by itself; None where it can, and of what isn't opened at all.
    pub fn why_unopened(&self, target: &[u8]) -> Option<io::Error> {
        match std::str::from_utf8(target) {
            Ok(name) => unopened(self.host, name),
            Err(_) => None,
        }
    }

    // Only an ordinary file or a folder is opened: a pipe would be waited for, and a device has nothing to be kept.
    fn sync_named(&self, name: &str) -> io::Result<()> {
        match if_there(fs::symlink_metadata(&self.host, name))? {
            Some(found) if found.is_symlink() => self.sync_link(name),
            Some(found) if is_kept(&found) => self.sync_in_folder(name),
            _ => Ok(()),
        }
    }

    fn sync_in_folder(&self, name: &str) -> io::Result<()> {
        Opened::of(self.host, name)?.sync(self.host)?;
        self.sync_folder(folder_of(name))
    }

    // Opened before its turn is drawn: an error that the system meets while others are waited for is told here too.
    fn sync_folder(&self, folder: &str) -> io::Result<()> {
        let opened = Opened::of(self.host, folder)?;
        self.folders.sync(folder, || opened.sync(self.host))
    }

    // Why what stands there wasn't removed, unless nothing does.
    fn if_left(&self, name: &str, error: io::Error) -> io::Result<()> {
        match fs::symlink_metadata(&self.host, name) {
            Err(looked) if is_nothing(&looked) => Ok(()),
            _ => Err(error),
        }
    }

    // What stands at a report's name. A link to nothing is no report, and isn't left behind.
    fn found_report(&self, name: &str) -> io::Result<Option<Metadata>> {
        let Some(found) = if_found(fs::symlink_metadata(&self.host, name))? else {
            return Ok(None);
        };
        if !found.is_symlink() {
            return Ok(Some(found));
        }
        let led_to = if_found(fs::metadata(&self.host, name))?;
        if led_to.is_none() {
            let _ = fs::remove_file(&self.host, name);
        }
        Ok(led_to)
    }

    fn read_report(&self, name: &str) -> Result<Option<Vec<u8>>, PlaceFault> {
        if_found(fs::read(&self.host, name)).map_err(fault_of)
    }

    // Of a link, what it leads to stands in a folder of its own.
    fn sync_link(&self, name: &str) -> io::Result<()> {
        match if_there(fs::metadata(&self.host, name))? {
            Some(found) if is_kept(&found) => {}
            _ => return Ok(()),
        }
        self.sync_in_folder(name)?;
        match if_there(fs::canonicalize(&self.host, name))? {
            Some(led_to) => {
                let led_to = led_to.into_string();
                self.sync_folder(folder_of(led_to.as_str()))
            }
            None => Ok(()),
        }
    }
}

impl<R: Wait> Place for HostPlace<'_, R> {
    ghost gone = { λ place path. Unit {0} };

    ghost synced = { λ place path. Unit {0} };

    fn enter(&self, turn: Turn) -> Result<bool, AllocError> {
        self.turns.enter(self.rt, turn)
    }

    fn leave(&self, turn: Turn) {
        self.turns.leave(self.rt, turn);
    }

    fn remove(&self, path: &[u8]) -> io::Result<()> {
        let Ok(name) = std::str::from_utf8(path) else {
            return Ok(());
        };
        match fs::remove_file(&self.host, name) {
            Ok(()) => Ok(()),
            Err(error) => self.if_left(name, error),
        }
    }

    fn report(&self, _alloc: Global, path: &[u8]) -> Result<Option<Vec<u8>>, PlaceFault> {
        let Ok(name) = std::str::from_utf8(path) else {
            return Ok(None);
        };
        match self.found_report(name) {
            Ok(Some(found)) if !found.is_file() => Err(PlaceFault::Device(not_ordinary())),
            Ok(Some(_)) => self.read_report(name),
            Ok(None) => Ok(None),
            Err(error) => Err(fault_of(error)),
        }
    }

    fn stopped(&self) -> Option<Stopped> {
        self.stops.take()
    }

    // A link is no ordinary file, whatever it leads to.
    fn stamp(&self, target: &[u8]) -> Option<i128> {
        let name = std::str::from_utf8(target).ok()?;
        let found = fs::symlink_metadata(&self.host, name).ok()?;
        if !found.is_file() {
            return None;
        }
        Some(i128::from(found.mtime()) * 1_000_000_000 + i128::from(found.mtime_nsec()))
    }

    fn begins(&self, target: &[u8], goes: bool) {
        self.janitor.begin(target, goes);
    }

    fn ends(&self) {
        self.janitor.end();
    }

    // Two ticks: files may be stamped finer than this clock ticks (Linux 6.13), and a tick that comes late is behind by as much as one.
    fn pass_tick(&self, tick: i128) {
        self.wait_for_tick(tick);
        self.wait_for_tick(last_tick());
    }

    fn sync(&self, target: &[u8]) -> Result<(), PlaceFault> {
        let Ok(name) = std::str::from_utf8(target) else {
            return Ok(());
        };
        self.sync_named(name).map_err(fault_of)
    }
}
