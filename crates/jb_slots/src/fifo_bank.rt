//! Pools of tokens in FIFOs, shared with other processes. Nothing is claimed of a FIFO: what it gives and keeps, and
//! what others do to it, is outside every proof.
ghost use Rattle.std.specs.Prelude.{◌≡◌, false};
ghost use Rattle.std.specs.Option.{is_some};

use crate::{BankFault, Banks, End, Pipe, Taken};
use std::alloc::{AllocError, Global};
use std::fs::{self, File, OpenOptions};
use std::io::{self, ErrorKind, Read, Write};
use std::os::fd::AsRawFd;
use std::os::unix::fs::FileTypeExt;
use std::process::Command;
use std::sync::Arc;

/// The system's number of 'no child processes'.
const NO_CHILD: i32 = 10;

/// One worker's end of a FIFO.
pub type FifoBank = End<Fifo>;

/// A FIFO, open for reading and writing: so opening it waits for nobody, and it never ends while it is open. It is set not to
/// block, which other openings of the same FIFO don't see. All ends of a run share one descriptor.
#[derive(Drop)]
pub struct Fifo {
    file: Arc<File, Global>,
}

impl Pipe for Fifo {
    ghost reads = { λ _ _ _. Unit {0} };

    ghost writes = { λ _ _ _ _. Unit {0} };

    fn read(&mut self) -> Result<Taken, BankFault> {
        let mut byte = [0u8; 1];
        for _ in 0..u64::MAX {
            match self.file.read(&mut byte) {
                Ok(0) => return Ok(Taken::End),
                Ok(_) => return Ok(Taken::Token(byte[0])),
                Err(error) if error.kind() == ErrorKind::Interrupted => {}
                Err(error) if error.kind() == ErrorKind::WouldBlock => return Ok(Taken::NothingNow),
                Err(_) => return Err(BankFault),
            }
        }
        Err(BankFault)
    }

    fn write(&mut self, token: u8) -> Result<(), BankFault> {
        self.file.write_all(&[token]).map_err(|_| BankFault)
    }
}

/// FIFOs of the file system.
#[derive(Drop)]
pub struct FifoBanks {
    rt: HostRuntime,
    mkfifo: &'static str,
    served: Option<File>,
}

impl FifoBanks {
    /// `mkfifo` is the program that makes a FIFO, looked for in the path: POSIX `mkfifo`.
    pub fn new(rt: HostRuntime, mkfifo: &'static str) -> FifoBanks
        ensures { ⟦<FifoBanks as Banks>⟧.serves result ≡ false }
    {
        FifoBanks {
            rt,
            mkfifo,
            served: None,
        }
    }

    // Whether nothing says that it failed. How it ended isn't told where whoever started dmk has its children's ends ignored.
    fn make(&self, alloc: Global, path: &str) -> Result<bool, AllocError> {
        let mut command = Command::new(alloc, self.mkfifo)?;
        command.arg("-m")?.arg("600")?.arg("--")?.arg(path)?;
        match command.output(&self.rt) {
            Ok(output) => Ok(output.status.success()),
            Err(error) => Ok(error.raw_os_error() == Some(NO_CHILD)),
        }
    }
}

impl Banks for FifoBanks {
    type End = FifoBank;

    ghost serves = { λ banks. is_some banks.served };

    fn open(
        &self,
        alloc: Global,
        path: &[u8],
        workers: usize,
        room: usize,
    ) -> Result<Option<Vec<FifoBank>>, AllocError> {
        if workers == 0 {
            return Ok(Some(Vec::new(alloc)));
        }
        let Some(file) = open_not_to_block(self.rt, path) else {
            return Ok(None);
        };
        let file = Arc::new(alloc, file)?;
        let mut ends = Vec::with_capacity(alloc, workers)?;
        for _ in 0..workers {
            let file = Arc::try_clone(&file)?;
            ends.push(End::new(alloc, Fifo { file }, room)?)?;
        }
        Ok(Some(ends))
    }

    fn serve(&mut self, alloc: Global, path: &[u8], count: u8) -> Result<bool, AllocError> {
        self.served = None;
        let Ok(path) = std::str::from_utf8(path) else {
            return Ok(false);
        };
        let _ = fs::remove_file(&self.rt, path);
        if !self.make(alloc, path)? {
            return Ok(false);
        }
        match filled(self.rt, path, count) {
            Ok(file) => {
                self.served = Some(file);
                Ok(true)
            }
            Err(_) => {
                let _ = fs::remove_file(&self.rt, path);
                Ok(false)
            }
        }
    }

    fn close(&mut self, path: &[u8]) {
        self.served = None;
        if let Ok(path) = std::str::from_utf8(path) {
            let _ = fs::remove_file(&self.rt, path);
        }
    }
}

// Anything else than a FIFO is refused: bytes written to a file would stay in it.
fn open_fifo(rt: HostRuntime, path: &str) -> io::Result<File> {
    if !fs::metadata(&rt, path)?.file_type().is_fifo() {
        return Err(ErrorKind::InvalidInput.into());
    }
    OpenOptions::new().read(true).write(true).open(&rt, path)
}

fn open_not_to_block(rt: HostRuntime, path: &[u8]) -> Option<File> {
    let path = std::str::from_utf8(path).ok()?;
    let file = open_fifo(rt, path).ok()?;
    if os::set_nonblocking(file.as_raw_fd(), true) < 0 {
        return None;
    }
    Some(file)
}

fn filled(rt: HostRuntime, path: &str, count: u8) -> io::Result<File> {
    let mut file = open_fifo(rt, path)?;
    for _ in 0..count {
        file.write_all(b"+")?;
    }
    Ok(file)
}
