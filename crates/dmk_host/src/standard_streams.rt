//! The standard streams.
use plain_text::Plain;
use std::alloc::{AllocError, Global};
use std::fmt::Display;
use std::fs::{self, File};
use std::io::{self, BufWriter, ErrorKind, Write};
use std::os::unix::fs::MetadataExt;
use std::thread;
use std::time::Duration;

/// The time after which a stream that took nothing is tried again, in milliseconds.
const BETWEEN_WRITES: u64 = 1;

/// A stream that somebody may have set not to block: what it doesn't take at once is written a little later.
#[derive(Drop)]
pub struct Patient<W: Drop> {
    rt: HostRuntime,
    stream: W,
}

pub fn with_patience<W: Write + Drop>(rt: HostRuntime, stream: W) -> Patient<W> {
    Patient { rt, stream }
}

impl<W: Write + Drop> Write for Patient<W> {
    fn write(&mut self, buf: &[u8]) -> io::Result<usize> {
        for _ in 0..u64::MAX {
            match self.stream.write(buf) {
                Err(error) if error.kind() == ErrorKind::WouldBlock => {
                    thread::sleep(&self.rt, Duration::from_millis(BETWEEN_WRITES));
                }
                answer => return answer,
            }
        }
        Err(ErrorKind::WouldBlock.into())
    }

    fn flush(&mut self) -> io::Result<()> {
        self.stream.flush()
    }
}

/// One line with a fault on standard error.
pub fn tell_fault<F: Display>(rt: HostRuntime, fault: &F) {
    let mut stream = with_patience(rt, rt.stderr());
    let _ = writeln!(Plain::over(&mut stream), "dmk: {fault}");
}

/// A stream that is written when it is flushed, or when what is to be written is long.
pub fn buffered<W: Write + Drop>(alloc: Global, stream: W) -> Result<BufWriter<W>, AllocError> {
    BufWriter::new(alloc, stream).map_err(|_| AllocError)
}

fn null(rt: HostRuntime) -> io::Result<File> {
    File::open(&rt, "/dev/null")
}

/// Files that hold the numbers of standard streams which came closed. Else a file that is opened later, as the state's, would
/// get such a number, and what is printed would go into it. What is printed on one of these is refused.
pub fn held_streams(rt: HostRuntime) -> [io::Result<File>; 3] {
    [null(rt), null(rt), null(rt)]
}

/// What is known of an open file by its path: the device and its number there.
fn found_at(rt: HostRuntime, path: &str) -> Option<(u64, u64)> {
    match fs::metadata(&rt, path) {
        Ok(found) => Some((found.dev(), found.ino())),
        Err(_) => None,
    }
}

/// Whether standard output and error are one file, as far as the system tells. Where they are the one that keeps nothing, it is as well to
/// have them apart: one of them may be held, and refuse what is printed.
pub fn streams_are_one(rt: HostRuntime) -> bool {
    let out = found_at(rt, "/proc/self/fd/1");
    out.is_some() && out == found_at(rt, "/proc/self/fd/2") && out != found_at(rt, "/dev/null")
}
