//! Where a log goes.

use std::fs::{self, File, OpenOptions};
use std::io::{self, Read, Seek, SeekFrom, Write};

/// The name that stands for standard output.
pub(crate) const OUTPUT: &str = "-";

/// A file that the log is added to, or standard output.
pub(crate) enum Sink<O: Write + Drop> {
    File(File),
    Output(O),
}

impl<O: Write + Drop> Drop for Sink<O> {
    fn drop(self) {
        match self {
            Sink::File(file) => drop(file),
            Sink::Output(output) => drop(output),
        }
    }
}

/// Whether an ordinary file ends within a line.
fn is_cut_off(host: HostRuntime, path: &str) -> bool {
    let Ok(found) = fs::metadata(&host, path) else {
        return false;
    };
    if !found.is_file() || found.len() == 0 {
        return false;
    }
    let mut last = [b'\n'];
    let Ok(mut file) = File::open(&host, path) else {
        return false;
    };
    file.seek(SeekFrom::End(-1)).is_ok() && file.read_exact(&mut last).is_ok() && last != [b'\n']
}

/// Opens a file to add to it; a line that is cut off there is ended first.
pub(crate) fn open(host: HostRuntime, path: &str) -> io::Result<File> {
    let ends_within_line = is_cut_off(host, path);
    let mut file = OpenOptions::new()
        .append(true)
        .create(true)
        .open(&host, path)?;
    if ends_within_line {
        file.write_all(b"\n")?;
    }
    Ok(file)
}

impl<O: Write + Drop> Sink<O> {
    /// Writes a whole line.
    pub(crate) fn write(&mut self, line: &[u8]) -> io::Result<()> {
        match self {
            Sink::File(file) => file.write_all(line),
            Sink::Output(output) => {
                output.write_all(line)?;
                output.flush()
            }
        }
    }
}
