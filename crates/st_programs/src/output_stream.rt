//! Standard output, on which a listing goes out.

use plain_text::write_plain;
use std::io::{self, IsTerminal, Stdout, Write};

/// Standard output. A terminal gets no control characters: it would obey those that stand in names and commands.
#[derive(Drop)]
pub struct StandardOutput {
    stream: Stdout,
    is_terminal: bool,
}

pub fn standard_output(rt: HostRuntime) -> StandardOutput {
    let stream = rt.stdout();
    let is_terminal = stream.is_terminal();
    StandardOutput {
        stream,
        is_terminal,
    }
}

impl Write for StandardOutput {
    fn write(&mut self, buf: &[u8]) -> io::Result<usize> {
        if !self.is_terminal {
            return self.stream.write(buf);
        }
        write_plain(&mut self.stream, buf)?;
        Ok(buf.len())
    }

    fn flush(&mut self) -> io::Result<()> {
        self.stream.flush()
    }
}
