//! What a recipe wrote on one stream and what isn't printed yet.
ghost use Rattle.std.specs.Prelude.{◌≡◌, ◌≤◌, ◌++◌, length, OnOk, OnErr};

use std::alloc::{AllocError, Global};
use std::mem;

pub(crate) struct Held {
    bytes: Vec<u8>,
    /// Whether a line ends in it.
    has_lines: bool,
}

impl Drop for Held {
    fn drop(self) {
        let Held {
            bytes: _,
            has_lines: _,
        } = self;
    }
}

/// Where the last line that is whole ends.
fn end_of_lines(bytes: &[u8]) -> usize
    ensures { result ≤ length bytes.now }
{
    match bytes.iter().rposition(|byte| *byte == b'\n') {
        Some(place) => place + 1,
        None => 0,
    }
}

impl Held {
    pub(crate) fn new(alloc: Global) -> Held {
        Held {
            bytes: Vec::new(alloc),
            has_lines: false,
        }
    }

    /// Keeps what was written behind the rest. Where there is no memory for it nothing is changed.
    pub(crate) fn keep(&mut self, bytes: &[u8]) -> Result<(), AllocError>
        ensures kept { OnOk result (self.new.bytes.items ≡ self.old.bytes.items ++ bytes.now) }
        ensures left { OnErr result (self.new.bytes.items ≡ self.old.bytes.items) }
    {
        self.bytes.extend_from_slice(bytes)?;
        if bytes.contains(&b'\n') {
            self.has_lines = true;
        }
        Ok(())
    }

    pub(crate) fn has_lines(&self) -> bool {
        self.has_lines
    }

    /// All that is kept.
    pub(crate) fn take_all(&mut self, alloc: Global) -> Vec<u8>
        ensures { result.items ++ self.new.bytes.items ≡ self.old.bytes.items }
    {
        self.has_lines = false;
        mem::replace(&mut self.bytes, Vec::new(alloc))
    }

    /// The lines that are whole. Where there is no memory for what stands behind the last one, that too.
    pub(crate) fn take_lines(&mut self, alloc: Global) -> Vec<u8>
        ensures { result.items ++ self.new.bytes.items ≡ self.old.bytes.items }
    {
        if !self.has_lines {
            return Vec::new(alloc);
        }
        let bytes = self.bytes.as_slice();
        let end = end_of_lines(bytes);
        match Vec::from_slice(alloc, &bytes[end..]) {
            Ok(rest) => {
                self.has_lines = false;
                let mut lines = mem::replace(&mut self.bytes, rest);
                lines.truncate(end);
                lines
            }
            Err(_) => self.take_all(alloc),
        }
    }
}
