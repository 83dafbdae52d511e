//! Recipe lines, answered by their text.

use crate::fake::Fake;
use bd_lists::{Clearance, Ended, Exec, ExecFault, Variable};
use byte_strings::ByteString;
use mk_recipe::Line;
use std::alloc::AllocError;
use std::sync::Wait;
use std::thread;
use std::time::{Clock, Duration};

/// The status of a line that has waited for others in vain.
const IN_VAIN: u8 = 99;

// A line that waits for others gives up after so many looks, ten seconds at least: a run in which nobody meets ends.
const LOOKS: u32 = 100_000;

fn digit_behind(text: &[u8], front: &[u8]) -> Option<u8> {
    match text.strip_prefix(front) {
        Some([digit]) if digit.is_ascii_digit() => Some(*digit - b'0'),
        _ => None,
    }
}

impl<R: Wait + Clock + Copy> Fake<R> {
    // Waits until so many have begun.
    fn meet(&self, wanted: u8) -> u8 {
        self.notes.lock(&self.rt).begin();
        for _ in 0..LOOKS {
            if self.notes.lock(&self.rt).begun >= wanted {
                return 0;
            }
            thread::sleep(&self.rt, Duration::from_micros(100));
        }
        IN_VAIN
    }

    fn status_of(&self, text: &[u8]) -> u8 {
        if let Some(status) = digit_behind(text, b"exit ") {
            return status;
        }
        match digit_behind(text, b"meet ") {
            Some(wanted) => self.meet(wanted),
            None => 0,
        }
    }

    fn note_ran(&self, text: &[u8]) -> Result<(), AllocError> {
        let mut notes = self.notes.lock(&self.rt);
        notes.ran.extend_from_slice(text)?;
        notes.ran.push(b'\n')?;
        Ok(())
    }

    fn printed(&self, text: &[u8]) -> Result<ByteString, AllocError> {
        match text.strip_prefix(b"echo ".as_slice()) {
            Some(words) => ByteString::from_slice(self.alloc, words),
            None => Ok(ByteString::new(Vec::new(self.alloc))),
        }
    }
}

/// `exit N` ends with status N, `echo TEXT` prints the text, `meet N` waits until N such lines have begun, and any other
/// ends well.
impl<T, R: Wait + Clock + Copy> Exec<T> for Fake<R> {
    ghost answers = { λ fake env line answer. Unit {0} };

    fn run(
        &self,
        _clearance: &Clearance<T>,
        line: &Line,
        _env: &[Variable],
    ) -> Result<Ended, ExecFault> {
        let text = line.text.as_slice();
        self.note_ran(text).map_err(|_| ExecFault)?;
        Ok(Ended {
            status: u32::from(self.status_of(text)),
            out: self.printed(text).map_err(|_| ExecFault)?,
            err: ByteString::new(Vec::new(self.alloc)),
        })
    }
}
