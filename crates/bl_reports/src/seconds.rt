//! Times, as they are told.

use std::fmt;

const SECOND: u64 = 1_000_000_000;

const MILLISECOND: u64 = 1_000_000;

/// Nanoseconds, told in seconds; what is below a millisecond is left out.
#[derive(Clone, Copy, Debug)]
pub struct Seconds(pub u64);

impl fmt::Display for Seconds {
    fn fmt<W: fmt::Write>(&self, f: &mut fmt::Formatter<W>) -> fmt::Result {
        let seconds = self.0 / SECOND;
        let milliseconds = self.0 % SECOND / MILLISECOND;
        write!(f, "{seconds}.{milliseconds:03} s")
    }
}
