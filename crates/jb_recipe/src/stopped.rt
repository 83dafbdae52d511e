//! Why a line of a recipe has no status of its own.

use std::{fmt, io};
use thiserror::Error;

/// A signal that ended a line, by its number.
#[derive(Clone, Copy, Debug)]
pub struct Signal(pub i32);

/// What became of a line that has no status of its own.
#[derive(Clone, Copy, Debug, Error)]
pub enum Stopped {
    #[error("ended by {0}")]
    By(Signal),
    #[error("not started: {0}")]
    NotStarted(io::Error),
}

// The names of signal(7), by their numbers on Linux for x86 and ARM.
fn name_of(number: i32) -> &'static str {
    match number {
        1 => "SIGHUP",
        2 => "SIGINT",
        3 => "SIGQUIT",
        4 => "SIGILL",
        5 => "SIGTRAP",
        6 => "SIGABRT",
        7 => "SIGBUS",
        8 => "SIGFPE",
        9 => "SIGKILL",
        10 => "SIGUSR1",
        11 => "SIGSEGV",
        12 => "SIGUSR2",
        13 => "SIGPIPE",
        14 => "SIGALRM",
        15 => "SIGTERM",
        16 => "SIGSTKFLT",
        17 => "SIGCHLD",
        18 => "SIGCONT",
        19 => "SIGSTOP",
        20 => "SIGTSTP",
        21 => "SIGTTIN",
        22 => "SIGTTOU",
        23 => "SIGURG",
        24 => "SIGXCPU",
        25 => "SIGXFSZ",
        26 => "SIGVTALRM",
        27 => "SIGPROF",
        28 => "SIGWINCH",
        29 => "SIGIO",
        30 => "SIGPWR",
        31 => "SIGSYS",
        34 => "SIGRTMIN",
        64 => "SIGRTMAX",
        _ => "",
    }
}

// A real-time signal is called by its distance from the nearer end, as bash's `kill -l` does.
fn write_unnamed<W: fmt::Write>(f: &mut fmt::Formatter<W>, number: i32) -> fmt::Result {
    match number {
        35..=49 => write!(f, "SIGRTMIN+{}", number - 34),
        50..=63 => write!(f, "SIGRTMAX-{}", 64 - number),
        _ => write!(f, "signal {number}"),
    }
}

impl fmt::Display for Signal {
    fn fmt<W: fmt::Write>(&self, f: &mut fmt::Formatter<W>) -> fmt::Result {
        match name_of(self.0) {
            "" => write_unnamed(f, self.0),
            name => f.write_str(name),
        }
    }
}
