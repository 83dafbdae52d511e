//! Which call of the system failed, and how: what a fault of the device was.

use crate::Which;
use std::{fmt, io};

/// What a side's file was asked for.
#[derive(Clone, Copy, Debug, PartialEq, Eq)]
pub enum Call {
    Open,
    Read,
    Write,
    Cut,
    Sync,
    SyncFolder,
}

/// A call that failed, by the system's own error.
#[derive(Clone, Copy, Debug)]
pub struct FailedCall {
    pub call: Call,
    pub side: Which,
    pub error: io::Error,
}

/// A failed call as the user reads it. `state` is the name of side A.
#[derive(Clone, Copy)]
pub struct FailedCallMessage<'a> {
    pub state: &'a str,
    pub failed: FailedCall,
}

impl fmt::Display for Call {
    fn fmt<W: fmt::Write>(&self, f: &mut fmt::Formatter<W>) -> fmt::Result {
        f.write_str(match self {
            Call::Open => "open",
            Call::Read => "read",
            Call::Write => "write",
            Call::Cut => "shorten",
            Call::Sync => "sync",
            Call::SyncFolder => "sync the folder of",
        })
    }
}

impl fmt::Display for FailedCallMessage<'_> {
    fn fmt<W: fmt::Write>(&self, f: &mut fmt::Formatter<W>) -> fmt::Result {
        let state = self.state;
        let FailedCall { call, side, error } = self.failed;
        match side {
            Which::A => write!(f, "cannot {call} {state}: {error}"),
            Which::B => write!(f, "cannot {call} {state}.2: {error}"),
        }
    }
}
