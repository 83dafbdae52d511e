//! What one look came to, and how it is told.
use dmk_dry::AlwaysRun;
use dmk_host::{AlwaysLines, with_patience};
use dmk_messages::{Cure, Fault, Message, print_fault};
use plain_text::write_plain;
use std::io;

/// What one look came to.
pub(crate) struct Look {
    pub(crate) status: u8,
    /// What -p prints, so many bytes, and the listing.
    pub(crate) out: Vec<u8>,
    pub(crate) before: usize,
    pub(crate) err: Vec<u8>,
    /// What helps against the fault that was told.
    pub(crate) cure: Option<Cure>,
    /// The lines that are run all the same, once it is told.
    pub(crate) always: Vec<AlwaysRun>,
}

impl Drop for Look {
    fn drop(self) {
        let Look {
            status: _,
            out: _,
            before: _,
            err: _,
            cure: _,
            always: _,
        } = self;
    }
}

impl Look {
    /// Whether it has lines that are run all the same.
    pub(crate) fn runs_any(&self) -> bool {
        !self.always.is_empty()
    }

    pub(crate) fn is_fault(&self) -> bool {
        self.status == 2
    }

    pub(crate) fn is_same(&self, other: &Look) -> bool {
        self.status == other.status
            && self.out.as_slice() == other.out.as_slice()
            && self.err.as_slice() == other.err.as_slice()
    }

    // What standard error doesn't take is lost: there is nobody left to tell.
    fn print(&self, host: HostRuntime, lines: &AlwaysLines<'_>) -> io::Result<bool> {
        let _ = write_plain(&mut with_patience(host, host.stderr()), &self.err);
        lines.print(&self.out, self.before, &self.always)
    }

    /// Prints it, runs its lines, and answers the status: 2 where one of them failed.
    pub(crate) fn tell(self, host: HostRuntime, lines: &AlwaysLines<'_>) -> u8 {
        let printed = self.print(host, lines);
        let status = self.status;
        drop(self);
        match printed {
            Ok(true) => status,
            Ok(false) => 2,
            Err(_) => {
                say(host, &Fault::Write);
                2
            }
        }
    }
}

pub(crate) fn say(host: HostRuntime, fault: &Fault) {
    let message = Message { state: "", fault };
    print_fault(&mut with_patience(host, host.stderr()), message);
}
