//! Where the job slots of a run come from, and what its recipes are told of them.
ghost use Rattle.std.specs.Prelude.{◌≡◌, IfOk};
ghost use Rattle.std.specs.List.{list_any};
ghost use Rattle.byte_strings.specs.Blanks.{is_blank};
ghost use Rattle.jb_auth.specs.Auth.{Authority, Says};
ghost use Rattle.jb_runner.specs.Serving.{ComesFrom, is_one_word, served_flags};

use byte_strings::{ByteString, is_blank};
use jb_slots::{Auth, read_auth};
use std::alloc::{AllocError, Global};

/// Where the job slots of a run come from.
#[derive(Clone, Copy, PartialEq, Eq)]
pub enum Source<'a> {
    /// The FIFO of this path, which another make serves.
    Client(&'a [u8]),
    /// A pool that dmk serves.
    Server,
    /// The implicit slot: there is one worker.
    Alone,
    /// The implicit slot, since what is named isn't used. It is noted.
    Unused,
}

/// Where the slots of a run with so many workers come from, by MAKEFLAGS.
pub fn source_of(makeflags: &[u8], workers: usize) -> Source<'_>
    ensures { (authority : Authority) × Says makeflags.now authority × ComesFrom authority workers result }
{
    match read_auth(makeflags) {
        Auth::Fifo(path) => Source::Client(path),
        Auth::Absent | Auth::Disabled if workers > 1 => Source::Server,
        Auth::Absent | Auth::Disabled => Source::Alone,
        Auth::Descriptors | Auth::Unreadable => Source::Unused,
    }
}

fn has_blank(path: &[u8]) -> bool
    ensures { result ≡ list_any is_blank path.now }
{
    path.iter().any(|byte| is_blank(*byte))
}

/// Whether a path can be one word of MAKEFLAGS. A pool under another one isn't served.
pub(crate) fn is_one_word(path: &[u8]) -> bool
    ensures { result ≡ is_one_word path.now }
{
    !has_blank(path)
}

/// MAKEFLAGS for children, where dmk serves the pool of this path.
pub(crate) fn served_flags(
    alloc: Global,
    workers: usize,
    path: &[u8],
) -> Result<ByteString, AllocError>
    ensures { IfOk result (λ flags. flags ≡ served_flags workers path.now) }
{
    let front = format!(in alloc; " -j{workers} --jobserver-auth=fifo:")?;
    let mut flags = Vec::from_slice(alloc, front.as_bytes())?;
    flags.extend_from_slice(path)?;
    Ok(ByteString::new(flags))
}
