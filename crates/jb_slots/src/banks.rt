//! Where ends of token pools come from, and how one is served.
ghost use Rattle.std.specs.Prelude.{◌≡◌, ◌<◌, Bool, All, IfOk, OnErr, IfSome, false, length};
ghost use Rattle.jb_slots.specs.Tokens.{fresh};

use crate::Bank;
use std::alloc::{AllocError, Global};

/// Opens ends of token pools that have a name, and serves a pool of its own.
pub trait Banks {
    /// One worker's end.
    type End: Bank;

    /// Whether a pool is being served.
    ghost serves: { Self → Bool };

    /// An end for each worker of the pool of this path, which is opened once for all of them, each with room to note
    /// `room` bytes; None where there is no pool that can be opened. No end has read or written anything yet.
    fn open(
        &self,
        alloc: Global,
        path: &[u8],
        workers: usize,
        room: usize,
    ) -> Result<Option<Vec<Self::End>>, AllocError>
        ensures count { IfOk result (λ found. IfSome found (λ ends. length ends.items ≡ workers)) }
        ensures fresh { IfOk result (λ found. IfSome found (λ ends. All (λ end. Self.End.state end ≡ fresh room) ends.items)) }
        ensures memory { OnErr result (0 < workers) };

    /// Makes a pool under this path, in place of what stands there, and puts `count` tokens `+` into it. It is held open
    /// until `close`. False where it can't be made; then nothing is served.
    fn serve(&mut self, alloc: Global, path: &[u8], count: u8) -> Result<bool, AllocError>
        ensures ok { IfOk result (λ made. serves self.new ≡ made) }
        ensures err { OnErr result (serves self.new ≡ false) };

    /// Lets the pool go, and removes it.
    fn close(&mut self, path: &[u8])
        ensures { serves self.new ≡ false };
}
