//! A pool of tokens in memory, for workers of one process.
ghost use Rattle.std.specs.Prelude.{◌≡◌, ◌<◌, length, IfOk, OnErr};
ghost use Rattle.jb_slots.specs.Tokens.{fresh};
ghost use Rattle.jb_slots.specs.End.{state_of};

use crate::{BankFault, End, Pipe, Taken};
use std::alloc::{AllocError, Global};
use std::collections::VecDeque;
use std::sync::{Mutex, Wait};

/// Tokens in memory. A read takes the one that lies there longest.
#[derive(Drop)]
pub struct MemoryPool {
    tokens: Mutex<VecDeque<u8>>,
    size: usize,
}

/// One worker's end of a `MemoryPool`.
pub type MemoryBank<'a, R> = End<MemoryPipe<'a, R>>;

/// The way to a `MemoryPool`.
#[derive(Drop)]
pub struct MemoryPipe<'a, R: Wait> {
    rt: &'a R,
    pool: &'a MemoryPool,
}

impl MemoryPool {
    /// A pool that holds these tokens, and never more of them.
    pub fn new(alloc: Global, tokens: &[u8]) -> Result<MemoryPool, AllocError>
        ensures memory { OnErr result (0 < length tokens.now) }
    {
        let size = tokens.len();
        let mut held = VecDeque::with_capacity(alloc, size)?;
        for token in tokens {
            held.push_back(*token)?;
        }
        Ok(MemoryPool {
            tokens: Mutex::new(held),
            size,
        })
    }

    /// An end that has room to note `room` bytes.
    pub fn end<'a, R: Wait>(
        &'a self,
        rt: &'a R,
        alloc: Global,
        room: usize,
    ) -> Result<MemoryBank<'a, R>, AllocError>
        ensures ok { IfOk result (λ e. state_of e ≡ fresh room) }
        ensures memory { OnErr result (0 < room) }
    {
        End::new(alloc, self.pipe(rt), room)
    }

    /// The way to this pool, for an end that puts something in between.
    pub fn pipe<'a, R: Wait>(&'a self, rt: &'a R) -> MemoryPipe<'a, R> {
        MemoryPipe { rt, pool: self }
    }
}

impl<R: Wait> Pipe for MemoryPipe<'_, R> {
    ghost reads = { λ _ _ _. Unit {0} };

    ghost writes = { λ _ _ _ _. Unit {0} };

    fn read(&mut self) -> Result<Taken, BankFault> {
        match self.pool.tokens.lock(self.rt).pop_front() {
            Some(token) => Ok(Taken::Token(token)),
            None => Ok(Taken::NothingNow),
        }
    }

    // A token more than the pool began with is refused: it would take memory.
    fn write(&mut self, token: u8) -> Result<(), BankFault> {
        let mut tokens = self.pool.tokens.lock(self.rt);
        if tokens.len() >= self.pool.size {
            return Err(BankFault);
        }
        tokens.push_back(token).map_err(|_| BankFault)
    }
}
