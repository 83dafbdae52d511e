//! An end that notes what goes through a pipe.
ghost use Rattle.std.specs.Prelude.{◌≡◌, ℕ, ◌<◌, ◌≤◌, Result, Ok, IfOk, OnErr, IsErr, true, false, vec_len, vec_capacity};
ghost use Rattle.jb_slots.specs.Tokens.{ReadsNoMore, MayRead, after_take, after_give, fresh};
ghost use Rattle.jb_slots.specs.declared.fault.BankFault.{BankFault};
ghost use Rattle.jb_slots.specs.declared.bank.Taken.{Taken};
ghost use Rattle.jb_slots.specs.declared.bank.Taken.TheVariants as taken;

use crate::{Bank, BankFault, Taken};
use std::alloc::{AllocError, Global};

/// What carries single bytes from and to a pool. It notes nothing: an `End` does.
pub trait Pipe {
    /// What one read may answer, and what it leaves: a fact that only a call of `read` gives.
    ghost reads: { Self → Result Taken BankFault → Self → Type 0 };

    /// The same of a write of a byte.
    ghost writes: { Self → ℕ → Result (Unit {0}) BankFault → Self → Type 0 };

    /// Reads one byte, if one lies there. It waits for nobody.
    fn read(&mut self) -> Result<Taken, BankFault>
        ensures { reads self.old result self.new };

    /// Writes one byte.
    fn write(&mut self, token: u8) -> Result<(), BankFault>
        ensures { writes self.old token result self.new };
}

/// One worker's end over a pipe: it notes each byte that is read and each that is given back.
#[derive(Drop)]
pub struct End<P> {
    pipe: P,
    read: Vec<u8>,
    given: Vec<u8>,
    room: usize,
    ended: bool,
    faulted: bool,
    ghost read_fits: { room ≤ vec_capacity read },
    ghost given_fits: { room ≤ vec_capacity given },
}

impl<P: Pipe> End<P> {
    ghost use Rattle.jb_slots.specs.End.{state_of};

    /// An end that has room to note `room` bytes read and as many given back: no later call takes memory.
    pub fn new(alloc: Global, pipe: P, room: usize) -> Result<End<P>, AllocError>
    where
        P: Drop,
        ensures ok { IfOk result (λ e. (state_of e ≡ fresh room) × (e.pipe ≡ pipe)) }
        ensures memory { OnErr result (0 < room) }
    {
        Ok(End {
            pipe,
            read: Vec::with_capacity(alloc, room)?,
            given: Vec::with_capacity(alloc, room)?,
            room,
            ended: false,
            faulted: false,
        })
    }

    /// The bytes that were read, in order.
    pub fn bytes_read(&self) -> &[u8]
        ensures { result.now ≡ (state_of self.now).read }
    {
        self.read.as_slice()
    }

    /// The bytes that were given back, in order.
    pub fn bytes_given(&self) -> &[u8]
        ensures { result.now ≡ (state_of self.now).given }
    {
        self.given.as_slice()
    }

    fn fail(&mut self) -> BankFault
        ensures { self.new ≡ record self.old { ended = true; faulted = true } }
    {
        self.ended = true;
        self.faulted = true;
        BankFault
    }
}

impl<P: Pipe> Bank for End<P> {
    ghost use Rattle.jb_slots.specs.End.{state_of};

    ghost state = { state_of };

    // One call reads one byte at most, and answers just what that read answered.
    fn take(&mut self) -> Result<Taken, BankFault>
        ensures noted { state_of self.new ≡ after_take (state_of self.old) result }
        ensures no_more { ReadsNoMore (state_of self.old) → result ≡ Ok taken.End }
        ensures untouched { ReadsNoMore (state_of self.old) → self.new.pipe ≡ self.old.pipe }
        ensures one_read { MayRead (state_of self.old) → P.reads self.old.pipe result self.new.pipe }
    {
        if self.ended || self.read.len() >= self.room {
            self.ended = true;
            return Ok(Taken::End);
        }
        match self.pipe.read() {
            Ok(Taken::Token(token)) => {
                self.read.push(token).unwrap();
                Ok(Taken::Token(token))
            }
            Ok(Taken::NothingNow) => Ok(Taken::NothingNow),
            Ok(Taken::End) => {
                self.ended = true;
                Ok(Taken::End)
            }
            Err(_) => Err(self.fail()),
        }
    }

    // One call writes one byte at most, and answers just what that write answered.
    fn give(&mut self, token: u8) -> Result<(), BankFault>
        ensures noted { state_of self.new ≡ after_give (state_of self.old) token result }
        ensures untouched { self.old.room ≤ vec_len self.old.given
            → IsErr result × (self.new.pipe ≡ self.old.pipe) }
        ensures one_write { vec_len self.old.given < self.old.room
            → P.writes self.old.pipe token result self.new.pipe }
    {
        if self.given.len() >= self.room {
            return Err(self.fail());
        }
        match self.pipe.write(token) {
            Ok(()) => {
                self.given.push(token).unwrap();
                Ok(())
            }
            Err(_) => Err(self.fail()),
        }
    }

    fn faulted(&self) -> bool {
        self.faulted
    }
}
