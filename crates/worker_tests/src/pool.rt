//! The pool of tokens.

use crate::fake::Fake;
use jb_slots::{BankFault, Pipe, Taken};
use std::sync::Wait;
use std::time::Clock;

/// One worker's way to the pool.
#[derive(Drop)]
pub struct Tap<'f, R: Wait + Clock + Copy> {
    fake: &'f Fake<R>,
    /// The token that was read last.
    held: u8,
}

impl<'f, R: Wait + Clock + Copy> Tap<'f, R> {
    pub fn new(fake: &'f Fake<R>) -> Tap<'f, R> {
        Tap { fake, held: 0 }
    }
}

impl<R: Wait + Clock + Copy> Pipe for Tap<'_, R> {
    ghost reads = { λ _ _ _. Unit {0} };

    ghost writes = { λ _ _ _ _. Unit {0} };

    fn read(&mut self) -> Result<Taken, BankFault> {
        let fake = self.fake;
        let mut notes = fake.notes.lock(&fake.rt);
        if fake.is_broken {
            notes.begin();
            return Err(BankFault);
        }
        let Some(token) = notes.tokens.pop() else {
            return Ok(Taken::NothingNow);
        };
        notes.reads = notes.reads.saturating_add(1);
        self.held = token;
        Ok(Taken::Token(token))
    }

    fn write(&mut self, token: u8) -> Result<(), BankFault> {
        let fake = self.fake;
        let mut notes = fake.notes.lock(&fake.rt);
        if token != self.held {
            notes.are_mixed = true;
        }
        notes.tokens.push(token).map_err(|_| BankFault)
    }
}
