//! Job slots: a worker runs a recipe only while it holds one.
ghost use Rattle.std.specs.Prelude.{◌≡◌, IfSome, IfNone, None};
ghost use Rattle.jb_slots.specs.Tokens.{EndState, ReadsNoMore};
ghost use Rattle.jb_slots.specs.Slots.{Acquires, token_of};

use crate::implicit::{ImplicitSlot, Place, Turn, Watching};
use crate::{Bank, BankFault, Taken};
use std::marker::Model;
use std::sync::Wait;

/// The right to run one recipe. It can't be copied or let go: it goes back by `Slots::release`. It doesn't outlive the
/// slots that it was acquired of.
///
/// Contracts see the byte that it was taken with, or None for the implicit slot.
pub struct Slot<'a> {
    hold: Hold<'a>,
}

pub(crate) enum Hold<'a> {
    Implicit(ImplicitSlot<'a>),
    Token(u8),
}

impl<'a> Model for Slot<'a> {
    ghost use Rattle.std.specs.Prelude.{ℕ, Option};

    ghost Value = { Option ℕ };

    ghost use Rattle.jb_slots.specs.Slots.{token_of};

    ghost view = { λ slot. token_of slot.hold };
}

/// Looks into the pool until it gives a byte, or the implicit slot is free. None where the pool is at its end or fails.
fn watch<'a, R: Wait, B: Bank>(rt: &R, watching: &Watching<'a>, bank: &mut B) -> Option<Hold<'a>>
    ensures found { IfSome result (λ hold. Acquires (B.state bank.old) (B.state bank.new) (token_of hold)) }
    ensures none { IfNone result (Acquires (B.state bank.old) (B.state bank.new) None) }
    ensures no_more { ReadsNoMore (B.state bank.old) → result ≡ None }
{
    for _ in rt.forever() {
        let seen = watching.returns();
        match bank.take() {
            Ok(Taken::Token(token)) => return Some(Hold::Token(token)),
            Ok(Taken::NothingNow) => {
                if let Some(slot) = watching.pause(rt, seen) {
                    return Some(Hold::Implicit(slot));
                }
            }
            Ok(Taken::End) | Err(_) => return None,
        }
    }
    unreachable!()
}

/// The slots of one make: the implicit one, which needs no token, and one for each byte that an end reads.
#[derive(Drop)]
pub struct Slots {
    implicit: Place,
}

impl Slots {
    ghost use Rattle.jb_slots.specs.Slots.{Releases};

    pub fn new() -> Slots {
        Slots {
            implicit: Place::new(),
        }
    }

    /// Waits for a slot: the implicit one where it is free, else that or one for a byte of the pool, whichever comes first.
    /// Where the pool is at its end or fails, now or earlier, it is the implicit one, once it is free.
    ///
    /// Of the workers that wait one watches the pool, and the others stand in line behind it. The pool is read while no lock
    /// is held. Nothing is said of how long this waits.
    pub fn acquire<'a, R: Wait, B: Bank>(&'a self, rt: &R, bank: &mut B) -> Slot<'a>
        ensures taken { Acquires (B.state bank.old) (B.state bank.new) result }
        ensures no_more { ReadsNoMore (B.state bank.old) → result ≡ None }
    {
        let watching = match self.implicit.wait_in_line(rt) {
            Turn::Slot(slot) => {
                return Slot {
                    hold: Hold::Implicit(slot),
                };
            }
            Turn::Watch(watching) => watching,
        };
        let found = watch(rt, &watching, bank);
        // One that waited for the implicit slot alone while it counts as watching would keep the others from tokens.
        watching.leave(rt);
        match found {
            Some(hold) => Slot { hold },
            None => Slot {
                hold: Hold::Implicit(self.implicit.wait(rt)),
            },
        }
    }

    /// Gives a slot back to the end that it was acquired with. The pool is written while no lock is held.
    pub fn release<R: Wait, B: Bank>(
        &self,
        rt: &R,
        slot: Slot<'_>,
        bank: &mut B,
    ) -> Result<(), BankFault>
        ensures { Releases (B.state bank.old) (B.state bank.new) slot.entry result }
    {
        let Slot { hold } = slot;
        match hold {
            Hold::Implicit(slot) => {
                slot.put_back(rt);
                Ok(())
            }
            Hold::Token(token) => {
                let given = bank.give(token);
                self.implicit.hurry();
                given
            }
        }
    }
}
