//! Other runs kept from the state that a run keeps. Nothing is claimed of them: that nobody else writes the state is a premise.

use crate::stop::Stop;
use dmk_printing::Printer;
use std::alloc::AllocError;
use std::io::{self, Write};
use std::sync::Wait;

/// What came of keeping other runs from a state.
#[derive(Clone, Copy, Debug)]
pub enum Hold {
    /// They wait until this run and its recipes have ended.
    Held,
    /// A run that waits for this one to end has the state, so neither would ever end.
    HeldAbove,
    /// They can't be kept from it, for this reason.
    NotLocked(io::Error),
}

/// Keeps other runs from a state until it is let go.
pub trait Guard {
    /// Waits for nobody: None where another run, or a recipe of one, has the state. Asked once more by the run that has it, it says so.
    fn attempt(&mut self) -> Result<Option<Hold>, AllocError>;

    /// Waits until nobody has it.
    fn wait(&mut self) -> Result<Hold, AllocError>;
}

/// Keeps other runs from the state, and says where it waits for one, and where it can't.
pub fn hold_state<G: Guard, R: Wait, O: Write + Drop, W: Write + Drop>(
    guard: &mut G,
    printer: &Printer<'_, R, O, W>,
    state: &str,
) -> Result<(), Stop> {
    let found = match guard.attempt()? {
        Some(found) => found,
        None => {
            printer.waiting(state);
            guard.wait()?
        }
    };
    match found {
        Hold::Held => Ok(()),
        Hold::HeldAbove => Err(Stop::HeldAbove),
        Hold::NotLocked(reason) => {
            printer.not_locked(state, reason);
            Ok(())
        }
    }
}
