//! The status of a run, and what is told at its end.
ghost use Rattle.std.specs.Prelude.{◌≡◌, ◌≢◌, ◌≤◌, Ok, IfOk};

use crate::stop::Stop;
use dmk_messages::{Fault, Message};
use dmk_printing::Printer;
use std::io::Write;
use std::sync::Wait;

/// The status of what was found. Why there is no report is printed.
fn found_status<R: Wait, O: Write + Drop, W: Write + Drop>(
    printer: &Printer<'_, R, O, W>,
    state: &str,
    found: &Result<u8, Stop>,
) -> u8
    requires { IfOk found.now (λ s. s ≤ 2) }
    ensures status { result ≤ 2 }
    ensures report { result ≢ 2 → found.now ≡ Ok result }
{
    match found {
        Ok(status) => *status,
        Err(Stop::Before(fault)) => {
            printer.fault(Message { state, fault });
            2
        }
        Err(Stop::HeldAbove) => {
            printer.held_above(state);
            2
        }
        // No part is parted again.
        Err(Stop::Parted(_)) => 2,
        Err(Stop::NotOnDisk(error)) => {
            printer.not_on_disk(*error);
            2
        }
        Err(Stop::Run(fault)) => {
            printer.stop(*fault);
            2
        }
    }
}

/// The status of what was found, and 2 where not all that was to be printed went out, which is told last. Before it stands which
/// targets failed.
pub fn status_of<R: Wait, O: Write + Drop, W: Write + Drop>(
    printer: &Printer<'_, R, O, W>,
    state: &str,
    found: Result<u8, Stop>,
) -> u8
    requires { IfOk found (λ s. s ≤ 2) }
    ensures status { result ≤ 2 }
    ensures report { result ≢ 2 → found ≡ Ok result }
{
    printer.repeat_failures();
    let status = found_status(printer, state, &found);
    drop(found);
    if printer.is_whole() {
        return status;
    }
    printer.fault(Message {
        state,
        fault: &Fault::Write,
    });
    2
}
