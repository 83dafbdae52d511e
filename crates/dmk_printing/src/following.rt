//! A run whose status line also tells how long it has stood.

use crate::printer::Printer;
use std::io::Write;
use std::sync::Wait;
use std::thread::{Threads, join};

/// Runs it, which ends the printer's run. Meanwhile its status line, if it has one, is drawn anew each second, by a thread of its own;
/// where none can be made, at steps of the run alone.
pub fn followed<R, O, W, T, F>(rt: &R, printer: &Printer<'_, R, O, W>, run: F) -> T
where
    R: Threads + Wait + Sync,
    O: Write + Drop + Send,
    W: Write + Drop + Send,
    F: FnOnce() -> T,
    requires { F.pre run }
    ensures { F.post run result }
{
    if !printer.draws() {
        return run();
    }
    let ((), found) = join(
        rt,
        || printer.keep_time(),
        || -> T
            requires { F.pre run }
            ensures { F.post run result }
        {
            let found = run();
            printer.end();
            found
        },
    );
    found
}
