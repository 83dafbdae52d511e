//! Recipe lines that write on the streams of a run themselves.

use crate::printer::Printer;
use bd_lists::{Clearance, Ended, Exec, ExecFault, Variable};
use jb_host::Sharing;
use mk_recipe::Line;
use std::io::Write;
use std::sync::Wait;

/// Runs lines. To those that write on the printer's streams these are lent, so that no status line is drawn beside what they write.
#[derive(Drop)]
pub struct Lending<'a, R: Wait, O: Write + Drop, W: Write + Drop, E> {
    pub printer: &'a Printer<'a, R, O, W>,
    pub sharing: Sharing<'a>,
    pub exec: &'a E,
}

impl<T, R: Wait, O: Write + Drop, W: Write + Drop, E: Exec<T>> Exec<T> for Lending<'_, R, O, W, E> {
    ghost answers = { λ lending. E.answers lending.exec.now };

    fn run(
        &self,
        clearance: &Clearance<T>,
        line: &Line,
        env: &[Variable],
    ) -> Result<Ended, ExecFault> {
        if !self.sharing.shares(line) {
            return self.exec.run(clearance, line, env);
        }
        self.printer.lend();
        let ended = self.exec.run(clearance, line, env);
        self.printer.take_back();
        ended
    }
}
