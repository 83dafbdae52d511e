//! How many recipes of a run failed.

use std::io::Write;

/// How many recipes were to be run.
#[derive(Clone, Copy)]
pub struct Counts {
    /// They passed.
    pub made: usize,
    pub failed: usize,
    /// They weren't run, since others failed.
    pub left: usize,
}

impl Counts {
    pub fn none() -> Counts {
        Counts {
            made: 0,
            failed: 0,
            left: 0,
        }
    }

    fn all(self) -> usize {
        self.made
            .saturating_add(self.failed)
            .saturating_add(self.left)
    }

    /// Those of a further part of the run.
    pub(crate) fn add(&mut self, more: Counts) {
        self.made = self.made.saturating_add(more.made);
        self.failed = self.failed.saturating_add(more.failed);
        self.left = self.left.saturating_add(more.left);
    }
}

/// The line that says how many failed of several.
pub(crate) fn write_counts<E: Write>(err: &mut E, counts: Counts) {
    let all = counts.all();
    let Counts {
        made: _,
        failed,
        left,
    } = counts;
    if failed == 0 || all < 2 {
        return;
    }
    let _ = if left == 0 {
        writeln!(err, "dmk: {failed} of {all} failed")
    } else {
        writeln!(err, "dmk: {failed} of {all} failed, {left} not made")
    };
}
