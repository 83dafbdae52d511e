//! Which lines write on dmk's own streams as a run stands.

use crate::writes::Writes;
use jb_turns::Turns;
use mk_recipe::Line;

/// Which lines write on dmk's own streams as a run stands.
#[derive(Clone, Copy)]
pub struct Sharing<'a> {
    pub writes: Writes,
    pub turns: &'a Turns,
}

impl Sharing<'_> {
    /// Whether a line that runs now writes on dmk's own standard output and error. One that has the terminal alone does.
    pub fn shares(self, line: &Line) -> bool {
        self.turns.is_alone() || self.writes.shares(line)
    }
}
