//! Where what lines write goes.
ghost use Rattle.std.specs.Prelude.{◌↔◌, IsTrue};
ghost use Rattle.jb_host.specs.Writes.{IsShared};

use mk_recipe::Line;

/// Where what lines write goes.
#[derive(Clone, Copy, PartialEq, Eq)]
pub enum Writes {
    /// It is collected, but for lines of the wide profile that may call make: of these nothing is held back.
    Apart,
    /// Likewise, but it is heard as it comes.
    Heard,
    /// Each line writes on dmk's own standard output and error.
    Through,
}

impl Writes {
    /// Whether a line writes on dmk's own standard output and error.
    pub fn shares(self, line: &Line) -> bool
        ensures { IsTrue result ↔ IsShared self line.now }
    {
        match self {
            Writes::Apart | Writes::Heard => line.is_always_run,
            Writes::Through => true,
        }
    }
}
