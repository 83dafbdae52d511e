//! What is found of a name while names are numbered.
ghost use Rattle.std.specs.Prelude.{◌≡◌};

use byte_strings::ByteStrings;
use mk_nodes::{RareParts, ShortNumber, Stamp};
use std::boxed::Box;

/// What few names have: what an implicit rule gives them, and order-only prerequisites.
#[derive(Drop)]
pub struct Given {
    /// What an implicit rule makes it from.
    pub made: ByteStrings,
    pub order_only: ByteStrings,
    pub rare: RareParts,
}

/// What rules say of a name beside the hard prerequisites of its lines.
#[derive(Drop)]
pub struct Ruled {
    /// The number of the rule line whose recipe makes it.
    pub recipe: ShortNumber,
    pub given: Option<Box<Given>>,
}

/// What is found of a name but its hidden prerequisites.
pub struct Seen<'r> {
    /// The numbers of the lines that make it.
    pub lines: &'r [usize],
    /// What is seen of it.
    pub stamp: Stamp,
    pub ruled: Ruled,
}

impl Drop for Seen<'_> {
    fn drop(self) {
        let Seen {
            lines: _,
            stamp: _,
            ruled: _,
        } = self;
    }
}

impl Seen<'_> {
    /// What is seen of it, and what rules say.
    pub fn into_parts(self) -> (Stamp, Ruled)
        ensures stamp { result.0 ≡ self.entry.stamp }
        ensures ruled { result.1 ≡ self.entry.ruled }
    {
        let Seen {
            lines: _,
            stamp,
            ruled,
        } = self;
        (stamp, ruled)
    }
}
