//! Where a node was put.

ghost use Rattle.std.specs.Prelude.{◌≡◌};
ghost use Rattle.bd_links.specs.Mark.{stand_now};

use crate::Stand;

/// The list that a node was put at the end of last, and how often Unflushed had been joined to Flushing before.
/// So a join is constant in time: it marks none of the nodes that it moves.
#[derive(Clone, Copy, Debug)]
pub(crate) struct Mark {
    pub(crate) stand: Stand,
    pub(crate) joins: usize,
}

/// The list that a marked node is in after so many joins.
pub(crate) fn stand_of(mark: Mark, joins: usize) -> Stand
    ensures { result ≡ stand_now joins mark }
{
    match mark.stand {
        Stand::Unflushed if mark.joins < joins => Stand::Flushing,
        stand => stand,
    }
}
