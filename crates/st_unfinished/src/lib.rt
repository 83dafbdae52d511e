//! What is left of a target's entry whose recipe isn't done.
#![tactic(auto)]

ghost use Rattle.std.specs.Prelude.{◌≡◌};
ghost use Rattle.st_unfinished.specs.Unfinished.{unfinished};

use st_packed::PackedEntry;
use st_records::Phase;

/// A recipe that began or failed: no commands and no explicit names count any more, the hidden names stay as last known.
pub fn leave_unfinished(known: &mut PackedEntry, phase: Phase)
    ensures { known.new ≡ unfinished phase known.old.hidden }
{
    known.leave_unfinished(phase);
}
