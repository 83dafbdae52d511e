//! Recipes that weren't run to their end.
ghost use Rattle.std.specs.Prelude.{◌≡◌};
ghost use Rattle.std.specs.Option.{option_copied};
ghost use Rattle.mk_nodes.specs.Prerequisites.{is_cut, is_unfinished};

use st_packed::PackedEntry;
use st_records::Phase;

fn is_cut(phase: Phase) -> bool
    ensures { result ≡ is_cut phase }
{
    match phase {
        Phase::Begun | Phase::Failed(_) => true,
        Phase::Done => false,
    }
}

/// Whether the state says of a name that its recipe was begun, and not run to its end (own).
pub fn is_unfinished(entry: Option<&PackedEntry>) -> bool
    ensures { result ≡ is_unfinished (option_copied entry.entry) }
{
    match entry {
        Some(entry) => is_cut(entry.phase()),
        None => false,
    }
}
