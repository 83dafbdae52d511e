//! What the states of other levels know of a target.
ghost use Rattle.std.specs.Prelude.{◌≡◌, ◌&&◌, IfSome, IfNone, find, option_copied};
ghost use Rattle.std.specs.FinMap as map;
ghost use Rattle.std.specs.List.{list_all};
ghost use Rattle.st_records.specs.declared.record.Entry.{Entry};
ghost use Rattle.mk_levels.specs.Offered.{is_done, has_marks, is_settled, is_settled_by, tells, knows, IsOffered};

use st_packed::PackedEntry;
use st_records::{Named, Phase};
use st_state::State;

/// The state of another level of runs, read beside these.
#[derive(Drop)]
pub struct Level {
    pub name: String,
    pub state: State,
}

/// Whether a recipe was run to its end, by what a state has of its target.
fn is_done(entry: &PackedEntry) -> bool
    ensures { result ≡ is_done entry.now.phase }
{
    matches!(entry.phase(), Phase::Done)
}

/// Whether it is known of which files a target was made.
fn has_marks(entry: &PackedEntry) -> bool
    ensures { result ≡ has_marks entry.now.explicit }
{
    match entry.lend() {
        Named::Marked(_names, _marks) => true,
        Named::Unknown => false,
        Named::Known(_names) => false,
    }
}

/// Whether a state knows nothing of a target, or that its recipe was run to its end.
fn is_settled(target: &[u8], state: &State) -> bool
    ensures { result ≡ is_settled (map.get state.now target.now) }
{
    match state.get(target) {
        None => true,
        Some(entry) => is_done(entry),
    }
}

fn is_settled_by(target: &[u8], level: &Level) -> bool
    ensures { result ≡ is_settled_by target.now level.now }
{
    is_settled(target, &level.state)
}

fn are_settled(target: &[u8], levels: &[Level]) -> bool
    ensures { result ≡ list_all (is_settled_by target.now) levels.now }
{
    levels.iter().all(|level| is_settled_by(target, level))
}

/// Whether a level can tell of what a target was made by a recipe that was run to its end.
fn knows(target: &[u8], level: &Level) -> bool
    ensures { result ≡ knows target.now level.now }
{
    match level.state.get(target) {
        None => false,
        Some(entry) => is_done(entry) && has_marks(entry),
    }
}

/// The first level that can.
pub(crate) fn first_knowing<'l>(target: &[u8], levels: &'l [Level]) -> Option<&'l Level>
    ensures { option_copied result ≡ find (knows target.now) levels.now }
{
    levels.iter().find(|level| knows(target, level))
}

/// What the first level knows that can tell of what a target was made, where no state has its recipe as begun or failed.
pub(crate) fn offer<'l>(target: &[u8], own: &State, levels: &'l [Level]) -> Option<&'l PackedEntry>
    ensures some { IfSome (option_copied result) (IsOffered own.now levels.now target.now) }
    ensures none { IfNone result ((e : Entry) → IsOffered own.now levels.now target.now e → ⊥) }
{
    if !is_settled(target, own) || !are_settled(target, levels) {
        return None;
    }
    let level = first_knowing(target, levels)?;
    level.state.get(target)
}
