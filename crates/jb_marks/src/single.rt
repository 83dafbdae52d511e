//! The mark of one file, by a look at it.
ghost use Rattle.std.specs.Prelude.{◌≡◌, true, false, IsTrue, ◌↔◌};
ghost use Rattle.jb_marks.specs.Single.{IsMarkOf, IsOwnMarkOf, IsSettled, IsSettledBehind, IsSure, IsUnsure, IsMarkAtBegin, IsMarkBehind};

use crate::earlier::Earlier;
use crate::sights::{Sight, Sights};
use st_marks::Mark;

/// The mark of what a look tells.
pub(crate) fn mark_of(sight: Sight) -> Mark
    ensures { IsMarkOf sight result }
{
    match sight {
        Sight::NoFile => Mark::NoFile,
        Sight::Other => Mark::Other,
        Sight::File {
            time,
            size,
            changed: _,
        } => Mark::file(time, size),
    }
}

/// The same of a file that the recipe writes itself.
fn own_mark_of(sight: Sight) -> Mark
    ensures { IsOwnMarkOf sight result }
{
    match sight {
        Sight::NoFile => Mark::NoFile,
        Sight::Other => Mark::Other,
        Sight::File {
            time,
            size,
            changed: _,
        } => Mark::own(time, size),
    }
}

fn is_settled(sight: Sight, tick: i128) -> bool
    ensures { IsTrue result ↔ IsSettled tick sight }
{
    match sight {
        Sight::NoFile | Sight::Other => true,
        Sight::File {
            time: _,
            size: _,
            changed,
        } => changed < tick,
    }
}

fn is_settled_behind(sight: Sight, tick: i128) -> bool
    ensures { IsTrue result ↔ IsSettledBehind tick sight }
{
    match sight {
        Sight::NoFile => false,
        Sight::Other => true,
        Sight::File { .. } => is_settled(sight, tick),
    }
}

fn is_sure<E: Earlier>(settled: bool, run: &E, name: &[u8]) -> bool
    ensures sure { result ≡ true → IsSure (IsTrue settled) (E.said run.now name.now) }
    ensures unsure { result ≡ false → IsUnsure (IsTrue settled) (E.said run.now name.now) }
{
    settled || run.has_made(name)
}

/// By a look before the recipe, whose tick this is.
pub(crate) fn mark_at_begin<P: Sights, E: Earlier>(
    place: &P,
    run: &E,
    tick: i128,
    name: &[u8],
) -> Mark
    ensures { IsMarkAtBegin (P.told place.now name.now) (E.said run.now name.now) tick result }
{
    let sight = place.look(name);
    if is_sure(is_settled(sight, tick), run, name) {
        mark_of(sight)
    } else {
        Mark::Unknown
    }
}

/// By a look behind the recipe, whose tick this is.
pub(crate) fn mark_behind<P: Sights, E: Earlier>(
    place: &P,
    run: &E,
    tick: i128,
    is_open: bool,
    name: &[u8],
) -> Mark
    ensures { IsMarkBehind (P.told place.now name.now) (E.said run.now name.now) tick is_open result }
{
    let sight = place.look(name);
    if is_sure(is_settled_behind(sight, tick), run, name) {
        mark_of(sight)
    } else if is_open {
        own_mark_of(sight)
    } else {
        Mark::Unknown
    }
}
