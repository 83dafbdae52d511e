//! What is looked at between a target's 'begun' and the first line of its recipe.
ghost use Rattle.std.specs.Prelude.{◌≡◌, ℕ, ◌∷◌, IfOk, option_to_list};
ghost use Rattle.std.specs.Option.{option_copied};
ghost use Rattle.std.specs.List.{list_all};
ghost use Rattle.jb_marks.specs.Before.{IsBefore, IsKnown, IsTaken, IsTakenUnlessOpen, is_known, is_known_or_left, is_open, is_sure, made_names, source_names};
ghost use Rattle.jb_marks.specs.Each.{EachWith};

use crate::earlier::Earlier;
use crate::names::{Names, Recorded};
use crate::sights::{Sight, Sights};
use crate::single::mark_at_begin;
use byte_strings::{ByteString, ByteStrings};
use st_marks::Mark;
use std::alloc::{AllocError, Global};

/// A hidden prerequisite that the target's entry names.
#[derive(Drop)]
pub struct Known {
    pub name: ByteString,
    /// None where the recorded mark says of no file that it went in: it is looked at when its report is read.
    pub mark: Option<Mark>,
}

/// What was looked at before a recipe, each name once.
#[derive(Drop)]
pub struct Before {
    /// What the clock said, by which files are stamped, before any look.
    pub tick: i128,
    /// What the recipe makes, as it was, the target first.
    pub files: Vec<Sight>,
    /// The mark of the source, if there is one.
    pub source: Option<Mark>,
    /// Those of the prerequisites that the makefile names.
    pub explicit: Vec<Mark>,
    pub hidden: Vec<Known>,
}

/// What is told of a target, and of what is made beside it.
pub(crate) fn look_at_made<P: Sights>(
    alloc: Global,
    place: &P,
    target: &[u8],
    others: &ByteStrings,
) -> Result<Vec<Sight>, AllocError>
    ensures { IfOk result (λ sights. EachWith (P.told place.now) (target.now ∷ others.now) sights.items) }
{
    let mut sights = Vec::new(alloc);
    sights.push(place.look(target))?;
    for other in others {
        sights.push(place.look(other))?;
    }
    Ok(sights)
}

fn take_source<P: Sights, E: Earlier>(
    place: &P,
    run: &E,
    tick: i128,
    source: Option<&[u8]>,
) -> Option<Mark>
    ensures { EachWith (IsTaken (P.told place.now) (E.said run.now) tick) (option_to_list (option_copied source.entry)) (option_to_list result) }
{
    match source {
        Some(name) => Some(mark_at_begin(place, run, tick, name)),
        None => None,
    }
}

fn take_marks<P: Sights, E: Earlier>(
    alloc: Global,
    place: &P,
    run: &E,
    tick: &i128,
    names: &ByteStrings,
) -> Result<Vec<Mark>, AllocError>
    ensures { IfOk result (λ marks. EachWith (IsTaken (P.told place.now) (E.said run.now) tick.now) names.now marks.items) }
{
    let mut marks = Vec::new(alloc);
    for name in names {
        marks.push(mark_at_begin(place, run, *tick, name))?;
    }
    Ok(marks)
}

fn is_open(mark: Option<Mark>) -> bool
    ensures { result ≡ is_open mark }
{
    match mark {
        None => false,
        Some(mark) => match mark {
            Mark::Unknown | Mark::Own(_) => true,
            Mark::NoFile | Mark::Other | Mark::File(_) => false,
        },
    }
}

fn take_unless_open<P: Sights, E: Earlier>(
    place: &P,
    run: &E,
    tick: &i128,
    recorded: &Recorded,
) -> Option<Mark>
    ensures { IsTakenUnlessOpen (is_open recorded.now.mark) (IsTaken (P.told place.now) (E.said run.now) tick.now recorded.now.name) result }
{
    if is_open(recorded.mark) {
        None
    } else {
        Some(mark_at_begin(place, run, *tick, recorded.name.as_slice()))
    }
}

fn take_hidden<P: Sights, E: Earlier>(
    alloc: Global,
    place: &P,
    run: &E,
    tick: &i128,
    names: &[Recorded],
) -> Result<Vec<Known>, AllocError>
    ensures { IfOk result (λ known. EachWith (IsKnown (P.told place.now) (E.said run.now) tick.now) names.now known.items) }
{
    let mut known = Vec::new(alloc);
    for recorded in names {
        known.push(Known {
            name: recorded.name.copy(alloc)?,
            mark: take_unless_open(place, run, tick, recorded),
        })?;
    }
    Ok(known)
}

fn is_known(mark: &Mark) -> bool
    ensures { result ≡ is_known mark.now }
{
    !matches!(mark, Mark::Unknown)
}

/// Whether a hidden prerequisite has a mark that tells of a file, or none yet.
fn is_known_or_left(known: &Known) -> bool
    ensures { result ≡ is_known_or_left known.now.mark }
{
    match &known.mark {
        Some(mark) => is_known(mark),
        None => true,
    }
}

fn are_known(marks: &[Mark]) -> bool
    ensures { result ≡ list_all is_known marks.now }
{
    marks.iter().all(|mark| is_known(mark))
}

fn are_known_or_left(hidden: &[Known]) -> bool
    ensures { result ≡ list_all (λ k. is_known_or_left k.mark) hidden.now }
{
    hidden.iter().all(|known| is_known_or_left(known))
}

impl Before {
    /// Whether each look tells a later one from it. Where one doesn't, its file was changed a moment before.
    pub fn is_sure(&self) -> bool
        ensures { result ≡ is_sure self.now }
    {
        if let Some(mark) = &self.source {
            if !is_known(mark) {
                return false;
            }
        }
        are_known(self.explicit.as_slice()) && are_known_or_left(self.hidden.as_slice())
    }

    /// Looks at what a recipe makes and is made of. To be called once the target's 'begun' is on the disk, and before the first line is run.
    pub fn look<P: Sights, E: Earlier>(
        alloc: Global,
        place: &P,
        run: &E,
        names: &Names<'_>,
    ) -> Result<Before, AllocError>
        ensures { IfOk result (IsBefore (P.told place.now) (E.said run.now) (P.ticked place.now) names.now) }
    {
        // The clock first: what is changed behind a look is stamped with this tick or a later one.
        let tick = place.tick();
        Ok(Before {
            tick,
            files: look_at_made(alloc, place, names.target, names.others)?,
            source: take_source(place, run, tick, names.source),
            explicit: take_marks(alloc, place, run, &tick, names.explicit)?,
            hidden: take_hidden(alloc, place, run, &tick, names.recorded)?,
        })
    }
}
