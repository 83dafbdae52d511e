//! The marks of a 'done'.
ghost use Rattle.std.specs.Prelude.{◌≡◌, ◌++◌, ℕ, Some, IfOk, IfSome, IfNone, IsSomeAnd, OnOk, option_to_list, slice_get};
ghost use Rattle.jb_marks.specs.Done.{AreMarks, HasNot, IsLeft, IsReported};
ghost use Rattle.jb_marks.specs.Each.{EachWith};
ghost use Rattle.jb_marks.specs.Single.{IsMarkOf};
ghost use Rattle.jb_marks.specs.Tests.{is_named};

use crate::before::{Before, Known, look_at_made};
use crate::earlier::Earlier;
use crate::names::Names;
use crate::same::is_same;
use crate::sights::{Sight, Sights};
use crate::single::{mark_behind, mark_of};
use crate::text::text_of;
use byte_strings::ByteStrings;
use st_marks::Mark;
use std::alloc::{AllocError, Global};

/// What a recipe that passed has left.
#[derive(Drop)]
pub struct Left {
    /// Each file that it makes is an ordinary one, and as it was before the recipe.
    pub is_same: bool,
    /// The text of the marks of all files; None where no text can say so many.
    pub text: Option<Vec<u8>>,
}

pub(crate) fn file_marks(alloc: Global, sights: &[Sight]) -> Result<Vec<Mark>, AllocError>
    ensures { IfOk result (λ marks. EachWith IsMarkOf sights.now marks.items) }
{
    let mut marks = Vec::new(alloc);
    for sight in sights {
        marks.push(mark_of(*sight))?;
    }
    Ok(marks)
}

fn is_named(known: &[Known], place: usize, name: &[u8]) -> bool
    ensures { result ≡ is_named name.now (slice_get known.now place) }
{
    match known.get(place) {
        Some(k) => k.name.as_slice() == name,
        None => false,
    }
}

/// The place of a name in what was taken before the recipe. Reports name mostly what the entry names, in its order: it is looked for at
/// the next place first.
fn find(known: &[Known], next: usize, name: &[u8]) -> Option<usize>
    ensures some { IfSome result (λ i. IsSomeAnd (slice_get known.now i) (λ k. k.name ≡ name.now)) }
    ensures none { IfNone result (HasNot known.now name.now) }
{
    if is_named(known, next, name) {
        return Some(next);
    }
    for place in 0..known.len() {
        if is_named(known, place, name) {
            return Some(place);
        }
    }
    None
}

fn reported_mark<P: Sights, E: Earlier>(
    place: &P,
    run: &E,
    before: &Before,
    found: Option<usize>,
    name: &[u8],
) -> Mark
    requires some { IfSome found (λ i. IsSomeAnd (slice_get before.now.hidden.items i) (λ k. k.name ≡ name.now)) }
    requires none { IfNone found (HasNot before.now.hidden.items name.now) }
    ensures { IsReported (P.told place.now) (E.said run.now) before.now name.now result }
{
    match found {
        None => mark_behind(place, run, before.tick, false, name),
        Some(i) => match before.hidden[i].mark {
            Some(mark) => mark,
            None => mark_behind(place, run, before.tick, true, name),
        },
    }
}

/// Where the next name is looked for.
fn place_behind(found: Option<usize>, next: usize) -> usize {
    match found {
        Some(place) => place.saturating_add(1),
        None => next,
    }
}

fn hidden_marks<P: Sights, E: Earlier>(
    alloc: Global,
    place: &P,
    run: &E,
    before: &Before,
    reported: &ByteStrings,
) -> Result<Vec<Mark>, AllocError>
    ensures { IfOk result (λ marks. EachWith (IsReported (P.told place.now) (E.said run.now) before.now) reported.now marks.items) }
{
    let mut marks = Vec::new(alloc);
    let mut next = 0;
    for name in reported {
        let found = find(before.hidden.as_slice(), next, name);
        next = place_behind(found, next);
        marks.push(reported_mark(place, run, before, found, name))?;
    }
    Ok(marks)
}

fn push_source(marks: &mut Vec<Mark>, source: Option<Mark>) -> Result<(), AllocError>
    ensures { OnOk result (marks.new.items ≡ marks.old.items ++ option_to_list source) }
{
    match source {
        Some(mark) => Ok(marks.push(mark)?),
        None => Ok(()),
    }
}

fn done_marks<P: Sights, E: Earlier>(
    alloc: Global,
    place: &P,
    run: &E,
    before: &Before,
    behind: &[Sight],
    reported: &ByteStrings,
) -> Result<Vec<Mark>, AllocError>
    ensures { IfOk result (λ marks. AreMarks (P.told place.now) (E.said run.now) before.now behind.now reported.now marks.items) }
{
    let mut marks = file_marks(alloc, behind)?;
    push_source(&mut marks, before.source)?;
    marks.extend_from_slice(before.explicit.as_slice())?;
    let hidden = hidden_marks(alloc, place, run, before, reported)?;
    marks.extend_from_slice(hidden.as_slice())?;
    Ok(marks)
}

/// What a recipe that passed has left, which names of its report are hidden prerequisites. To be called once the files that it makes
/// are on the disk, since a file system may stamp them anew until then.
pub fn look_behind<P: Sights, E: Earlier>(
    alloc: Global,
    place: &P,
    run: &E,
    names: &Names<'_>,
    before: &Before,
    reported: &ByteStrings,
) -> Result<Left, AllocError>
    ensures { IfOk result (IsLeft (P.told place.now) (E.said run.now) names.now before.now reported.now) }
{
    let behind = look_at_made(alloc, place, names.target, names.others)?;
    let marks = done_marks(alloc, place, run, before, behind.as_slice(), reported)?;
    Ok(Left {
        is_same: is_same(before.files.as_slice(), behind.as_slice()),
        text: text_of(alloc, names.source, marks.as_slice())?,
    })
}
