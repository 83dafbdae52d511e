//! Looks at the files of a recipe, before it and behind it.
ghost use Rattle.std.specs.Prelude.{◌≡◌, IfOk};
ghost use Rattle.jb_marks.specs.Before.{IsBefore};
ghost use Rattle.jb_recipe.specs.Files.{IsLeftBehind};

use crate::Place;
use byte_strings::{ByteString, ByteStrings};
use jb_marks::{Before, Earlier, Left, Names, look_behind};
use std::alloc::{AllocError, Global};

/// Looks at the files of a recipe between its target's 'begun' and its first line. Where one was changed a moment ago, which a change
/// behind the look couldn't be told from, that moment is let pass, and all are looked at once more.
pub(crate) fn look_before<P: Place, E: Earlier>(
    alloc: Global,
    place: &P,
    run: &E,
    names: &Names<'_>,
) -> Result<Before, AllocError>
    ensures { IfOk result (IsBefore (P.told place.now) (E.said run.now) (P.ticked place.now) names.now) }
{
    let before = Before::look(alloc, place, run, names)?;
    if before.is_sure() {
        return Ok(before);
    }
    place.pass_tick(before.tick);
    Before::look(alloc, place, run, names)
}

/// What a recipe that passed has left.
#[derive(Drop)]
pub(crate) struct Behind {
    /// The text of the marks of all that it was run on and has left; none where no text can say so many.
    pub marks: ByteString,
    /// Each file that it makes is an ordinary one, and as it was before it.
    pub is_same: bool,
}

/// Looks at what a recipe that passed has left.
pub(crate) fn look_at_left<P: Place, E: Earlier>(
    alloc: Global,
    place: &P,
    run: &E,
    names: &Names<'_>,
    before: &Before,
    hidden: &ByteStrings,
) -> Result<Behind, AllocError>
    ensures { IfOk result (IsLeftBehind (P.told place.now) (E.said run.now) names.now before.now hidden.now) }
{
    let Left { is_same, text } = look_behind(alloc, place, run, names, before, hidden)?;
    let marks = match text {
        Some(text) => ByteString::new(text),
        None => ByteString::new(Vec::new(alloc)),
    };
    Ok(Behind { marks, is_same })
}
