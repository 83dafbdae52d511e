//! Targets that aren't finished, or whose file isn't the one that was made.

ghost use Rattle.std.specs.Prelude.{◌≡◌, ◌++◌, ℕ, List, IfOk, OnOk, length, slice_get, map as list_map};
ghost use Rattle.st_records.specs.Parts.{explicit_from};
ghost use Rattle.st_marks.specs.declared.mark.Mark.{Mark};
ghost use Rattle.st_marks.specs.Parts.{parts_of};
ghost use Rattle.st_answers.specs.Answers.{target_names};
ghost use Rattle.st_answers.specs.Stale.{own_among, own_mark_of, own_mark, is_no_file, is_other, same_stamp, has_stamp, is_as_marked, unlike, file_stale, stale_of, stale_word, word_row, looked_row, stale_text};

use crate::line_text::append_row;
use st_marks::{Mark, Stamp, parts_of};
use st_packed::PackedEntry;
use st_records::{Named, Phase};
use st_state::State;
use std::alloc::{AllocError, Global};

/// What is wrong with a target.
#[derive(Clone, Copy, Debug, PartialEq, Eq)]
pub(crate) enum Stale {
    /// Its recipe was begun, and didn't end.
    Begun,
    Failed,
    /// Its file isn't there.
    Gone,
    /// It is another file than the recipe left: of another time or size, or where there was none.
    Changed,
    /// Nobody knows which file the recipe left.
    Unmarked,
}

/// A line for each target of the state that isn't finished, or whose file isn't the one that was made, in byte order of the names:
/// what is wrong, in a word, a TAB and the name. `looks` are at the targets' names, in that order, as marks: unknown where what is there
/// can't be told.
pub fn stale_targets(alloc: Global, state: &State, looks: &[Mark]) -> Result<Vec<u8>, AllocError>
    ensures { (look : List ℕ → Mark) → looks.now ≡ list_map look (target_names state.now)
        → IfOk result (λ text. text.items ≡ stale_text look state.now) }
{
    let named = state.in_byte_order(alloc)?;
    let mut text = Vec::new(alloc);
    for place in 0..named.len() {
        let (name, entry) = named.at(place);
        append_looked(&mut text, name, entry, look_at(looks, place))?;
    }
    Ok(text)
}

fn look_at(looks: &[Mark], place: usize) -> Option<Mark>
    ensures { result ≡ slice_get looks.now place }
{
    if place < looks.len() {
        Some(looks[place])
    } else {
        None
    }
}

/// The line of a target whose name was looked at, where something is wrong with it.
fn append_looked(
    text: &mut Vec<u8>,
    name: &[u8],
    entry: &PackedEntry,
    look: Option<Mark>,
) -> Result<(), AllocError>
    ensures { OnOk result (text.new.items ≡ text.old.items ++ looked_row (name.now, entry.now) look) }
{
    match look {
        None => Ok(()),
        Some(look) => append_word(text, name, stale_of(entry, look)),
    }
}

pub(crate) fn append_word(
    text: &mut Vec<u8>,
    name: &[u8],
    wrong: Option<Stale>,
) -> Result<(), AllocError>
    ensures { OnOk result (text.new.items ≡ text.old.items ++ word_row name.now wrong) }
{
    match wrong {
        None => Ok(()),
        Some(wrong) => append_row(text, stale_word(wrong), name),
    }
}

pub(crate) fn stale_word(wrong: Stale) -> &'static [u8]
    ensures { result.now ≡ stale_word wrong }
{
    match wrong {
        Stale::Begun => b"begun",
        Stale::Failed => b"failed",
        Stale::Gone => b"gone",
        Stale::Changed => b"changed",
        Stale::Unmarked => b"unmarked",
    }
}

/// What is wrong with a target of this entry, where this is found at its name; None where it is finished and its file as it was made.
pub(crate) fn stale_of(entry: &PackedEntry, look: Mark) -> Option<Stale>
    ensures { result ≡ stale_of entry.now look }
{
    match entry.phase() {
        Phase::Begun => Some(Stale::Begun),
        Phase::Done => file_stale(own_mark(entry), look),
        Phase::Failed(_) => Some(Stale::Failed),
    }
}

pub(crate) fn file_stale(mark: Option<Mark>, look: Mark) -> Option<Stale>
    ensures { result ≡ file_stale mark look }
{
    let Some(mark) = mark else {
        return if is_no_file(look) {
            Some(Stale::Gone)
        } else {
            None
        };
    };
    if is_as_marked(mark, look) {
        None
    } else {
        Some(unlike(mark, look))
    }
}

/// What is wrong where the file isn't as its mark says.
fn unlike(mark: Mark, look: Mark) -> Stale
    ensures { result ≡ unlike mark look }
{
    match mark {
        Mark::NoFile => Stale::Changed,
        Mark::Unknown => {
            if is_no_file(look) {
                Stale::Gone
            } else {
                Stale::Unmarked
            }
        }
        Mark::Other | Mark::File(_) | Mark::Own(_) => {
            if is_no_file(look) {
                Stale::Gone
            } else {
                Stale::Changed
            }
        }
    }
}

/// Whether this is found where the mark says what was there; where it is unknown, no look shows that.
fn is_as_marked(mark: Mark, look: Mark) -> bool
    ensures { result ≡ is_as_marked mark look }
{
    match mark {
        Mark::Unknown => false,
        Mark::NoFile => is_no_file(look),
        Mark::Other => is_other(look),
        Mark::File(stamp) | Mark::Own(stamp) => has_stamp(stamp, look),
    }
}

pub(crate) fn is_no_file(look: Mark) -> bool
    ensures { result ≡ is_no_file look }
{
    matches!(look, Mark::NoFile)
}

pub(crate) fn is_other(look: Mark) -> bool
    ensures { result ≡ is_other look }
{
    matches!(look, Mark::Other)
}

pub(crate) fn has_stamp(stamp: Stamp, look: Mark) -> bool
    ensures { result ≡ has_stamp stamp look }
{
    match look {
        Mark::Unknown | Mark::NoFile | Mark::Other => false,
        Mark::File(now) | Mark::Own(now) => same_stamp(stamp, now),
    }
}

fn same_stamp(a: Stamp, b: Stamp) -> bool
    ensures { result ≡ same_stamp a b }
{
    a.time == b.time && a.size == b.size
}

/// The mark of the target's own file, an unknown one where it can't be read; None where no marks are kept.
pub(crate) fn own_mark(entry: &PackedEntry) -> Option<Mark>
    ensures { result ≡ own_mark entry.now }
{
    own_mark_of(entry.hidden().len(), entry.lend())
}

fn own_mark_of(hidden: usize, explicit: Named<'_>) -> Option<Mark>
    ensures { (names : List (List ℕ)) → hidden ≡ length names → result ≡ own_mark_of names (explicit_from explicit.entry) }
{
    match explicit {
        Named::Unknown => None,
        Named::Known(_names) => None,
        Named::Marked(names, text) => Some(own_among(text, names.len(), hidden)),
    }
}

/// The first of the marks that the text has of the target's files.
fn own_among(text: &[u8], explicit: usize, hidden: usize) -> Mark
    ensures { result ≡ own_among (parts_of text.now explicit hidden) }
{
    match parts_of(text, explicit, hidden) {
        None => Mark::Unknown,
        Some(parts) => {
            let mut files = parts.files;
            match files.first() {
                None => Mark::Unknown,
                Some(mark) => mark,
            }
        }
    }
}
