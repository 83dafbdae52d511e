//! Why targets aren't as they were made.

ghost use Rattle.std.specs.Prelude.{◌≡◌, ◌++◌, ◌∷◌, length, IfOk, OnOk};
ghost use Rattle.std.specs.Option.{option_copied};
ghost use Rattle.st_records.specs.Parts.{explicit_from};
ghost use Rattle.st_marks.specs.Parts.{parts_of, parted};
ghost use Rattle.st_answers.specs.Lines.{tab, row};
ghost use Rattle.st_answers.specs.Why.{look_in, marked_stale, of_row, marked_why, source_why, parts_why, read_why, prerequisites_why, entry_why, known_why, why_text};

use crate::line_text::append_row;
use crate::stale::{Stale, append_word, file_stale, stale_of, stale_word};
use mk_names::Names;
use st_marks::{Mark, Marks, Parts, parts_of};
use st_packed::PackedEntry;
use st_records::{HashKey, Iter, Named};
use st_state::State;
use std::alloc::{AllocError, Global};
use std::collections::HashMap;

/// What was found at names, as marks: unknown where what is there can't be told.
pub type Looks<'a> = HashMap<&'a [u8], Mark, HashKey>;

/// For each of these names that is a target a line if something is wrong with it, and one for each recorded prerequisite that isn't as
/// it was then: what is wrong, in a word, the target and the prerequisite, with a TAB between them. A name that wasn't looked at is
/// like one where what is there can't be told.
pub fn causes(
    alloc: Global,
    state: &State,
    names: &Names,
    looks: &Looks<'_>,
) -> Result<Vec<u8>, AllocError>
    ensures { IfOk result (λ text. text.items ≡ why_text (look_in looks.now) state.now names.now) }
{
    let mut text = Vec::new(alloc);
    for number in 0..names.len() {
        let name = names.name(number);
        append_known(&mut text, looks, name, state.get(name))?;
    }
    Ok(text)
}

pub(crate) fn look_at(looks: &Looks<'_>, name: &[u8]) -> Mark
    ensures { result ≡ look_in looks.now name.now }
{
    match looks.get(name) {
        None => Mark::Unknown,
        Some(mark) => *mark,
    }
}

fn append_known(
    text: &mut Vec<u8>,
    looks: &Looks<'_>,
    target: &[u8],
    known: Option<&PackedEntry>,
) -> Result<(), AllocError>
    ensures { OnOk result (text.new.items ≡ text.old.items ++ known_why (look_in looks.now) target.now (option_copied known.entry)) }
{
    match known {
        None => Ok(()),
        Some(entry) => append_entry(text, looks, target, entry),
    }
}

fn append_entry(
    text: &mut Vec<u8>,
    looks: &Looks<'_>,
    target: &[u8],
    entry: &PackedEntry,
) -> Result<(), AllocError>
    ensures { OnOk result (text.new.items ≡ text.old.items ++ entry_why (look_in looks.now) target.now entry.now) }
{
    append_word(text, target, stale_of(entry, look_at(looks, target)))?;
    append_prerequisites(text, looks, target, &entry.hidden(), entry.lend())
}

fn append_prerequisites(
    text: &mut Vec<u8>,
    looks: &Looks<'_>,
    target: &[u8],
    hidden: &Iter<'_>,
    explicit: Named<'_>,
) -> Result<(), AllocError>
    ensures { OnOk result (text.new.items ≡ text.old.items
        ++ prerequisites_why (look_in looks.now) target.now hidden.now (explicit_from explicit.entry)) }
{
    match explicit {
        Named::Unknown => Ok(()),
        Named::Known(_names) => Ok(()),
        Named::Marked(names, marks) => append_read(text, looks, target, &names, hidden, marks),
    }
}

fn append_read(
    text: &mut Vec<u8>,
    looks: &Looks<'_>,
    target: &[u8],
    names: &Iter<'_>,
    hidden: &Iter<'_>,
    marks: &[u8],
) -> Result<(), AllocError>
    ensures { OnOk result (text.new.items ≡ text.old.items
        ++ read_why (look_in looks.now) target.now names.now hidden.now (parts_of marks.now (length names.now) (length hidden.now))) }
{
    match parts_of(marks, names.len(), hidden.len()) {
        None => Ok(()),
        Some(parts) => append_parts(text, looks, target, names, hidden, parts),
    }
}

fn append_parts(
    text: &mut Vec<u8>,
    looks: &Looks<'_>,
    target: &[u8],
    names: &Iter<'_>,
    hidden: &Iter<'_>,
    parts: Parts<'_>,
) -> Result<(), AllocError>
    ensures { OnOk result (text.new.items ≡ text.old.items
        ++ parts_why (look_in looks.now) target.now names.now hidden.now (parted parts.entry)) }
{
    append_source(text, looks, target, parts.source, parts.of_source)?;
    append_marked(text, looks, target, names, parts.explicit)?;
    append_marked(text, looks, target, hidden, parts.hidden)
}

fn append_source(
    text: &mut Vec<u8>,
    looks: &Looks<'_>,
    target: &[u8],
    source: Option<&[u8]>,
    marks: Marks<'_>,
) -> Result<(), AllocError>
    ensures { OnOk result (text.new.items ≡ text.old.items
        ++ source_why (look_in looks.now) target.now (option_copied source.entry) marks.entry) }
{
    let mut left = marks;
    match source {
        None => Ok(()),
        Some(name) => {
            let mark = left.first();
            append_of(text, target, name, marked_stale(mark, look_at(looks, name)))
        }
    }
}

/// A line for each of these names that isn't as its mark says.
fn append_marked(
    text: &mut Vec<u8>,
    looks: &Looks<'_>,
    target: &[u8],
    names: &Iter<'_>,
    marks: Marks<'_>,
) -> Result<(), AllocError>
    ensures { OnOk result (text.new.items ≡ text.old.items ++ marked_why (look_in looks.now) target.now names.now marks.entry) }
{
    let mut left = marks;
    for name in names.iter() {
        let mark = left.first();
        let wrong = marked_stale(mark, look_at(looks, name));
        append_of(text, target, name, wrong)?;
    }
    Ok(())
}

/// What is wrong with a prerequisite; nothing where it has no mark.
fn marked_stale(mark: Option<Mark>, look: Mark) -> Option<Stale>
    ensures { result ≡ marked_stale mark look }
{
    match mark {
        None => None,
        Some(mark) => file_stale(Some(mark), look),
    }
}

fn append_of(
    text: &mut Vec<u8>,
    target: &[u8],
    name: &[u8],
    wrong: Option<Stale>,
) -> Result<(), AllocError>
    ensures { OnOk result (text.new.items ≡ text.old.items ++ of_row target.now name.now wrong) }
{
    match wrong {
        None => Ok(()),
        Some(wrong) => append_named(text, stale_word(wrong), target, name),
    }
}

fn append_named(
    text: &mut Vec<u8>,
    word: &[u8],
    target: &[u8],
    name: &[u8],
) -> Result<(), AllocError>
    ensures { OnOk result (text.new.items ≡ text.old.items ++ (word.now ++ tab ∷ row target.now name.now)) }
{
    text.extend_from_slice(word)?;
    text.extend_from_slice(b"\t")?;
    append_row(text, target, name)
}
