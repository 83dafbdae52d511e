//! Which files of targets may be removed, and why others stay.

ghost use Rattle.std.specs.Prelude.{◌≡◌, ◌++◌, ◌∷◌, [], IfOk, OnOk, if◌then◌else◌};
ghost use Rattle.std.specs.Option.{option_copied};
ghost use Rattle.st_answers.specs.Why.{look_in};
ghost use Rattle.st_answers.specs.Cleaning.{has_mark, is_known_made, is_made, is_removable, removable, has_work, is_idle, made_word, file_word, stay_word, stay_row, known_row, name_row, stay_text};

use crate::leaving::leads_out;
use crate::line_text::append_row;
use crate::stale::{has_stamp, is_no_file, is_other, own_mark};
use crate::why::{Looks, look_at};
use mk_names::Names;
use st_marks::Mark;
use st_packed::PackedEntry;
use st_records::{ByteStrings, Iter, Phase};
use st_state::State;
use std::alloc::{AllocError, Global};

/// Those of the names that are targets which commands made, and at which the looks found the file that was made, of the time and size
/// of its mark: in the tree below the working folder, or `outside` too.
pub fn removable(
    alloc: Global,
    state: &State,
    names: &Names,
    looks: &Looks<'_>,
    outside: bool,
) -> Result<ByteStrings, AllocError>
    ensures { IfOk result (λ found. found ≡ removable (look_in looks.now) outside state.now names.now) }
{
    let mut found = ByteStrings::empty(alloc);
    for number in 0..names.len() {
        let name = names.name(number);
        push_where(&mut found, name, is_removable(state, looks, name, outside))?;
    }
    Ok(found)
}

fn push_where(names: &mut ByteStrings, name: &[u8], wanted: bool) -> Result<(), AllocError>
    ensures { OnOk result (names.new ≡ names.old ++ (if wanted then name.now ∷ [] else [])) }
{
    if wanted {
        names.push(name)?;
    }
    Ok(())
}

/// A line for each of the names at whose targets a file is that isn't removable: why it stays, in a word, a TAB and the name.
pub fn staying(
    alloc: Global,
    state: &State,
    names: &Names,
    looks: &Looks<'_>,
    outside: bool,
) -> Result<Vec<u8>, AllocError>
    ensures { IfOk result (λ text. text.items ≡ stay_text (look_in looks.now) outside state.now names.now) }
{
    let mut text = Vec::new(alloc);
    for number in 0..names.len() {
        append_name(&mut text, state, looks, names.name(number), outside)?;
    }
    Ok(text)
}

fn append_name(
    text: &mut Vec<u8>,
    state: &State,
    looks: &Looks<'_>,
    name: &[u8],
    outside: bool,
) -> Result<(), AllocError>
    ensures { OnOk result (text.new.items ≡ text.old.items ++ name_row (look_in looks.now) outside state.now name.now) }
{
    let removed = is_removable(state, looks, name, outside);
    append_known(text, removed, name, state.get(name), look_at(looks, name))
}

fn append_known(
    text: &mut Vec<u8>,
    removed: bool,
    name: &[u8],
    known: Option<&PackedEntry>,
    look: Mark,
) -> Result<(), AllocError>
    ensures { OnOk result (text.new.items ≡ text.old.items ++ known_row removed name.now (option_copied known.entry) look) }
{
    match known {
        None => Ok(()),
        Some(entry) => append_stay(text, removed, name, entry, look),
    }
}

fn append_stay(
    text: &mut Vec<u8>,
    removed: bool,
    name: &[u8],
    entry: &PackedEntry,
    look: Mark,
) -> Result<(), AllocError>
    ensures { OnOk result (text.new.items ≡ text.old.items ++ stay_row removed name.now entry.now look) }
{
    if removed || is_no_file(look) {
        return Ok(());
    }
    let work = has_work(&entry.commands());
    append_row(
        text,
        stay_word(entry.phase(), work, own_mark(entry), look),
        name,
    )
}

fn is_removable(state: &State, looks: &Looks<'_>, name: &[u8], outside: bool) -> bool
    ensures { result ≡ is_removable (look_in looks.now) outside state.now name.now }
{
    is_known_made(state.get(name), look_at(looks, name)) && (outside || !leads_out(name))
}

fn is_known_made(known: Option<&PackedEntry>, look: Mark) -> bool
    ensures { result ≡ is_known_made (option_copied known.entry) look }
{
    match known {
        None => false,
        Some(entry) => is_made(entry, look),
    }
}

fn is_made(entry: &PackedEntry, look: Mark) -> bool
    ensures { result ≡ is_made entry.now look }
{
    match entry.phase() {
        Phase::Done => has_mark(own_mark(entry), look) && has_work(&entry.commands()),
        Phase::Begun | Phase::Failed(_) => false,
    }
}

/// Some command does something.
fn has_work(commands: &Iter<'_>) -> bool
    ensures { result ≡ has_work commands.now }
{
    for command in commands.iter() {
        if !is_idle(command) {
            return true;
        }
    }
    false
}

fn is_idle(command: &[u8]) -> bool
    ensures { result ≡ is_idle command.now }
{
    let colon: &[u8] = b":";
    let yes: &[u8] = b"true";
    command == colon || command == yes
}

fn has_mark(mark: Option<Mark>, look: Mark) -> bool
    ensures { result ≡ has_mark mark look }
{
    match mark {
        Some(Mark::File(stamp) | Mark::Own(stamp)) => has_stamp(stamp, look),
        _ => false,
    }
}

fn stay_word(phase: Phase, work: bool, mark: Option<Mark>, look: Mark) -> &'static [u8]
    ensures { result.now ≡ stay_word phase work mark look }
{
    match phase {
        Phase::Begun => b"begun",
        Phase::Done => file_word(work, mark, look),
        Phase::Failed(_) => b"failed",
    }
}

fn file_word(work: bool, mark: Option<Mark>, look: Mark) -> &'static [u8]
    ensures { result.now ≡ file_word work mark look }
{
    match mark {
        None | Some(Mark::Unknown) => b"unmarked",
        Some(Mark::Other) if is_other(look) => b"other",
        Some(Mark::File(stamp) | Mark::Own(stamp)) if has_stamp(stamp, look) => made_word(work),
        Some(_) => b"changed",
    }
}

fn made_word(work: bool) -> &'static [u8]
    ensures { result.now ≡ made_word work }
{
    if work { b"outside" } else { b"idle" }
}
