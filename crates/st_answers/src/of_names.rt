//! All that is told of a name: what it is, what it was made of, and what was made of it.

ghost use Rattle.std.specs.Prelude.{◌≡◌, ◌++◌, ◌||◌, ◌∷◌, [], IfOk, OnOk, is_some};
ghost use Rattle.std.specs.List.{list_any};
ghost use Rattle.std.specs.Option.{option_copied};
ghost use Rattle.std.specs.FinMap as map;
ghost use Rattle.st_records.specs.Parts.{names_known};
ghost use Rattle.st_answers.specs.Users.{is_among, stands_on, user_rows, has_name, own_rows, answer_text};

use crate::line_text::append_row;
use crate::of_marks::append_below;
use crate::of_targets::append_target;
use st_packed::PackedEntry;
use st_records::Iter;
use st_state::{Listed, State};
use std::alloc::AllocError;

/// Writes what is told of a name behind a text, and answers whether the state has the name. Each line is a word, a TAB and a name:
/// of a target `done`, `begun` or `failed`, then a line `explicit` or `hidden` for each prerequisite; of another name `source`;
/// and for each target that was made of it `user`. Of a target with marks, `mark` is the word of the lines that have them, each below
/// the name that it is of, and `inferred` that of the source which an implicit rule gave it.
pub fn query(
    state: &State,
    named: &Listed<'_>,
    name: &[u8],
    text: &mut Vec<u8>,
) -> Result<bool, AllocError>
    requires { named.now ≡ map.entries state.now }
    ensures known { IfOk result (λ known. known ≡ has_name state.now name.now) }
    ensures text { OnOk result (text.new.items ≡ text.old.items ++ answer_text state.now name.now) }
{
    let known = state.get(name);
    if !has_name(named, name, known) {
        return Ok(false);
    }
    append_own(text, name, known)?;
    append_users(text, named, name)?;
    Ok(true)
}

/// Whether the state has a name, as a target or as what one was made of.
pub fn is_known(state: &State, named: &Listed<'_>, name: &[u8]) -> bool
    requires { named.now ≡ map.entries state.now }
    ensures { result ≡ has_name state.now name.now }
{
    has_name(named, name, state.get(name))
}

fn has_name(named: &Listed<'_>, name: &[u8], known: Option<&PackedEntry>) -> bool
    ensures { result ≡ (is_some (option_copied known.entry) || list_any (stands_on name.now) named.now) }
{
    known.is_some() || is_used(named, name)
}

fn append_own(
    text: &mut Vec<u8>,
    name: &[u8],
    known: Option<&PackedEntry>,
) -> Result<(), AllocError>
    ensures { OnOk result (text.new.items ≡ text.old.items ++ own_rows name.now (option_copied known.entry)) }
{
    match known {
        None => append_row(text, b"source", name),
        Some(entry) => {
            append_target(text, name, entry)?;
            append_below(text, &entry.hidden(), entry.lend())
        }
    }
}

fn append_users(text: &mut Vec<u8>, named: &Listed<'_>, name: &[u8]) -> Result<(), AllocError>
    ensures { OnOk result (text.new.items ≡ text.old.items ++ user_rows name.now named.now) }
{
    for place in 0..named.len() {
        let (user, entry) = named.at(place);
        append_user(text, user, entry, name)?;
    }
    Ok(())
}

/// The row of one target, where it was made of the name.
fn append_user(
    text: &mut Vec<u8>,
    user: &[u8],
    entry: &PackedEntry,
    name: &[u8],
) -> Result<(), AllocError>
    ensures { OnOk result (text.new.items ≡ text.old.items ++ user_rows name.now ((user.now, entry.now) ∷ [])) }
{
    if stands_on(entry, name) {
        append_row(text, b"user", user)
    } else {
        Ok(())
    }
}

fn is_used(named: &Listed<'_>, name: &[u8]) -> bool
    ensures { result ≡ list_any (stands_on name.now) named.now }
{
    for place in 0..named.len() {
        let (_user, entry) = named.at(place);
        if stands_on(entry, name) {
            return true;
        }
    }
    false
}

fn stands_on(entry: &PackedEntry, name: &[u8]) -> bool
    ensures { result ≡ (is_among name.now (names_known entry.now.explicit) || is_among name.now entry.now.hidden) }
{
    is_among(name, &entry.names()) || is_among(name, &entry.hidden())
}

fn is_among(name: &[u8], names: &Iter<'_>) -> bool
    ensures { result ≡ is_among name.now names.now }
{
    for other in names.iter() {
        if other == name {
            return true;
        }
    }
    false
}
