//! What a line of a report says.
ghost use Rattle.std.specs.Prelude.{◌≡◌, ◌<◌, ◌+◌, ◌==◌, ◌&&◌, length, drop, slice_index, IfSome};
ghost use Rattle.mk_recipe.specs.Report.{ends_here, colon_at, is_only, names_in, names_on};

use byte_strings::{is_blank, next_word};
use mk_profile::Profile;
use mk_short_names::name_in;

/// Nothing follows, or a blank.
fn ends_here(bytes: &[u8]) -> bool
    ensures { result ≡ ends_here bytes.now }
{
    match bytes.split_first() {
        None => true,
        Some((first, _)) => is_blank(*first),
    }
}

/// A colon stands at this place, and a blank or the end follows.
fn is_cut(line: &[u8], at: usize) -> bool
    requires { at < length line.now }
    ensures { result ≡ (slice_index line.now at == 58 && ends_here (drop (at + 1) line.now)) }
{
    line[at] == b':' && ends_here(&line[at + 1..])
}

/// The place of the first colon that a blank or the end follows.
fn colon_at(line: &[u8]) -> Option<usize>
    ensures place { result ≡ colon_at line.now }
    ensures within { IfSome result (λ at. at < length line.now) }
{
    let mut at = 0;
    while at < line.len() {
        if is_cut(line, at) {
            return Some(at);
        }
        at += 1;
    }
    None
}

/// The names of a text are just this one.
fn is_only(profile: Profile, name: &[u8], text: &[u8]) -> bool
    ensures { result ≡ is_only name.now (names_in profile text.now) }
{
    match next_word(text) {
        None => false,
        Some((word, rest)) => next_word(rest).is_none() && name == name_in(profile, word),
    }
}

/// The text of the names that a line says of the target.
pub fn names_on<'a>(profile: Profile, target: &[u8], line: &'a [u8]) -> &'a [u8]
    ensures { names_in profile result.now ≡ names_on profile target.now line.now }
{
    let Some(at) = colon_at(line) else {
        return &[];
    };
    if is_only(profile, target, &line[..at]) {
        &line[at + 1..]
    } else {
        &[]
    }
}
