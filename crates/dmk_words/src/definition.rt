//! A word of the command line that defines a macro.
use byte_strings::{trim, trim_start};
use mk_profile::Profile;

/// A name without the blanks around it; those behind a byte that would be taken for a sign with the `=` stay.
fn own_name(name: &[u8]) -> &[u8] {
    let own = trim(name);
    match own.last() {
        Some(b':' | b'+' | b'?' | b'!') => trim_start(name),
        _ => own,
    }
}

/// A name without the colons at its end, but so many at most.
fn without_colons(name: &[u8], most: usize) -> &[u8] {
    let mut front = name;
    for _ in 0..most {
        match front.split_last() {
            Some((b':', before)) => front = before,
            _ => break,
        }
    }
    front
}

/// Whether a macro is named in front of the sign, if there is one: by something, and without a colon behind it.
fn names_macro(name: &[u8]) -> bool {
    let front = match name.split_last() {
        Some((b'+' | b'?' | b'!', before)) => before,
        _ => without_colons(name, 3),
    };
    !matches!(trim(front).last(), None | Some(b':'))
}

/// The name and the text that a word defines, where it holds a `=`. In the wide profile the blanks around a name, and those before the
/// text, belong to neither (POSIX make, "Macro Definitions"), and a word that names no macro is a target.
pub(crate) fn definition_in(profile: Profile, word: &str) -> Option<(&[u8], &[u8])> {
    let (name, text) = word.split_once('=')?;
    if profile.is_wide() {
        let name = own_name(name.as_bytes());
        if !names_macro(name) {
            return None;
        }
        return Some((name, trim_start(text.as_bytes())));
    }
    Some((name.as_bytes(), text.as_bytes()))
}
