//! References that spell functions of GNU make.
ghost use Rattle.std.specs.Prelude.{◌≡◌, ◌<◌, None, length, option_map, bytes_eq, OnOk, IfErr};
ghost use Rattle.std.specs.List.{list_any};
ghost use Rattle.byte_strings.specs.Blanks.{first_word};
ghost use Rattle.mk_profile.specs.Profile.{is_wide};
ghost use Rattle.mk_macros.specs.Function.{is_function, function_of, function_in, IsFunctionFault};

use crate::fault::MacroFault;
use byte_strings::{ByteString, first_word};
use mk_profile::Profile;
use std::alloc::Global;

/// The functions of GNU make (its manual, "Functions for Transforming Text" and what follows it).
pub const FUNCTIONS: [&[u8]; 39] = [
    b"subst",
    b"patsubst",
    b"strip",
    b"findstring",
    b"filter",
    b"filter-out",
    b"sort",
    b"word",
    b"wordlist",
    b"words",
    b"firstword",
    b"lastword",
    b"dir",
    b"notdir",
    b"suffix",
    b"basename",
    b"addsuffix",
    b"addprefix",
    b"join",
    b"wildcard",
    b"realpath",
    b"abspath",
    b"if",
    b"or",
    b"and",
    b"intcmp",
    b"let",
    b"foreach",
    b"file",
    b"call",
    b"value",
    b"eval",
    b"origin",
    b"flavor",
    b"shell",
    b"guile",
    b"error",
    b"warning",
    b"info",
];

fn has(names: &[&[u8]], name: &[u8]) -> bool
    ensures { result ≡ list_any (λ n. bytes_eq n.now name.now) names.now }
{
    names.iter().any(|n| *n == name)
}

fn is_function(word: &[u8]) -> bool
    ensures { result ≡ is_function word.now }
{
    has(&FUNCTIONS, word)
}

/// The function that a name spells: its first word, where a blank is behind that.
fn function_of(name: &[u8]) -> Option<&[u8]>
    ensures { option_map (λ word. word.now) result ≡ function_of name.now }
{
    let word = first_word(name);
    if word.len() < name.len() && is_function(word) {
        return Some(word);
    }
    None
}

/// The function that a name spells in this language.
pub(crate) fn function_in(profile: Profile, name: &[u8]) -> Option<&[u8]>
    ensures { option_map (λ word. word.now) result ≡ function_in (is_wide profile) name.now }
{
    if !profile.is_wide() {
        return None;
    }
    function_of(name)
}

/// Refuses a name that spells a function.
pub(crate) fn refuse_function(
    alloc: Global,
    profile: Profile,
    name: &[u8],
) -> Result<(), MacroFault>
    ensures ok { OnOk result (function_in (is_wide profile) name.now ≡ None) }
    ensures err { IfErr result (IsFunctionFault (function_in (is_wide profile) name.now)) }
{
    match function_in(profile, name) {
        None => Ok(()),
        Some(word) => Err(MacroFault::Function(ByteString::from_slice(alloc, word)?)),
    }
}
