//! Names of targets that other makes have a meaning for.
ghost use Rattle.std.specs.Prelude.{◌≡◌, ◌≤◌, length, bytes_eq};
ghost use Rattle.std.specs.List.{list_any, prefix_len};
ghost use Rattle.byte_strings.specs.Blanks.{words};
ghost use Rattle.mk_lines.specs.Text.{begins_with};
ghost use Rattle.mk_notes.specs.Names.{has, is_target, is_macro, is_asking, is_macro_elsewhere, is_of_run, is_command, is_plain, parts_of, is_suffix_name, is_named_by};

use byte_strings::Words;
use mk_profile::Profile;

/// Targets that have a meaning with GNU make or with bmake, and none here.
pub const TARGETS: [&[u8]; 14] = [
    b".BEGIN",
    b".DELETE_ON_ERROR",
    b".END",
    b".ERROR",
    b".EXPORT_ALL_VARIABLES",
    b".INTERMEDIATE",
    b".INTERRUPT",
    b".LOW_RESOLUTION_TIME",
    b".MAIN",
    b".NOTPARALLEL",
    b".ONESHELL",
    b".ORDER",
    b".SECONDARY",
    b".SECONDEXPANSION",
];

/// Macros by which other makes run recipes otherwise, or look for files elsewhere, and that say nothing here.
pub const MACROS: [&[u8]; 3] = [b"SHELL", b".SHELLFLAGS", b"VPATH"];

/// Macros by which a makefile tells GNU make what to do, and that say nothing here in any profile.
pub const ASKING: [&[u8]; 2] = [b".DEFAULT_GOAL", b"MAKEFLAGS"];

/// Macros that GNU make sets in each run, or for the midst of a line, and that are empty here.
pub const RUN: [&[u8]; 5] = [
    b".DEFAULT_GOAL",
    b"MAKECMDGOALS",
    b"MAKEFILE_LIST",
    b"MAKELEVEL",
    b"OUTPUT_OPTION",
];

/// Commands that GNU make has built in as macros, and the wide profile hasn't.
pub const COMMANDS: [&[u8]; 53] = [
    b"AS",
    b"CHECKOUT,v",
    b"CO",
    b"COMPILE.C",
    b"COMPILE.F",
    b"COMPILE.S",
    b"COMPILE.c",
    b"COMPILE.cc",
    b"COMPILE.cpp",
    b"COMPILE.def",
    b"COMPILE.f",
    b"COMPILE.m",
    b"COMPILE.mod",
    b"COMPILE.p",
    b"COMPILE.r",
    b"COMPILE.s",
    b"CPP",
    b"CTANGLE",
    b"CWEAVE",
    b"F77",
    b"FC",
    b"GET",
    b"LD",
    b"LEX.l",
    b"LEX.m",
    b"LINK.C",
    b"LINK.F",
    b"LINK.S",
    b"LINK.c",
    b"LINK.cc",
    b"LINK.cpp",
    b"LINK.f",
    b"LINK.m",
    b"LINK.o",
    b"LINK.p",
    b"LINK.r",
    b"LINK.s",
    b"LINT",
    b"LINT.c",
    b"M2C",
    b"MAKEINFO",
    b"MAKE_COMMAND",
    b"OBJC",
    b"PC",
    b"PREPROCESS.F",
    b"PREPROCESS.S",
    b"PREPROCESS.r",
    b"TANGLE",
    b"TEX",
    b"TEXI2DVI",
    b"WEAVE",
    b"YACC.m",
    b"YACC.y",
];

/// Suffixes that other makes know before a makefile names any.
pub const SUFFIXES: [&[u8]; 15] = [
    b".C", b".S", b".a", b".c", b".cc", b".cpp", b".cxx", b".f", b".h", b".l", b".o", b".p", b".s",
    b".sh", b".y",
];

/// Whether the name is one of these.
pub(crate) fn has(names: &[&[u8]], name: &[u8]) -> bool
    ensures { result ≡ list_any (λ n. bytes_eq n.now name.now) names.now }
{
    names.iter().any(|n| *n == name)
}

fn begins_with_dot(name: &[u8]) -> bool
    ensures { result ≡ begins_with 46 name.now }
{
    match name.split_first() {
        Some((first, _)) => *first == b'.',
        None => false,
    }
}

/// Whether the name has a meaning elsewhere. Each of these begins with a dot.
#[tactic(auto, using(crate::proofs::NameLemmas::without_dot))]
pub(crate) fn is_target(name: &[u8]) -> bool
    ensures { result ≡ is_target name.now }
{
    if !begins_with_dot(name) {
        return false;
    }
    has(&TARGETS, name)
}

/// Whether other makes run recipes otherwise by a definition of the macro, or look for files elsewhere.
fn is_macro(name: &[u8]) -> bool
    ensures { result ≡ is_macro name.now }
{
    has(&MACROS, name)
}

/// Whether GNU make is told something by a definition of the macro, and this one isn't.
fn is_asking(name: &[u8]) -> bool
    ensures { result ≡ is_asking name.now }
{
    has(&ASKING, name)
}

/// Whether a definition of the macro has a meaning with another make, and none in this language.
pub fn is_macro_elsewhere(profile: Profile, name: &[u8]) -> bool
    ensures { result ≡ is_macro_elsewhere profile name.now }
{
    is_asking(name) || !profile.is_wide() && is_macro(name)
}

/// Whether GNU make sets the macro in each run.
pub(crate) fn is_of_run(name: &[u8]) -> bool
    ensures { result ≡ is_of_run name.now }
{
    has(&RUN, name)
}

/// Whether the macro is a command that GNU make has built in.
pub(crate) fn is_command(name: &[u8]) -> bool
    ensures { result ≡ is_command name.now }
{
    has(&COMMANDS, name)
}

fn is_plain(byte: u8) -> bool
    ensures { result ≡ is_plain byte }
{
    byte != b'.'
}

fn plain_len(bytes: &[u8]) -> usize
    ensures value { result ≡ prefix_len is_plain bytes.now }
    ensures within { result ≤ length bytes.now }
{
    let mut count = 0;
    while count < bytes.len() && is_plain(bytes[count]) {
        count += 1;
    }
    count
}

/// The two suffixes that a name is made of, each with its dot. The second one may be missing.
fn parts_of(name: &[u8]) -> (&[u8], &[u8])
    ensures { (result.0.now, result.1.now) ≡ parts_of name.now }
{
    match name.split_first() {
        Some((_dot, after)) => name.split_at(1 + plain_len(after)),
        None => (name, name),
    }
}

/// The name is made of one or two suffixes that other makes know. Each of these begins with a dot.
#[tactic(auto, using(crate::proofs::NameLemmas::no_suffix))]
pub(crate) fn is_suffix_name(name: &[u8]) -> bool
    ensures { result ≡ is_suffix_name name.now }
{
    if !begins_with_dot(name) {
        return false;
    }
    let (first, second) = parts_of(name);
    has(&SUFFIXES, first) && (second.is_empty() || has(&SUFFIXES, second))
}

fn has_word(text: &[u8], name: &[u8]) -> bool
    ensures { result ≡ has (words text.now) name.now }
{
    for word in Words::new(text) {
        if name == word {
            return true;
        }
    }
    false
}

/// The suffixes of a name are among the words of a text, or that can't be seen, since the text refers to macros.
pub(crate) fn is_named_by(text: &[u8], name: &[u8]) -> bool
    ensures { result ≡ is_named_by text.now name.now }
{
    let (first, second) = parts_of(name);
    text.contains(&b'$') || (has_word(text, first) && (second.is_empty() || has_word(text, second)))
}
