//! What is defined before the makefile is read: the tool's own, the environment, and the command line's definitions.
ghost use Rattle.std.specs.Prelude.{◌≡◌, ℕ, List, map, IfOk, OnOk};
ghost use Rattle.std.specs.List.{list_all};
ghost use Rattle.mk_macros.specs.Ranks.{defined_by};
ghost use Rattle.mk_macros.specs.declared.definitions.Rank.TheVariants.{Environment, Tool};
ghost use Rattle.dmk_reading.specs.Definitions.{last_value, with_last, first_defined, variable, is_option_letter, may_be_beside, has_R, says_R, leaves_out, wide_macros, tool_macros, environment_macros};

use crate::keeping::is_named;
use bd_lists::Variable;
use byte_strings::first_word;
use mk_macros::{Macros, Rank};
use mk_profile::Profile;
use std::alloc::{AllocError, Global};

const MAKE_ALONE: [(&[u8], &[u8]); 1] = [(b"MAKE", b"dmk")];

const WIDE: [(&[u8], &[u8]); 14] = [
    (b"MAKE", b"dmk"),
    (b"CC", b"cc"),
    (b"CFLAGS", b"-O"),
    (b"CXX", b"g++"),
    (b"CXXFLAGS", b"-O"),
    (b"CPPFLAGS", b""),
    (b"LDFLAGS", b""),
    (b"AR", b"ar"),
    (b"ARFLAGS", b"-rv"),
    (b"LEX", b"lex"),
    (b"LFLAGS", b""),
    (b"YACC", b"yacc"),
    (b"YFLAGS", b""),
    (b"RM", b"rm -f"),
];

/// Defines all variables at one rank.
fn define_all(
    alloc: Global,
    macros: &mut Macros,
    rank: Rank,
    variables: &[Variable],
) -> Result<(), AllocError>
    ensures ranks { OnOk result ((name : List ℕ) → (defined_by macros.new).ranks name
        ≡ with_last ((defined_by macros.old).ranks name) rank (last_value variables.now name)) }
    ensures language { OnOk result ((defined_by macros.new).language ≡ (defined_by macros.old).language) }
{
    for variable in variables {
        let name = variable.name.as_slice();
        macros.define(alloc, rank, name, variable.value.as_slice(), false)?;
    }
    Ok(())
}

/// The letters of options without values that are taken from MAKEFLAGS: those of POSIX make but -f and -p, and what GNU make shares
/// with dmk.
const LETTERS: &[u8] = b"BRSeiknqrstw";

/// Whether it is such a letter.
pub fn is_option_letter(byte: u8) -> bool
    ensures { result ≡ is_option_letter byte }
{
    LETTERS.contains(&byte)
}

fn may_be_beside(byte: u8) -> bool
    ensures { result ≡ may_be_beside byte }
{
    byte == b'-' || is_option_letter(byte)
}

fn are_letters(word: &[u8]) -> bool
    ensures { result ≡ list_all may_be_beside word.now }
{
    word.iter().all(|byte| may_be_beside(*byte))
}

fn has_r(word: &[u8]) -> bool
    ensures { result ≡ has_R word.now }
{
    are_letters(word) && word.contains(&b'R')
}

fn says_r(variable: &Variable) -> bool
    ensures { result ≡ says_R variable.now }
{
    is_named(b"MAKEFLAGS", variable) && has_r(first_word(variable.value.as_slice()))
}

/// Whether what rules refer to is left out of the tool's own definitions.
fn leaves_out(environment: &[Variable]) -> bool
    ensures { result ≡ leaves_out environment.now }
{
    environment.iter().any(|variable| says_r(variable))
}

/// The tool's own definitions in the wide profile.
fn wide_table(leaves_out: bool) -> &'static [(&'static [u8], &'static [u8])]
    ensures { map (λ entry. variable entry.0.now entry.1.now) result.now ≡ wide_macros leaves_out }
{
    if leaves_out { &MAKE_ALONE } else { &WIDE }
}

/// The tool's own definitions in this language.
pub fn table(
    profile: Profile,
    environment: &[Variable],
) -> &'static [(&'static [u8], &'static [u8])]
    ensures { map (λ entry. variable entry.0.now entry.1.now) result.now ≡ tool_macros profile environment.now }
{
    match profile {
        Profile::Strict => &MAKE_ALONE,
        Profile::Posix => wide_table(leaves_out(environment)),
    }
}

/// Defines all names of a table at the tool's rank.
fn define_table(
    alloc: Global,
    macros: &mut Macros,
    table: &[(&[u8], &[u8])],
) -> Result<(), AllocError>
    ensures ranks { OnOk result ((name : List ℕ) → (defined_by macros.new).ranks name
        ≡ with_last ((defined_by macros.old).ranks name) Tool (last_value (map (λ entry. variable entry.0.now entry.1.now) table.now) name)) }
    ensures language { OnOk result ((defined_by macros.new).language ≡ (defined_by macros.old).language) }
{
    for entry in table {
        macros.define(alloc, Rank::Tool, entry.0, entry.1, false)?;
    }
    Ok(())
}

/// Defines what the environment gives a makefile in this language.
fn define_environment(
    alloc: Global,
    macros: &mut Macros,
    profile: Profile,
    environment: &[Variable],
) -> Result<(), AllocError>
    ensures ranks { OnOk result ((name : List ℕ) → (defined_by macros.new).ranks name
        ≡ with_last ((defined_by macros.old).ranks name) Environment (last_value (environment_macros profile environment.now) name)) }
    ensures language { OnOk result ((defined_by macros.new).language ≡ (defined_by macros.old).language) }
{
    define_all(alloc, macros, Rank::Environment, environment)?;
    if profile.is_wide() {
        macros.define(alloc, Rank::Environment, b"SHELL", b"/bin/sh", false)?;
    }
    Ok(())
}

/// The macros before the definitions of a makefile in this language.
pub fn first_macros(
    alloc: Global,
    profile: Profile,
    definitions: &[Variable],
    environment: &[Variable],
) -> Result<Macros, AllocError>
    ensures { IfOk result (λ macros. defined_by macros ≡ first_defined profile definitions.now environment.now) }
{
    let mut macros = Macros::new(alloc, profile);
    define_table(alloc, &mut macros, table(profile, environment))?;
    define_environment(alloc, &mut macros, profile, environment)?;
    define_all(alloc, &mut macros, Rank::CommandLine, definitions)?;
    Ok(macros)
}
