//! Words of the command line that define a macro by another sign than `=`, in the wide profile: what GNU make has them stand for.
use crate::always_run::NONE;
use crate::sign::{Sign, Signed, by_sign};
use crate::word_notes::print_failed;
use bd_lists::Variable;
use byte_strings::ByteString;
use dmk_reading::Options;
use jb_host::DryShell;
use mk_eval::{doubled_text, macro_refused, output_text};
use mk_macros::{Dynamic, MacroFault, Macros, Rank};
use mk_profile::Profile;
use mk_reader::Feature;
use std::alloc::{AllocError, AllocFailed, Global};
use std::mem;
use thiserror::Error;

/// Why a word defines nothing.
#[derive(Debug, Drop, Error)]
pub enum SignFault {
    #[error("out of memory")]
    OutOfMemory,
    /// The macro, and why its text has no expansion.
    #[error("{0}: {1}")]
    Macro(ByteString, MacroFault),
    /// The macro is one that a makefile may not define either.
    #[error("command line: not supported: {0}")]
    Unsupported(Feature),
}

impl From<AllocError> for SignFault {
    ghost from_gives = { λ _ _. Unit {0} };

    fn from(_error: AllocError) -> SignFault {
        SignFault::OutOfMemory
    }
}

impl<T: Drop> From<AllocFailed<T>> for SignFault {
    ghost from_gives = { λ _ _. Unit {0} };

    fn from(_error: AllocFailed<T>) -> SignFault {
        SignFault::OutOfMemory
    }
}

/// What is defined before such a definition: by the words in front of it, and by the environment.
#[derive(Clone, Copy)]
struct Before<'a> {
    words: &'a [Variable],
    /// Of each word, whether what is appended to it is expanded at once.
    fixed: &'a [bool],
    outside: Outside<'a>,
}

/// What words are read beside.
#[derive(Clone, Copy)]
struct Outside<'a> {
    environment: &'a [Variable],
    /// Whether a command that fails is told of.
    tells: bool,
}

/// The place of the last of these that has the name.
pub(crate) fn last_of(variables: &[Variable], name: &[u8]) -> Option<usize> {
    let mut found = None;
    for (place, variable) in variables.iter().enumerate() {
        if variable.name.as_slice() == name {
            found = Some(place);
        }
    }
    found
}

fn value_among<'a>(variables: &'a [Variable], name: &[u8]) -> Option<&'a [u8]> {
    let variable = variables.get(last_of(variables, name)?)?;
    Some(variable.value.as_slice())
}

fn define(
    alloc: Global,
    macros: &mut Macros,
    rank: Rank,
    given: &Variable,
) -> Result<(), AllocError> {
    let name = given.name.as_slice();
    macros.define(alloc, rank, name, given.value.as_slice(), false)
}

impl<'a> Before<'a> {
    /// What the words, or else the environment, have for the name. The tool's own definitions don't count (GNU make).
    fn value(&self, name: &[u8]) -> Option<&'a [u8]> {
        match value_among(self.words, name) {
            Some(value) => Some(value),
            None => value_among(self.outside.environment, name),
        }
    }

    /// Whether what is appended to the name is expanded at once.
    fn is_fixed(&self, name: &[u8]) -> bool {
        match last_of(self.words, name) {
            Some(place) => self.fixed.get(place).copied().unwrap_or(false),
            None => false,
        }
    }

    /// What texts are expanded with. Neither the tool's own definitions nor those that a run puts behind the environment count yet
    /// (GNU make).
    fn macros(&self, alloc: Global, profile: Profile) -> Result<Macros, AllocError> {
        let mut macros = Macros::new(alloc, profile);
        for variable in self.outside.environment {
            if variable.name.as_slice() == b"MAKEFLAGS".as_slice() {
                break;
            }
            if variable.name.as_slice() != b"CURDIR".as_slice() {
                define(alloc, &mut macros, Rank::Environment, variable)?;
            }
        }
        macros.define(alloc, Rank::Environment, b"SHELL", b"/bin/sh", false)?;
        for variable in self.words {
            define(alloc, &mut macros, Rank::CommandLine, variable)?;
        }
        Ok(macros)
    }

    /// The text behind what the name has.
    fn appended(&self, alloc: Global, name: &[u8], text: &[u8]) -> Result<Vec<u8>, AllocError> {
        let before = self.value(name).unwrap_or(b"");
        let mut whole = Vec::from_slice(alloc, before)?;
        if !before.is_empty() && !text.is_empty() {
            whole.push(b' ')?;
        }
        whole.extend_from_slice(text)?;
        Ok(whole)
    }
}

/// What a text comes to with these definitions, in the definition of this name.
fn expanded(
    alloc: Global,
    macros: &Macros,
    name: &[u8],
    text: &[u8],
) -> Result<Vec<u8>, SignFault> {
    match macros.expand(alloc, text, &Dynamic::RuleLine) {
        Ok(text) => Ok(text),
        Err(MacroFault::OutOfMemory) => Err(SignFault::OutOfMemory),
        Err(fault) => Err(SignFault::Macro(ByteString::from_slice(alloc, name)?, fault)),
    }
}

/// The same, as a text of its own, which isn't expanded again.
fn at_once(alloc: Global, macros: &Macros, name: &[u8], text: &[u8]) -> Result<Vec<u8>, SignFault> {
    let text = expanded(alloc, macros, name, text)?;
    Ok(doubled_text(alloc, &text)?)
}

/// What a command writes, as a text, and its status. One that can't be run writes nothing.
fn written(host: HostRuntime, shell: &[u8], command: &[u8]) -> Result<(Vec<u8>, u32), AllocError> {
    let alloc = host.alloc();
    match DryShell::new(host, alloc, &[]).output(shell, command) {
        Ok(written) => Ok((output_text(alloc, written.out.as_slice())?, written.status)),
        Err(_) => Ok((Vec::new(alloc), NONE)),
    }
}

/// The text that the name has by its sign; None where it keeps the one that it has.
fn text_by(
    host: HostRuntime,
    profile: Profile,
    before: &Before<'_>,
    signed: &Signed<'_>,
) -> Result<Option<Vec<u8>>, SignFault> {
    let alloc = host.alloc();
    let Signed { name, sign, text } = *signed;
    let macros = before.macros(alloc, profile)?;
    match sign {
        Sign::Appended if before.is_fixed(name) => {
            let text = at_once(alloc, &macros, name, text)?;
            Ok(Some(before.appended(alloc, name, &text)?))
        }
        Sign::Appended => Ok(Some(before.appended(alloc, name, text)?)),
        Sign::IfUndefined if before.value(name).is_some() => Ok(None),
        Sign::IfUndefined => Ok(Some(Vec::from_slice(alloc, text)?)),
        Sign::Fixed | Sign::Once => Ok(Some(at_once(alloc, &macros, name, text)?)),
        Sign::Output => {
            let shell = expanded(alloc, &macros, name, b"$(SHELL)")?;
            let command = expanded(alloc, &macros, name, text)?;
            let (text, status) = written(host, &shell, &command)?;
            if before.outside.tells {
                print_failed(host, name, status);
            }
            Ok(Some(text))
        }
    }
}

/// Whether what is appended to the name of this definition is expanded at once.
fn fixes(before: &Before<'_>, variable: &Variable) -> bool {
    match by_sign(variable) {
        Some(Signed { name, sign, .. }) => match sign {
            Sign::Fixed => true,
            Sign::Appended => before.is_fixed(name),
            _ => false,
        },
        None => false,
    }
}

/// The variable of a definition: its own, or the one that it comes to by its sign; None where the name keeps the text that it has.
fn variable_by(
    host: HostRuntime,
    profile: Profile,
    before: &Before<'_>,
    variable: Variable,
) -> Result<Option<Variable>, SignFault> {
    let Some(signed) = by_sign(&variable) else {
        return Ok(Some(variable));
    };
    let Some(text) = text_by(host, profile, before, &signed)? else {
        return Ok(None);
    };
    Ok(Some(Variable {
        name: ByteString::from_slice(host.alloc(), signed.name)?,
        value: ByteString::new(text),
    }))
}

/// Refuses what a makefile may not define either.
fn check(variable: &Variable) -> Result<(), SignFault> {
    match macro_refused(variable.name.as_slice(), variable.value.as_slice()) {
        None => Ok(()),
        Some(feature) => Err(SignFault::Unsupported(feature)),
    }
}

/// What definitions come to, one behind the other.
#[derive(Drop)]
struct Defined {
    words: Vec<Variable>,
    /// Of each word, whether what is appended to it is expanded at once.
    fixed: Vec<bool>,
}

impl Defined {
    fn push(&mut self, variable: Variable, is_fixed: bool) -> Result<(), AllocError> {
        self.words.push(variable)?;
        self.fixed.push(is_fixed)?;
        Ok(())
    }

    /// Adds what a definition comes to by its sign, unless its name keeps the text that it has.
    fn add(
        &mut self,
        host: HostRuntime,
        profile: Profile,
        outside: Outside<'_>,
        variable: Variable,
    ) -> Result<(), SignFault> {
        let before = Before {
            words: &self.words,
            fixed: &self.fixed,
            outside,
        };
        let is_fixed = fixes(&before, &variable);
        if let Some(variable) = variable_by(host, profile, &before, variable)? {
            check(&variable)?;
            self.push(variable, is_fixed)?;
        }
        Ok(())
    }
}

/// What these definitions come to by their signs, but for the first ones, so many.
fn definitions_by_signs(
    host: HostRuntime,
    profile: Profile,
    given: Vec<Variable>,
    first: usize,
    outside: Outside<'_>,
) -> Result<Vec<Variable>, SignFault> {
    let mut defined = Defined {
        words: Vec::new(host.alloc()),
        fixed: Vec::new(host.alloc()),
    };
    for variable in given {
        if defined.words.len() < first {
            check(&variable)?;
            defined.push(variable, false)?;
        } else {
            defined.add(host, profile, outside, variable)?;
        }
    }
    let Defined { words, fixed: _ } = defined;
    Ok(words)
}

/// The options with what their definitions come to by their signs, but for the first ones, so many, which are the environment's. `tells` is
/// whether a command that fails is told of.
pub fn with_signs(
    host: HostRuntime,
    options: Options,
    first: usize,
    environment: &[Variable],
    tells: bool,
) -> Result<Options, SignFault> {
    let profile = options.profile;
    if !profile.is_wide() {
        return Ok(options);
    }
    let mut options = options;
    let given = mem::replace(&mut options.definitions, Vec::new(host.alloc()));
    let outside = Outside { environment, tells };
    match definitions_by_signs(host, profile, given, first, outside) {
        Ok(words) => {
            options.definitions = words;
            Ok(options)
        }
        Err(fault) => {
            drop(options);
            Err(fault)
        }
    }
}
