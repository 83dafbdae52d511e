//! Words that begin lines of GNU make which POSIX make doesn't have.
ghost use Rattle.std.specs.Prelude.{◌≡◌};
ghost use Rattle.mk_reader.specs.Directive.{directive_text, directive_of, told_cause};

use crate::fault::{Cause, Feature, Refusal};
use byte_strings::first_word;
use mk_profile::Profile;
use std::fmt;

/// What GNU make takes a line for by its first word.
#[derive(Clone, Copy, Debug, PartialEq, Eq)]
pub enum Directive {
    Ifeq,
    Ifneq,
    Ifdef,
    Ifndef,
    Else,
    Endif,
    Define,
    Endef,
    Undefine,
    Export,
    Unexport,
    Override,
    Private,
    Vpath,
    Load,
}

const ALL: [Directive; 15] = [
    Directive::Ifeq,
    Directive::Ifneq,
    Directive::Ifdef,
    Directive::Ifndef,
    Directive::Else,
    Directive::Endif,
    Directive::Define,
    Directive::Endef,
    Directive::Undefine,
    Directive::Export,
    Directive::Unexport,
    Directive::Override,
    Directive::Private,
    Directive::Vpath,
    Directive::Load,
];

impl Directive {
    /// The word as it stands in a makefile.
    pub fn as_str(self) -> &'static str
        ensures { result.now ≡ directive_text self }
    {
        match self {
            Directive::Ifeq => "ifeq",
            Directive::Ifneq => "ifneq",
            Directive::Ifdef => "ifdef",
            Directive::Ifndef => "ifndef",
            Directive::Else => "else",
            Directive::Endif => "endif",
            Directive::Define => "define",
            Directive::Endef => "endef",
            Directive::Undefine => "undefine",
            Directive::Export => "export",
            Directive::Unexport => "unexport",
            Directive::Override => "override",
            Directive::Private => "private",
            Directive::Vpath => "vpath",
            Directive::Load => "load",
        }
    }
}

impl fmt::Display for Directive {
    ghost use Rattle.std.specs.Prelude.{Some};

    ghost output = { λ directive. Some (directive_text directive) };

    fn fmt<W: fmt::Write>(&self, f: &mut fmt::Formatter<W>) -> fmt::Result {
        f.write_str(self.as_str())
    }
}

/// The directive that the word is, if it is one.
#[tactic(auto, unfolding(crate::specs::Directive::directive_of))]
fn directive_of(word: &[u8]) -> Option<Directive>
    ensures { result ≡ directive_of word.now }
{
    ALL.iter()
        .copied()
        .find(|directive| directive.as_str().as_bytes() == word)
}

/// Why a line is told to be refused that is refused for this cause.
#[tactic(auto, unfolding(crate::specs::Directive::told_cause))]
fn told_cause(profile: Profile, line: &[u8], cause: Cause) -> Cause
    ensures { result ≡ told_cause profile line.now cause }
{
    if !profile.is_wide() {
        return cause;
    }
    match directive_of(first_word(line)) {
        Some(directive) => Cause::Unsupported(Feature::Directive(directive)),
        None => cause,
    }
}

/// The refusal of a line as it is told.
pub fn told_refusal(profile: Profile, line: &[u8], refused: Refusal) -> Refusal
    ensures file { result.file ≡ refused.file }
    ensures line { result.line ≡ refused.line }
    ensures cause { result.cause ≡ told_cause profile line.now refused.cause }
{
    let Refusal {
        file,
        line: number,
        cause,
    } = refused;
    Refusal {
        file,
        line: number,
        cause: told_cause(profile, line, cause),
    }
}
