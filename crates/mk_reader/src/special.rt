//! The special names: which a makefile may use, and which are refused.
ghost use Rattle.std.specs.Prelude.{◌≡◌};
ghost use Rattle.mk_reader.specs.Special.{name_text, is_known, special_name, is_refused, takes_no_prerequisites};

use mk_lines::begins_with;
use mk_profile::Profile;
use std::fmt;

/// A target that changes how make works. The names are make's, and dmake's.
#[derive(Clone, Copy, Debug, PartialEq, Eq)]
pub enum SpecialName {
    // These are used.
    KeepState,
    Suffixes,
    NoParallel,
    Ignore,
    Silent,
    // This is used in the wide profile, under `.DELETE_ON_ERROR`, and has no effect in the strict one.
    Precious,
    // These are accepted and have no effect.
    Posix,
    Parallel,
    SccsGet,
    Local,
    // These are refused, `.DEFAULT` and `.PHONY` in the strict profile alone.
    Init,
    Done,
    Failed,
    Default,
    KeepStateFile,
    MakeVersion,
    GetPosix,
    SccsGetPosix,
    Phony,
    // These are the wide profile's alone, and ordinary names in the strict one.
    NotParallel,
    DeleteOnError,
    Depfile,
    Console,
    Pool,
    // So are these, and they are refused.
    OneShell,
    SecondExpansion,
    ExportAllVariables,
}

const ALL: [SpecialName; 27] = [
    SpecialName::KeepState,
    SpecialName::Suffixes,
    SpecialName::NoParallel,
    SpecialName::Ignore,
    SpecialName::Silent,
    SpecialName::Precious,
    SpecialName::Posix,
    SpecialName::Parallel,
    SpecialName::SccsGet,
    SpecialName::Local,
    SpecialName::Init,
    SpecialName::Done,
    SpecialName::Failed,
    SpecialName::Default,
    SpecialName::KeepStateFile,
    SpecialName::MakeVersion,
    SpecialName::GetPosix,
    SpecialName::SccsGetPosix,
    SpecialName::Phony,
    SpecialName::NotParallel,
    SpecialName::DeleteOnError,
    SpecialName::Depfile,
    SpecialName::Console,
    SpecialName::Pool,
    SpecialName::OneShell,
    SpecialName::SecondExpansion,
    SpecialName::ExportAllVariables,
];

impl SpecialName {
    /// The name as it stands in a makefile.
    pub fn as_str(self) -> &'static str
        ensures { result.now ≡ name_text self }
    {
        match self {
            SpecialName::KeepState => ".KEEP_STATE",
            SpecialName::Suffixes => ".SUFFIXES",
            SpecialName::NoParallel => ".NO_PARALLEL",
            SpecialName::Ignore => ".IGNORE",
            SpecialName::Silent => ".SILENT",
            SpecialName::Precious => ".PRECIOUS",
            SpecialName::Posix => ".POSIX",
            SpecialName::Parallel => ".PARALLEL",
            SpecialName::SccsGet => ".SCCS_GET",
            SpecialName::Local => ".LOCAL",
            SpecialName::Init => ".INIT",
            SpecialName::Done => ".DONE",
            SpecialName::Failed => ".FAILED",
            SpecialName::Default => ".DEFAULT",
            SpecialName::KeepStateFile => ".KEEP_STATE_FILE",
            SpecialName::MakeVersion => ".MAKE_VERSION",
            SpecialName::GetPosix => ".GET_POSIX",
            SpecialName::SccsGetPosix => ".SCCS_GET_POSIX",
            SpecialName::Phony => ".PHONY",
            SpecialName::NotParallel => ".NOTPARALLEL",
            SpecialName::DeleteOnError => ".DELETE_ON_ERROR",
            SpecialName::Depfile => ".DEPFILE",
            SpecialName::Console => ".CONSOLE",
            SpecialName::Pool => ".POOL",
            SpecialName::OneShell => ".ONESHELL",
            SpecialName::SecondExpansion => ".SECONDEXPANSION",
            SpecialName::ExportAllVariables => ".EXPORT_ALL_VARIABLES",
        }
    }
}

impl fmt::Display for SpecialName {
    ghost use Rattle.std.specs.Prelude.{Some};

    ghost output = { λ name. Some (name_text name) };

    fn fmt<W: fmt::Write>(&self, f: &mut fmt::Formatter<W>) -> fmt::Result {
        f.write_str(self.as_str())
    }
}

/// Whether this profile has the name.
fn is_known(profile: Profile, name: SpecialName) -> bool
    ensures { result ≡ is_known profile name }
{
    match name {
        SpecialName::NotParallel
        | SpecialName::DeleteOnError
        | SpecialName::Depfile
        | SpecialName::Console
        | SpecialName::Pool
        | SpecialName::OneShell
        | SpecialName::SecondExpansion
        | SpecialName::ExportAllVariables => profile.is_wide(),
        _ => true,
    }
}

/// The special name that the word is, if it is one. Each begins with a dot.
#[tactic(auto, unfolding(crate::specs::Special::special_name), using(crate::proofs::SpecialLemmas::without_dot))]
pub fn special_name(profile: Profile, word: &[u8]) -> Option<SpecialName>
    ensures { result ≡ special_name profile word.now }
{
    if !begins_with(word, b'.') {
        return None;
    }
    ALL.iter().copied().find(|name| name.as_str().as_bytes() == word && is_known(profile, *name))
}

/// Whether passing over a rule of this name could change what is built. The wide profile takes `.DEFAULT` and `.PHONY`.
#[tactic(auto, unfolding(crate::specs::Special::is_refused))]
pub fn is_refused(profile: Profile, name: SpecialName) -> bool
    ensures { result ≡ is_refused profile name }
{
    match name {
        SpecialName::Init
        | SpecialName::Done
        | SpecialName::Failed
        | SpecialName::KeepStateFile
        | SpecialName::MakeVersion
        | SpecialName::GetPosix
        | SpecialName::SccsGetPosix
        | SpecialName::OneShell
        | SpecialName::SecondExpansion
        | SpecialName::ExportAllVariables => true,
        SpecialName::Default | SpecialName::Phony => !profile.is_wide(),
        _ => false,
    }
}

/// Whether the rule speaks of all targets, so that prerequisites would ask for something else. In the wide profile they name
/// the targets.
#[tactic(auto, unfolding(crate::specs::Special::takes_no_prerequisites))]
pub fn takes_no_prerequisites(profile: Profile, name: SpecialName) -> bool
    ensures { result ≡ takes_no_prerequisites profile name }
{
    match name {
        SpecialName::Ignore | SpecialName::Silent => !profile.is_wide(),
        _ => false,
    }
}
