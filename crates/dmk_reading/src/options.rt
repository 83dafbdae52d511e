//! What the words of the command line ask for.
ghost use Rattle.std.specs.Prelude.{◌≡◌};
ghost use Rattle.dmk_reading.specs.Asked.{AsksFor, AsksForLanguage, language_of, mode_of};

use crate::makefiles::Makefiles;
use bd_lists::Variable;
use byte_strings::ByteStrings;
use jb_auth::{dry, posix};
use mk_plan::Telling;
use mk_profile::Profile;

/// The most workers that `-j` may ask for.
pub const MAX_WORKERS: u16 = 256;

/// What the words ask for. Definitions and targets stand in the order of the words.
#[derive(Drop)]
pub struct Options {
    /// What is read as the makefile.
    pub makefiles: Makefiles,
    /// The language that they are written in.
    pub profile: Profile,
    /// The name of the state's side A.
    pub state: String,
    /// How many recipes may run at once.
    pub workers: u16,
    /// A failed target ends only what depends on it.
    pub goes_on: bool,
    /// Recipes are listed and not run.
    pub is_dry: bool,
    /// No line is printed before it is run.
    pub is_silent: bool,
    /// The statuses of all lines are ignored.
    pub ignores_statuses: bool,
    /// No recipe is printed; the status says whether a target is out of date.
    pub asks: bool,
    /// Each target is made, whatever the files and the state say of it.
    pub makes_all: bool,
    /// How much is told of why targets are made.
    pub telling: Telling,
    /// Macros and rules are printed first, as they were read.
    pub prints_base: bool,
    pub definitions: Vec<Variable>,
    pub targets: ByteStrings,
    /// The files that count as changed just now.
    pub touched: ByteStrings,
}

/// What a run does with the recipes that it comes to.
#[derive(Clone, Copy, Debug, PartialEq, Eq)]
pub enum Mode {
    Run,
    /// It lists them.
    DryRun,
    /// It tells whether there are any.
    Question,
}

/// What is done where the words ask so, and where a dry run is wanted.
fn mode_of(asks: bool, dry: bool) -> Mode
    ensures { result ≡ mode_of asks dry }
{
    match (asks, dry) {
        (true, _) => Mode::Question,
        (false, true) => Mode::DryRun,
        (false, false) => Mode::Run,
    }
}

/// The language where the words name this one, and where the wide one is wanted.
fn language_of(named: Profile, wide: bool) -> Profile
    ensures { result ≡ language_of named wide }
{
    if wide { Profile::Posix } else { named }
}

impl Options {
    /// The language of the makefile under this MAKEFLAGS, which may ask for the wide one too.
    pub fn language(&self, makeflags: &[u8]) -> Profile
        ensures { AsksForLanguage self.now makeflags.now result }
    {
        let asked = posix(makeflags);
        language_of(self.profile, asked)
    }

    /// What is done under this MAKEFLAGS, which may ask for a dry run too. Where both are asked for, the question counts.
    pub fn mode(&self, makeflags: &[u8]) -> Mode
        ensures { AsksFor self.now makeflags.now result }
    {
        let asked = dry(makeflags);
        mode_of(self.asks, self.is_dry || asked)
    }
}
