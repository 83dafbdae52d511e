//! What the words of the command line ask for, or why they aren't followed.
ghost use Rattle.std.specs.Prelude.{◌≡◌, false};

use crate::environment::given_in;
use crate::output::Output;
use bd_lists::Variable;
use dmk_reading::Options;
use jb_flags::Load;
use mk_profile::Profile;
use std::alloc::AllocError;
use std::io;
use thiserror::Error;

/// The name under which standard input is read as a makefile.
pub const INPUT: &[u8] = b"-";

/// What the words ask of a run, and in which folder.
#[derive(Drop)]
pub struct Asked {
    /// The folders that are gone to first, each from the one before.
    pub folders: Vec<String>,
    /// The folder is told where the run begins and where it ends.
    pub tells_folder: bool,
    /// The text of MAKE in the wide profile, where the path of the program is known.
    pub program: Option<Vec<u8>>,
    pub later: Later,
    /// Where the log of the run goes, if one is asked for.
    pub log: Option<String>,
    pub options: Options,
}

/// What the words ask for beside the options, most of it before the environment is known.
#[derive(Clone, Copy)]
pub struct Later {
    /// The environment's variables count as definitions of the command line, before its own.
    pub environment_counts: bool,
    /// The tool's own macros are left out.
    pub without_macros: bool,
    /// -K names the state. Else it goes by the language.
    pub names_state: bool,
    /// Targets are taken as they are before the run, where nothing is recorded of any.
    pub trusts_files: bool,
    /// The words or MAKEFLAGS say how many recipes may run at once.
    pub has_jobs: bool,
    /// How the words or MAKEFLAGS have what recipes write held together.
    pub output: Option<Output>,
    /// From which load on they have no further recipe begin beside others.
    pub most_load: Option<Load>,
    /// A line is printed where a recipe ends, unless that goes to a terminal.
    pub prints_ends: bool,
    /// The words or MAKEFLAGS say that no folder is told.
    pub hides_folder: bool,
    /// Macros are told that makefiles refer to and that nothing defines.
    pub tells_undefined: bool,
    /// They say that it is.
    pub tells_folder: bool,
    /// How many makes are above this one.
    pub level: u32,
}

/// What the words ask for.
#[derive(Drop)]
pub enum Request {
    Make(Asked),
    /// Nothing more: what there was to say was said. The program ends with this status.
    Leave(u8),
}

/// Why the words aren't followed, where nothing was said of it yet.
#[derive(Clone, Copy, Debug, Error)]
pub enum WordsFault {
    #[error("out of memory")]
    OutOfMemory,
    #[error("a word of the command line isn't UTF-8")]
    NotText,
    #[error("a definition in MAKEFLAGS isn't UTF-8")]
    FlagsNotText,
    /// The help or the version was asked for and couldn't be printed.
    #[error("cannot write")]
    Write,
    /// `-K -`.
    #[error("standard input can't hold the state")]
    StateInput,
    #[error("-f - stands twice: standard input can be read once")]
    InputTwice,
    /// An option of GNU make, and why it isn't followed.
    #[error("{0} isn't supported: {1}")]
    Unsupported(&'static str, &'static str),
    #[error("--output takes block, front or through, or GNU make's words none, line, target or recurse")]
    OtherOutput,
    #[error("-l takes a load, as 2 or 2.5")]
    OtherLoad,
    #[error("--trust-files needs --posix")]
    TrustInStrict,
    #[error("--trust-files doesn't go with -n or -q, which record nothing")]
    TrustToLook,
    #[error("--trust-files doesn't go with -B, which makes each target")]
    TrustToMakeAll,
}

impl Later {
    /// How many definitions stand before those of the command line.
    pub fn definitions_before(self, profile: Profile, environment: &[Variable]) -> usize
        ensures none { self.environment_counts ≡ false → result ≡ 0 }
    {
        if self.environment_counts {
            given_in(profile, environment)
        } else {
            0
        }
    }
}

impl From<io::Error> for WordsFault {
    fn from(fault: io::Error) -> WordsFault {
        match fault.kind() {
            io::ErrorKind::OutOfMemory => WordsFault::OutOfMemory,
            _ => WordsFault::NotText,
        }
    }
}

impl From<AllocError> for WordsFault {
    fn from(_fault: AllocError) -> WordsFault {
        WordsFault::OutOfMemory
    }
}
