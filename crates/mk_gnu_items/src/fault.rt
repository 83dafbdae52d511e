//! Why what a GNU makefile says of targets isn't taken.
use byte_strings::ByteString;
use mk_reader::{Feature, StaticCause};
use std::alloc::{AllocError, AllocFailed};
use std::fmt;
use thiserror::Error;

/// What a name has that it can't be told with.
#[derive(Clone, Copy, Debug, PartialEq, Eq)]
pub enum Oddity {
    /// A blank, or the end of a line.
    Blank,
    Wildcard,
    /// A `~` in front.
    Home,
    /// It is `|`.
    Bar,
    /// A target with a `%` stands beside one without.
    Percent,
}

impl fmt::Display for Oddity {
    ghost use Rattle.std.specs.Prelude.{Some};
    ghost use Rattle.mk_gnu_items.specs.Names.{oddity_text};

    ghost output = { λ oddity. Some (oddity_text oddity) };

    fn fmt<W: fmt::Write>(&self, f: &mut fmt::Formatter<W>) -> fmt::Result {
        match self {
            Oddity::Blank => f.write_str("a name with a blank"),
            Oddity::Wildcard => f.write_str("a name with a wildcard"),
            Oddity::Home => f.write_str("a name that begins with ~"),
            Oddity::Bar => f.write_str("a name that is |"),
            Oddity::Percent => f.write_str("a target with a % beside one without"),
        }
    }
}

/// Why a line is refused.
#[derive(Debug, Drop, Error)]
pub enum Cause {
    #[error("not supported: {0}")]
    Name(Oddity),
    #[error("not supported: {0}")]
    Unsupported(Feature),
    #[error("{0}")]
    Static(StaticCause),
}

/// The first line that is refused.
#[derive(Debug, Drop, Error)]
#[error("{file}:{line}: {cause}")]
pub struct Refusal {
    /// The file that holds the line.
    pub file: ByteString,
    /// Its number, from 1.
    pub line: usize,
    pub cause: Cause,
}

/// Why no items are given.
#[derive(Debug, Drop, Error)]
pub enum Refused {
    #[error("out of memory")]
    OutOfMemory,
    #[error("{0}")]
    At(Refusal),
}

impl From<AllocError> for Refused {
    ghost use Rattle.std.specs.Prelude.{◌≡◌};
    ghost use Rattle.mk_gnu_items.specs.declared.fault.Refused.TheVariants.{OutOfMemory};

    ghost from_gives = { λ _ refused. refused ≡ OutOfMemory };

    fn from(_error: AllocError) -> Refused {
        Refused::OutOfMemory
    }
}

impl<T: Drop> From<AllocFailed<T>> for Refused {
    ghost use Rattle.std.specs.Prelude.{◌≡◌};
    ghost use Rattle.mk_gnu_items.specs.declared.fault.Refused.TheVariants.{OutOfMemory};

    ghost from_gives = { λ _ refused. refused ≡ OutOfMemory };

    fn from(_error: AllocFailed<T>) -> Refused {
        Refused::OutOfMemory
    }
}
