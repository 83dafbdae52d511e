//! Why a makefile is refused, and the texts of the faults.
use crate::directive::Directive;
use crate::special::SpecialName;
use byte_strings::ByteString;
use std::alloc::{AllocError, AllocFailed};
use std::fmt;
use thiserror::Error;

/// What some makes have and this one leaves out.
#[derive(Clone, Copy, Debug, PartialEq, Eq)]
pub enum Feature {
    /// An include line with a reference, or without a name, in the strict profile.
    Include,
    /// `?=` in the strict profile.
    OptionalDefinition,
    /// `::` in the strict profile, and so `::=`.
    DoubleColon,
    /// `:=` in the strict profile, and where it would be a conditional macro.
    ColonDefinition,
    /// `:sh =`
    ShellDefinition,
    /// A rule of this special name, or one with prerequisites where they would ask for something else.
    SpecialName(SpecialName),
    /// A line of GNU make's, in the wide profile.
    Directive(Directive),
    /// A macro defined behind the `:` of a rule line, in the wide profile.
    TargetMacro,
    /// `\%` in a static pattern rule.
    QuotedPercent,
    /// Targets that end in `&`, which are grouped, in the wide profile.
    GroupedTargets,
    /// A definition of `.SHELLFLAGS`, in the wide profile.
    ShellFlags,
    /// A definition of `VPATH` with a text, in the wide profile.
    SearchPath,
    /// A definition of `.RECIPEPREFIX` with a text, in the wide profile.
    RecipePrefix,
    /// A name with a wildcard on an include line, where no file has it, in the wide profile.
    IncludeWildcard,
}

impl fmt::Display for Feature {
    ghost use Rattle.std.specs.Prelude.{Some};
    ghost use Rattle.mk_reader.specs.Fault.{feature_text};

    ghost output = { λ feature. Some (feature_text feature) };

    fn fmt<W: fmt::Write>(&self, f: &mut fmt::Formatter<W>) -> fmt::Result {
        match self {
            Feature::Include => f.write_str("include"),
            Feature::OptionalDefinition => f.write_str("?="),
            Feature::DoubleColon => f.write_str("::"),
            Feature::ColonDefinition => f.write_str(":="),
            Feature::ShellDefinition => f.write_str(":sh"),
            Feature::SpecialName(name) => f.write_str(name.as_str()),
            Feature::Directive(directive) => f.write_str(directive.as_str()),
            Feature::TargetMacro => f.write_str("target-specific macro"),
            Feature::QuotedPercent => f.write_str("\\%"),
            Feature::GroupedTargets => f.write_str("&:"),
            Feature::ShellFlags => f.write_str(".SHELLFLAGS"),
            Feature::IncludeWildcard => f.write_str("wildcard in include"),
            Feature::RecipePrefix => f.write_str(".RECIPEPREFIX"),
            Feature::SearchPath => f.write_str("VPATH"),
        }
    }
}

/// Why a text has no expansion that is expanded where it stands.
#[derive(Debug, Drop, Error)]
pub enum MacroCause {
    #[error("macro {0} refers to itself")]
    Loop(ByteString),
    #[error("macro reference not closed")]
    Unclosed,
    #[error("nested macro reference")]
    NestedReference,
    #[error("expansion too long")]
    TooLong,
    /// A reference that spells this function of GNU make and is no macro, in the wide profile.
    #[error("not supported: $({0} ..)")]
    Function(ByteString),
}

/// Why a static pattern rule is refused.
#[derive(Debug, Drop, Error)]
pub enum StaticCause {
    #[error("missing target pattern")]
    NoPattern,
    #[error("multiple target patterns")]
    ManyPatterns,
    #[error("target pattern contains no %")]
    NoPercent,
    /// A target that holds a `%`.
    #[error("mixed implicit and static pattern rules")]
    Mixed,
    #[error("target {0} doesn't match the target pattern")]
    Mismatch(ByteString),
}

/// Why a line is refused.
#[derive(Debug, Drop, Error)]
pub enum Cause {
    /// A byte outside comments that isn't UTF-8, or a NUL there.
    #[error("not text")]
    NotText,
    /// A line that is neither an include line, a definition nor a rule.
    #[error("missing separator")]
    MissingSeparator,
    /// Such a line with blanks in front, in the wide profile.
    #[error("missing separator (blanks in front: did you mean a TAB?)")]
    BlanksInFront,
    /// A recipe line that no rule line stands above.
    #[error("recipe line before any rule")]
    TabFirst,
    /// An include line in a file that is included sixteen deep.
    #[error("include too deep")]
    IncludeDepth,
    /// The file of this name can't be read.
    #[error("cannot read include file {0}")]
    IncludeMissing(ByteString),
    /// The file of this name can't be read, and a rule would make it, in the wide profile.
    #[error("cannot read include file {0}, which has a rule: included files aren't made")]
    IncludeUnmade(ByteString),
    /// A text of the line that is expanded where it stands, and can't be.
    #[error("{0}")]
    Macro(MacroCause),
    /// A static pattern rule whose words don't fit.
    #[error("{0}")]
    Static(StaticCause),
    #[error("not supported: {0}")]
    Unsupported(Feature),
}

/// The first line of the text that is refused.
#[derive(Debug, Drop, Error)]
#[error("{file}:{line}: {cause}")]
pub struct Refusal {
    /// The file that holds the line.
    pub file: ByteString,
    /// The number of its first physical line, from 1.
    pub line: usize,
    pub cause: Cause,
}

/// Why no items are given.
#[derive(Debug, Drop, Error)]
pub enum ReadFault {
    #[error("out of memory")]
    OutOfMemory,
    #[error("{0}")]
    Refused(Refusal),
}

impl From<AllocError> for ReadFault {
    ghost use Rattle.std.specs.Prelude.{◌≡◌};
    ghost use Rattle.mk_reader.specs.declared.fault.ReadFault.TheVariants.{OutOfMemory};

    ghost from_gives = { λ _ e. e ≡ OutOfMemory };

    fn from(_error: AllocError) -> ReadFault {
        ReadFault::OutOfMemory
    }
}

impl<T: Drop> From<AllocFailed<T>> for ReadFault {
    ghost use Rattle.std.specs.Prelude.{◌≡◌};
    ghost use Rattle.mk_reader.specs.declared.fault.ReadFault.TheVariants.{OutOfMemory};

    ghost from_gives = { λ _ e. e ≡ OutOfMemory };

    fn from(_error: AllocFailed<T>) -> ReadFault {
        ReadFault::OutOfMemory
    }
}
