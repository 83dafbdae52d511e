//! Why a makefile's rules make no graph.
use crate::pool_faults::PoolFault;
use bstr::ByteSlice;
use byte_strings::{ByteString, ByteStrings};
use mk_macros::MacroFault;
use std::alloc::{AllocError, AllocFailed};
use std::fmt;
use thiserror::Error;

/// What a rule line may not hold.
#[derive(Clone, Copy, Debug, PartialEq, Eq, Error)]
pub enum Unsupported {
    /// A word `+` among the targets.
    #[error("target group")]
    TargetGroup,
    /// A `(` in a target or a prerequisite.
    #[error("library member")]
    LibraryMember,
    /// A `%` in a target of a line with `::`, or a target that may be a suffix rule.
    #[error("::")]
    DoubleColon,
    /// A `%` in a target, in another form than one target, one prerequisite, one `%` in each, and a recipe.
    #[error("pattern rule")]
    PatternRule,
    /// A line of `.DEFAULT` with other targets or with prerequisites, or without a recipe.
    #[error(".DEFAULT")]
    DefaultRule,
}

/// Where a line of a makefile stands.
#[derive(Debug, Error)]
#[error("{file}:{line}")]
pub struct TextPlace {
    /// The file that holds the line.
    pub file: ByteString,
    /// Its number there, from 1.
    pub line: usize,
}

impl Drop for TextPlace {
    fn drop(self) {
        let TextPlace { file: _, line: _ } = self;
    }
}

/// Why a rule's texts have no expansion.
#[derive(Debug)]
pub struct TextFault {
    /// The place of the rule's line, in the wide profile: in the strict one the cause is all that is told.
    pub place: Option<TextPlace>,
    pub cause: MacroFault,
}

impl Drop for TextFault {
    fn drop(self) {
        let TextFault { place: _, cause: _ } = self;
    }
}

impl fmt::Display for TextFault {
    fn fmt<W: fmt::Write>(&self, f: &mut fmt::Formatter<W>) -> fmt::Result {
        if let Some(place) = &self.place {
            fmt::Display::fmt(place, f)?;
            f.write_str(": ")?;
        }
        fmt::Display::fmt(&self.cause, f)
    }
}

/// A name that has no file, and that nothing makes.
#[derive(Debug)]
pub struct Unmade {
    pub name: ByteString,
    /// A name that has it as a prerequisite, in the wide profile: in the strict one it isn't told.
    pub needed_by: Option<ByteString>,
}

impl Drop for Unmade {
    fn drop(self) {
        let Unmade {
            name: _,
            needed_by: _,
        } = self;
    }
}

impl fmt::Display for Unmade {
    fn fmt<W: fmt::Write>(&self, f: &mut fmt::Formatter<W>) -> fmt::Result {
        fmt::Display::fmt(&self.name, f)?;
        if let Some(by) = &self.needed_by {
            f.write_str(", needed by ")?;
            fmt::Display::fmt(by, f)?;
        }
        Ok(())
    }
}

/// Names of which each is a prerequisite of the one before. The last is the first again.
#[derive(Debug)]
pub struct CycleNames {
    pub names: ByteStrings,
}

impl Drop for CycleNames {
    fn drop(self) {
        let CycleNames { names: _ } = self;
    }
}

impl fmt::Display for CycleNames {
    fn fmt<W: fmt::Write>(&self, f: &mut fmt::Formatter<W>) -> fmt::Result {
        let mut is_first = true;
        for name in self.names.iter() {
            if !is_first {
                f.write_str(" ")?;
            }
            is_first = false;
            fmt::Display::fmt(&name.as_bstr(), f)?;
        }
        Ok(())
    }
}

#[derive(Debug, Drop, Error)]
pub enum RuleFault {
    #[error("out of memory")]
    OutOfMemory,
    /// No goal is named, and no rule gives one.
    #[error("no target")]
    NoTarget,
    #[error("no rule for {0}")]
    NoRule(Unmade),
    /// The name, and the number of the rule line whose recipe is its second.
    #[error("two recipes for {0} (line {1})")]
    TwoRecipes(ByteString, usize),
    /// The name, and the number of its rule line with `::`.
    #[error("both : and :: for {0} (line {1})")]
    BothKinds(ByteString, usize),
    #[error("cycle: {0}")]
    Cycle(CycleNames),
    /// There are more names than a graph holds.
    #[error("too many targets")]
    TooMany,
    /// In the targets or the prerequisites of a rule.
    #[error("{0}")]
    Macro(TextFault),
    /// The number is that of the rule line.
    #[error("not supported: {0} (line {1})")]
    Unsupported(Unsupported, usize),
    /// A line of `.POOL`.
    #[error("{0}")]
    Pool(PoolFault),
    /// The tree can't tell whether the name has a file.
    #[error("cannot look at {0}")]
    Tree(ByteString),
}

impl From<AllocError> for RuleFault {
    ghost use Rattle.std.specs.Prelude.{◌≡◌};
    ghost use Rattle.mk_rule_lines.specs.declared.fault.RuleFault.TheVariants.{OutOfMemory};

    ghost from_gives = { λ _ fault. fault ≡ OutOfMemory };

    fn from(_error: AllocError) -> RuleFault {
        RuleFault::OutOfMemory
    }
}

impl<T: Drop> From<AllocFailed<T>> for RuleFault {
    ghost use Rattle.std.specs.Prelude.{◌≡◌};
    ghost use Rattle.mk_rule_lines.specs.declared.fault.RuleFault.TheVariants.{OutOfMemory};

    ghost from_gives = { λ _ fault. fault ≡ OutOfMemory };

    fn from(_error: AllocFailed<T>) -> RuleFault {
        RuleFault::OutOfMemory
    }
}
