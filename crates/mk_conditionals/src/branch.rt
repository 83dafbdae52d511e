//! A conditional that is open.
ghost use Rattle.std.specs.Prelude.{◌≡◌};
ghost use Rattle.mk_conditionals.specs.Nest.{first_branch, last_branch};

/// What has become of the branches so far.
#[derive(Clone, Copy, Debug, PartialEq, Eq)]
pub enum Stage {
    /// None was taken yet.
    Waiting,
    /// The lines of this one are taken.
    Taken,
    /// No further one is taken.
    Passed,
}

#[derive(Clone, Copy)]
pub struct Branch {
    /// The line in which the conditional begins.
    pub line: usize,
    pub stage: Stage,
    /// Whether this is the branch behind an `else` without a test.
    pub has_else: bool,
}

/// Why a directive can't stand where it does.
#[derive(Clone, Copy, Debug, PartialEq, Eq)]
pub enum NestFault {
    /// `else` where nothing is open.
    ExtraneousElse,
    /// `endif` where nothing is open.
    ExtraneousEndif,
    /// `else` behind the `else` of the same conditional.
    SecondElse,
    /// The conditional that begins in this line has no `endif`.
    MissingEndif(usize),
}

impl Branch {
    /// A branch behind a test. Where it wasn't asked, no branch is taken.
    pub(crate) fn first(line: usize, holds: Option<bool>) -> Branch
        ensures { result ≡ first_branch line holds }
    {
        let stage = match holds {
            Some(true) => Stage::Taken,
            Some(false) => Stage::Waiting,
            None => Stage::Passed,
        };
        Branch {
            line,
            stage,
            has_else: false,
        }
    }

    /// The branch behind an `else` without a test.
    pub(crate) fn last(self) -> Branch
        ensures { result ≡ last_branch self }
    {
        let stage = match self.stage {
            Stage::Waiting => Stage::Taken,
            Stage::Taken | Stage::Passed => Stage::Passed,
        };
        Branch {
            line: self.line,
            stage,
            has_else: true,
        }
    }
}
