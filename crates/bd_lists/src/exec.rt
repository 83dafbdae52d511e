//! What runs recipe lines.

ghost use Rattle.std.specs.Prelude.{◌≤◌, List, Result, IfOk};
ghost use Rattle.mk_recipe.specs.declared.line.Line.{Line};
ghost use Rattle.bd_lists.specs.declared.recipe.Variable.{Variable};
ghost use Rattle.bd_lists.specs.declared.exec.Ended.{Ended};
ghost use Rattle.bd_lists.specs.declared.exec.ExecFault.{ExecFault};

use crate::board::Clearance;
use crate::recipe::Variable;
use byte_strings::ByteString;
use mk_recipe::Line;

/// How a line ended that was run.
#[derive(Debug)]
pub struct Ended {
    /// 0 to 255, or 256 where it was stopped or not started.
    pub status: u32,
    /// What it wrote on standard output.
    pub out: ByteString,
    /// What it wrote on standard error.
    pub err: ByteString,
}

impl Drop for Ended {
    fn drop(self) {
        let Ended {
            status: _,
            out: _,
            err: _,
        } = self;
    }
}

/// A line couldn't be run.
#[derive(Clone, Copy, Debug, PartialEq, Eq)]
pub struct ExecFault;

/// What runs recipe lines. It asks for a clearance: nothing else runs one.
pub trait Exec<T> {
    /// What a run of a line in an environment may answer: a fact that only a call of `run` gives.
    ghost answers: { Self → List Variable → Line → Result Ended ExecFault → Type 0 };

    /// Runs the line's text.
    fn run(
        &self,
        clearance: &Clearance<T>,
        line: &Line,
        env: &[Variable],
    ) -> Result<Ended, ExecFault>
        ensures answered { answers self.now env.now line.now result }
        ensures status { IfOk result (λ e. e.status ≤ 256) };
}
