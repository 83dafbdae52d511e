//! How a run goes.
ghost use Rattle.std.specs.Prelude.{◌≡◌, IfOk};
ghost use Rattle.jb_recipe.specs.Environment.{report_path};

use crate::Makeflags;
use bd_lists::Variable;
use byte_strings::ByteString;
use mk_plan::Telling;
use st_records::Form;
use std::alloc::{AllocError, Global};

/// What the words of the command line and the environment say of a whole run.
pub struct Conduct {
    /// State is kept from run to run, and recipes write reports.
    pub keeps_state: bool,
    /// How the records of this run are written.
    pub form: Form,
    /// What is recorded of targets counts, also that nothing is.
    pub counts_records: bool,
    /// What doesn't depend on a failed target is still made.
    pub goes_on: bool,
    /// Statuses of recipe lines don't matter.
    pub ignores_statuses: bool,
    /// No lines are printed.
    pub prints_no_lines: bool,
    /// How much is told of why targets are made.
    pub telling: Telling,
    /// The definitions of the command line, as they were written.
    pub definitions: Vec<Variable>,
    pub makeflags: Makeflags,
    /// How many recipes may be run at once.
    pub at_once: usize,
    /// The state file's name: reports stand beside it.
    pub state_name: ByteString,
}

impl Drop for Conduct {
    fn drop(self) {
        let Conduct {
            keeps_state: _,
            form: _,
            counts_records: _,
            goes_on: _,
            ignores_statuses: _,
            prints_no_lines: _,
            telling: _,
            definitions: _,
            makeflags: _,
            at_once: _,
            state_name: _,
        } = self;
    }
}

impl Conduct {
    /// The path of a node's report: the state file's name, `.dep.` and the node's number. None where no state is kept.
    pub fn report_path(&self, alloc: Global, node: usize) -> Result<Option<ByteString>, AllocError>
        ensures { IfOk result (λ path. path ≡ report_path self.now.keeps_state self.now.state_name node) }
    {
        if !self.keeps_state {
            return Ok(None);
        }
        let mut path = Vec::from_slice(alloc, self.state_name.as_slice())?;
        let ending = format!(in alloc; ".dep.{node}")?;
        path.extend_from_slice(ending.as_bytes())?;
        Ok(Some(ByteString::new(path)))
    }
}
