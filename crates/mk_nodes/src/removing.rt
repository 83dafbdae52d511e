//! Which files are removed where recipes fail or are stopped.
ghost use Rattle.std.specs.Prelude.{◌≡◌, ◌&&◌, not, ℕ, List, is_some};
ghost use Rattle.mk_rule_lines.specs.Explicit.{numbers_of, is_phony};
ghost use Rattle.mk_settings.specs.Marks.{has_mark};
ghost use Rattle.mk_makefile.specs.Table.{named_at};
ghost use Rattle.mk_nodes.specs.Removing.{goes_if_stopped};

use crate::graph::Graph;
use mk_makefile::TargetTable;
use mk_rule_lines::{RuleLine, is_phony};

/// The numbers of the lines that make a name.
fn numbers_of<'t>(lines: &[RuleLine], targets: &'t TargetTable, name: &[u8]) -> &'t [usize]
    requires { (n : List ℕ) → (named_at targets.now n).lines ≡ numbers_of lines.now n }
    ensures { result.now ≡ numbers_of lines.now name.now }
{
    targets.named(name).0
}

fn is_phony_name(lines: &[RuleLine], targets: &TargetTable, name: &[u8]) -> bool
    requires { (n : List ℕ) → (named_at targets.now n).lines ≡ numbers_of lines.now n }
    ensures { result ≡ is_phony lines.now name.now }
{
    is_phony(lines, numbers_of(lines, targets, name))
}

impl Graph {
    // Whether a target may lose its file: in the wide profile, which keeps the table of targets, unless it is one of `.PRECIOUS` or phony.
    fn may_lose_file(&self, target: &[u8]) -> bool
        ensures { result ≡ (is_some self.now.targets
            && (not (has_mark self.now.settings.precious target.now) && not (is_phony self.now.lines.items target.now))) }
    {
        match &self.targets {
            Some(targets) => {
                !self.settings.precious.has(target) && !is_phony_name(&self.lines, targets, target)
            }
            None => false,
        }
    }

    /// Whether the file of a target is removed where its recipe fails and has changed it: in the wide profile under
    /// `.DELETE_ON_ERROR`, unless the target is one of `.PRECIOUS` or phony.
    pub fn removes(&self, target: &[u8]) -> bool
        ensures { result ≡ (is_some self.now.targets && (self.now.settings.deletes_on_error
            && (not (has_mark self.now.settings.precious target.now) && not (is_phony self.now.lines.items target.now)))) }
    {
        self.settings.deletes_on_error && self.may_lose_file(target)
    }

    /// Whether the file of a target goes, as far as its recipe has changed it, where the run is stopped from outside meanwhile. Where
    /// state is kept, the recipe has a report, the state says which one didn't end, and nothing goes.
    pub fn removes_if_stopped(&self, target: &[u8], has_report: bool) -> bool
        ensures { result ≡ goes_if_stopped self.now target.now has_report }
    {
        !has_report && self.may_lose_file(target)
    }
}
