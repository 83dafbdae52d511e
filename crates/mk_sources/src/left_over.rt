//! What nothing else makes is made by the recipe of `.DEFAULT`.
ghost use Rattle.std.specs.Prelude.{◌≡◌, ◌&&◌, ◌||◌, [], ◌∷◌, filter, slice_get, is_none, codes, option_to_list};
ghost use Rattle.std.specs.Option.{option_copied};
ghost use Rattle.mk_lines.specs.Text.{is_empty};
ghost use Rattle.mk_rule_lines.specs.Explicit.{explicit_targets, is_default_at};
ghost use Rattle.mk_rule_lines.specs.Rules.{recipe_places};
ghost use Rattle.mk_makefile.specs.Table.{named_at};
ghost use Rattle.mk_nodes.specs.Prerequisites.{default_of, is_unfinished, run_by, rule_or};

use mk_makefile::{Source, TargetTable};
use mk_nodes::{Stamp, is_unfinished};
use mk_rule_lines::{RuleLine, is_default_at};
use st_packed::PackedEntry;

/// The line of this number, where it is one of `.DEFAULT`.
fn default_at(lines: &[RuleLine], number: usize) -> Option<usize>
    ensures { result ≡ slice_get (filter (is_default_at lines.now) (number ∷ [])) 0 }
{
    if is_default_at(lines, number) {
        Some(number)
    } else {
        None
    }
}

/// The line of `.DEFAULT`, by the table of the lines.
pub fn default_of(lines: &[RuleLine], targets: &TargetTable) -> Option<usize>
    requires { option_to_list (named_at targets.now (codes ".DEFAULT")).recipe ≡ recipe_places (explicit_targets lines.now) 0 lines.now (codes ".DEFAULT") }
    ensures { result ≡ default_of lines.now }
{
    match targets.recipe(b".DEFAULT") {
        Some(number) => default_at(lines, number),
        None => None,
    }
}

/// Whether a name is left to `.DEFAULT`, which the lines of these numbers make.
pub(crate) fn is_left(numbers: &[usize], stamp: &Stamp, entry: Option<&PackedEntry>) -> bool
    ensures { result ≡ (is_empty numbers.now && (is_none stamp.now || is_unfinished (option_copied entry.entry))) }
{
    numbers.is_empty() && (!stamp.is_some() || is_unfinished(entry))
}

/// The line whose recipe is run for a name with this source, if one is.
fn run_by(source: &Source) -> Option<usize>
    ensures { result ≡ run_by source.now }
{
    match source.leader {
        Some(_) => None,
        None => Some(source.rule),
    }
}

/// The line of the source whose recipe is run for the name, or the other one where there is no source.
pub(crate) fn rule_or(source: &Option<Source>, other: Option<usize>) -> Option<usize>
    ensures { result ≡ rule_or source.now other }
{
    match source {
        Some(source) => run_by(source),
        None => other,
    }
}
