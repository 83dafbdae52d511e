//! Lines that say something of targets, and the statements that are read up to them.
ghost use Rattle.std.specs.Prelude.{◌≡◌, Ok, Err, IfOk, OnOk, IfErr, ◌-◌, drop, length, map, option_copied};
ghost use Rattle.mk_functions.specs.Outcome.{gives};
ghost use Rattle.mk_functions.specs.Values.{Answers};
ghost use Rattle.mk_functions.specs.Expansion.{ExpandsTo};
ghost use Rattle.mk_statements.specs.Reading.{stated};
ghost use Rattle.mk_taken.specs.Reading.{Reads};
ghost use Rattle.mk_taken.specs.Shown.{outcome_of, place_of, LeavesFewer};
ghost use Rattle.mk_variables.specs.Table.{table_of, variables_in};
ghost use Rattle.mk_gnu_eval.specs.Item.{says_recipe};
ghost use Rattle.mk_target_lines.specs.Shown.{came_of};
ghost use Rattle.mk_gnu_eval.specs.Reading.{with_item, with_line, Searches};
ghost use Rattle.mk_gnu_eval.specs.Shown.{progress_of, IsRefused, HasNoValue, IsNoLine, IsLine, ReadsTo};

use crate::fault::{Cause, Fault, Refused};
use crate::item::Said;
use crate::progress::Progress;
use crate::refuse::{refuse, refuse_line};
use crate::site::Site;
use mk_functions::{Outside, expand};
use mk_statements::{Line, Rule};
use mk_taken::{Reached, Reading};
use mk_target_lines::{Came, came_to};
use mk_variables::Table;
use std::alloc::{AllocError, Global};

/// What the text of a line comes to.
pub(crate) fn value_of<O: Outside>(
    alloc: Global,
    table: &Table,
    outside: &mut O,
    site: &Site<'_>,
    text: &[u8],
) -> Result<Vec<u8>, Refused>
    ensures value { (w : Answers) → O.allows outside.new w → IfOk result (λ v. ExpandsTo w (variables_in (table_of table.now)) text.now (gives v.items)) }
    ensures refused { (w : Answers) → O.allows outside.new w
        → IfErr result (IsRefused (HasNoValue w (variables_in (table_of table.now)) text.now site.now.file.now site.now.line)) }
    ensures narrows { (w : Answers) → O.allows outside.new w → O.allows outside.old w }
{
    match expand(alloc, table, outside, text) {
        Ok(value) => Ok(value),
        Err(stop) => Err(refuse_line(alloc, site, Cause::Text(stop))),
    }
}

/// Takes a line of a recipe.
pub(crate) fn take_recipe(
    alloc: Global,
    progress: &mut Progress,
    site: &Site<'_>,
    text: &[u8],
) -> Result<(), AllocError>
    ensures { OnOk result (progress_of progress.new ≡ with_item site.now.file.now site.now.line (says_recipe text.now) (progress_of progress.old)) }
{
    let text = Vec::from_slice(alloc, text)?;
    progress.add(alloc, site, Said::Recipe(text))
}

/// Takes a line of `vpath`.
pub(crate) fn take_search<O: Outside>(
    alloc: Global,
    progress: &mut Progress,
    outside: &mut O,
    site: &Site<'_>,
    text: &[u8],
) -> Result<(), Refused>
    ensures told { (w : Answers) → O.allows outside.new w
        → OnOk result (Searches w site.now.file.now site.now.line text.now (progress_of progress.old) (Ok (progress_of progress.new))) }
    ensures refused { (w : Answers) → O.allows outside.new w
        → IfErr result (IsRefused (λ why. Searches w site.now.file.now site.now.line text.now (progress_of progress.old) (Err why))) }
    ensures narrows { (w : Answers) → O.allows outside.new w → O.allows outside.old w }
{
    let value = value_of(alloc, &progress.table, outside, site, text)?;
    progress.add(alloc, site, Said::Vpath(value))?;
    Ok(())
}

/// Keeps what a line came to that names targets.
fn keep(
    alloc: Global,
    progress: &mut Progress,
    site: &Site<'_>,
    came: Came,
) -> Result<(), AllocError>
    ensures { OnOk result (progress_of progress.new ≡ with_line site.now.file.now site.now.line (came_of came) (progress_of progress.old)) }
{
    match came {
        Came::Nothing | Came::WithoutTargets => Ok(()),
        Came::Defines(definition) => progress.add(alloc, site, Said::Defines(definition)),
        Came::Rule(rule) => progress.add(alloc, site, Said::Rule(rule)),
    }
}

/// Takes a line that names targets, and tells what it opens.
pub(crate) fn take_line<O: Outside>(
    alloc: Global,
    progress: &mut Progress,
    outside: &mut O,
    site: &Site<'_>,
    text: &[u8],
    recipe: Option<&[u8]>,
) -> Result<Rule, Refused>
    ensures told { (w : Answers) → O.allows outside.new w
        → IfOk result (IsLine w (option_copied recipe.entry) text.now site.now.file.now site.now.line (progress_of progress.old) (progress_of progress.new)) }
    ensures refused { (w : Answers) → O.allows outside.new w
        → IfErr result (IsRefused (IsNoLine w (variables_in (table_of progress.old.table)) (option_copied recipe.entry) text.now site.now.file.now site.now.line)) }
    ensures narrows { (w : Answers) → O.allows outside.new w → O.allows outside.old w }
{
    match came_to(alloc, &progress.table, outside, text, recipe) {
        Ok(came) => {
            let rule = came.opens();
            keep(alloc, progress, site, came)?;
            Ok(rule)
        }
        Err(refusal) => Err(refuse_line(alloc, site, Cause::Line(refusal))),
    }
}

/// The lines from this place on.
fn lines_from<'a>(lines: &'a [Line<'a>], place: usize) -> &'a [Line<'a>]
    ensures { result.now ≡ drop place lines.now }
{
    lines.get(place..).unwrap_or(&[])
}

/// Reads the statements of a file from this place on, up to the next one that says nothing of conditionals and variables, or to their end.
pub(crate) fn next_other<'a, O: Outside>(
    alloc: Global,
    progress: &mut Progress,
    outside: &mut O,
    file: &[u8],
    reading: &mut Reading,
    lines: &'a [Line<'a>],
    place: usize,
) -> Result<Reached<'a>, Refused>
    ensures told { (w : Answers) → O.allows outside.new w
        → IfOk result (λ reached. Reads w (map stated (drop place lines.now)) (place_of (table_of progress.old.table) reading.old)
        (outcome_of (place_of (table_of progress.new.table) reading.new) reached)) }
    ensures refused { (w : Answers) → O.allows outside.new w
        → IfErr result (IsRefused (ReadsTo w (map stated (drop place lines.now)) (place_of (table_of progress.old.table) reading.old) file.now)) }
    ensures items { progress.new.items ≡ progress.old.items }
    ensures fewer { IfOk result (LeavesFewer (length lines.now - place)) }
    ensures narrows { (w : Answers) → O.allows outside.new w → O.allows outside.old w }
{
    let left = lines_from(lines, place);
    match reading.read(alloc, &mut progress.table, outside, left) {
        Ok(reached) => Ok(reached),
        Err(refused) => Err(refuse(alloc, file, Fault::Statements(refused))),
    }
}
