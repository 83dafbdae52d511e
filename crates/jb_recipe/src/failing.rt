//! Which line of a recipe failed, for whoever tells of that.
ghost use Rattle.std.specs.Prelude.{◌≡◌, ◌-◌, ◌++◌, List, slice_get, IfOk, IfSome, OnOk};
ghost use Rattle.mk_recipe.specs.declared.line.Line.{Line as RecipeLine};
ghost use Rattle.jb_recipe.specs.Failing.{told_of, told_at, told_from, IsTold};

use bd_lists::Ended;
use byte_strings::ByteString;
use mk_recipe::{Line, Outcome};
use std::alloc::{AllocError, Global};

/// A line of a recipe, as it is told of where it fails.
pub struct FailedLine {
    /// Its number in the recipe, from 0.
    pub number: usize,
    /// What it ran, where that wasn't printed.
    pub text: Option<ByteString>,
}

impl Drop for FailedLine {
    fn drop(self) {
        let FailedLine { number: _, text: _ } = self;
    }
}

fn told_of(alloc: Global, number: usize, line: &Line) -> Result<FailedLine, AllocError>
    ensures { IfOk result (λ told. told ≡ told_of number line.now) }
{
    if line.is_printed {
        return Ok(FailedLine { number, text: None });
    }
    let text = Some(line.text.copy(alloc)?);
    Ok(FailedLine { number, text })
}

fn add(
    told: &mut Vec<FailedLine>,
    alloc: Global,
    number: usize,
    line: &Line,
) -> Result<(), AllocError>
    ensures { OnOk result (told.new.items ≡ told.old.items ++ told_at number line.now) }
{
    if !line.is_blank() {
        told.push(told_of(alloc, number, line)?)?;
    }
    Ok(())
}

/// What is told of each line that is run, where it fails.
#[tactic(auto, unfolding(crate::specs::Failing::told_from))]
fn told_lines(alloc: Global, lines: &[Line]) -> Result<Vec<FailedLine>, AllocError>
    ensures { IfOk result (λ told. told.items ≡ told_from 0 lines.now) }
{
    let mut told = Vec::new(alloc);
    for (number, line) in lines.iter().enumerate() {
        add(&mut told, alloc, number, line)?;
    }
    Ok(told)
}

/// The same before the recipe is run, with which its lines are spent; None where nothing is to be told, or there is no room for it.
pub(crate) fn lines_told(alloc: Global, is_wanted: bool, lines: &[Line]) -> Option<Vec<FailedLine>>
    ensures { IfSome result (λ told. told.items ≡ told_from 0 lines.now) }
{
    if is_wanted {
        told_lines(alloc, lines).ok()
    } else {
        None
    }
}

fn last_of(told: Vec<FailedLine>, count: usize) -> Option<FailedLine>
    ensures { result ≡ slice_get told.items (count - 1) }
{
    let mut told = told;
    let last = count.saturating_sub(1);
    if last < told.len() {
        Some(told.swap_remove(last))
    } else {
        None
    }
}

/// The line that failed, where a recipe did: the last one of those that were run.
pub(crate) fn failed_line(
    told: Option<Vec<FailedLine>>,
    ended: &[Ended],
    outcome: Outcome,
) -> Option<FailedLine>
    ensures { (lines : List RecipeLine) → IfSome told (λ t. t.items ≡ told_from 0 lines) → IsTold outcome lines ended.now result }
{
    let told = told?;
    match outcome {
        Outcome::Done => None,
        Outcome::Failed(_) => last_of(told, ended.len()),
    }
}
