//! Recipes and commits of a run, as they are drawn.

ghost use Rattle.std.specs.Prelude.{◌≡◌, ℕ, List, ◌-◌, IfOk, vec_len};
ghost use Rattle.bl_log.specs.Critical.{IsCritical};

use bl_log::critical_path;
use bl_reading::{Commit, Outcome, Recipe, Run};
use serde::Serialize;
use std::alloc::{AllocError, Global};

/// A recipe. Times are nanoseconds.
#[derive(Drop, Serialize)]
pub struct Bar {
    pub target: String,
    pub worker: u64,
    pub begin: u64,
    pub end: u64,
    /// Whether it is on the critical path.
    pub critical: bool,
    /// How it ended, unless with status 0.
    #[serde(skip_serializing_if = "Option::is_none")]
    pub how: Option<String>,
}

/// A commit. Times are nanoseconds.
#[derive(Clone, Copy, Serialize)]
pub struct Mark {
    pub begin: u64,
    pub end: u64,
    pub records: u64,
}

/// The recipe of a number; names have U+FFFD in place of what isn't UTF-8.
pub fn bar_of(
    alloc: Global,
    run: &Run,
    number: usize,
    recipe: Recipe,
    critical: bool,
) -> Result<Bar, AllocError> {
    let end = match run.spans.get(number) {
        Some(span) => span.end,
        None => recipe.begin,
    };
    Ok(Bar {
        target: String::from_utf8_lossy(alloc, run.target(number))?,
        worker: recipe.worker,
        begin: recipe.begin,
        end,
        critical,
        how: how(alloc, recipe)?,
    })
}

fn how(alloc: Global, recipe: Recipe) -> Result<Option<String>, AllocError> {
    let Some(ended) = recipe.ended else {
        return Ok(Some(String::from_str(alloc, "cut off")?));
    };
    match ended.outcome {
        Outcome::Status(0) => Ok(None),
        Outcome::Status(status) => Ok(Some(format!(in alloc; "status {status}")?)),
        Outcome::Signal(signal) => Ok(Some(format!(in alloc; "signal {signal}")?)),
    }
}

pub fn mark_of(commit: Commit) -> Mark
    ensures begin { result.begin ≡ commit.time - commit.took_nanoseconds }
    ensures end { result.end ≡ commit.time }
    ensures records { result.records ≡ commit.records }
{
    Mark {
        begin: commit.time.saturating_sub(commit.took_nanoseconds),
        end: commit.time,
        records: commit.records,
    }
}

/// What the critical path took, and of each recipe whether it is on it.
pub fn on_path(alloc: Global, run: &Run) -> Result<(u64, Vec<bool>), AllocError>
    ensures time { IfOk result (λ found. (path : List ℕ) × IsCritical run.now.spans.items run.now.prerequisites path found.0) }
    ensures each { IfOk result (λ found. vec_len found.1 ≡ vec_len run.now.recipes) }
{
    let path = critical_path(alloc, run.spans.as_slice(), &run.prerequisites)?;
    let mut on_path = Vec::from_elem(alloc, false, run.recipes.len())?;
    for recipe in &path.recipes {
        if *recipe < on_path.len() {
            on_path[*recipe] = true;
        }
    }
    Ok((path.time, on_path))
}
