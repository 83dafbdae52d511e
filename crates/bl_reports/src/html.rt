//! A run as one page of HTML, which takes nothing from a network.

use crate::bars::{Mark, bar_of, mark_of, on_path};
use crate::escaping::add_json;
use crate::html_text::{BACK, FRONT};
use bl_reading::{Recipe, Run};
use serde::Serialize;
use std::alloc::{AllocError, Global};

/// The whole run. Times are nanoseconds.
#[derive(Clone, Copy, Serialize)]
struct Whole<'a> {
    words: &'a str,
    number: usize,
    workers: u64,
    time: u64,
    critical: u64,
    status: Option<u64>,
    commits: &'a [Mark],
}

/// The page: its fixed text, and in it the run as JSON, a recipe a line.
pub fn page(alloc: Global, run: &Run) -> Result<String, AllocError> {
    let mut text = String::from_str(alloc, FRONT)?;
    add_run(alloc, &mut text, run)?;
    text.push_str(BACK)?;
    Ok(text)
}

fn add_run(alloc: Global, text: &mut String, run: &Run) -> Result<(), AllocError> {
    let (critical, on_path) = on_path(alloc, run)?;
    text.push_str("{\"run\":")?;
    add_whole(alloc, text, run, critical)?;
    text.push_str(",\"recipes\":[")?;
    add_recipes(alloc, text, run, on_path.as_slice())?;
    text.push_str("\n]}")
}

fn add_whole(alloc: Global, text: &mut String, run: &Run, critical: u64) -> Result<(), AllocError> {
    let commits = marks_of(alloc, run)?;
    let status = match run.end {
        Some(end) => Some(end.status),
        None => None,
    };
    let whole = Whole {
        words: run.words.as_str(),
        number: run.number,
        workers: run.workers,
        time: run.time,
        critical,
        status,
        commits: commits.as_slice(),
    };
    add_json(alloc, text, &whole)
}

fn marks_of(alloc: Global, run: &Run) -> Result<Vec<Mark>, AllocError> {
    let mut marks = Vec::with_capacity(alloc, run.commits.len())?;
    for commit in &run.commits {
        marks.push(mark_of(*commit))?;
    }
    Ok(marks)
}

fn add_recipes(
    alloc: Global,
    text: &mut String,
    run: &Run,
    on_path: &[bool],
) -> Result<(), AllocError> {
    for (number, recipe) in run.recipes.iter().enumerate() {
        let critical = on_path.get(number) == Some(&true);
        text.push_str(if number == 0 { "\n" } else { ",\n" })?;
        add_recipe(alloc, text, run, number, *recipe, critical)?;
    }
    Ok(())
}

fn add_recipe(
    alloc: Global,
    text: &mut String,
    run: &Run,
    number: usize,
    recipe: Recipe,
    critical: bool,
) -> Result<(), AllocError> {
    let bar = bar_of(alloc, run, number, recipe, critical)?;
    add_json(alloc, text, &bar)
}
