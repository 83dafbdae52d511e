//! A run as a trace of events ("Trace Event Format", complete events), which chrome://tracing and Perfetto open.

use crate::bars::{Bar, Mark, bar_of, mark_of, on_path};
use bl_reading::{Recipe, Run};
use serde::Serialize;
use std::alloc::{AllocError, Global};

const PROCESS: u64 = 1;

/// A microsecond has so many nanoseconds.
const MICROSECOND: u64 = 1000;

/// An event, with times in microseconds.
#[derive(Drop, Serialize)]
struct Event<'a> {
    name: &'a str,
    ph: &'static str,
    ts: u64,
    dur: u64,
    pid: u64,
    tid: u64,
    #[serde(skip_serializing_if = "Option::is_none")]
    cname: Option<&'static str>,
}

/// The trace as JSON: each worker is a thread, and commits are the one behind them.
pub fn trace(alloc: Global, run: &Run) -> Result<String, AllocError> {
    let mut text = String::from_str(alloc, "{\"displayTimeUnit\":\"ms\",\"traceEvents\":[")?;
    add_recipes(alloc, &mut text, run)?;
    add_commits(alloc, &mut text, run)?;
    text.push_str("\n]}\n")?;
    Ok(text)
}

fn add_recipes(alloc: Global, text: &mut String, run: &Run) -> Result<(), AllocError> {
    let (_time, on_path) = on_path(alloc, run)?;
    for (number, recipe) in run.recipes.iter().enumerate() {
        let critical = on_path.get(number) == Some(&true);
        text.push_str(if number == 0 { "\n" } else { ",\n" })?;
        add_recipe(alloc, text, run, number, *recipe, critical)?;
    }
    Ok(())
}

fn add_recipe(
    alloc: Global,
    text: &mut String,
    run: &Run,
    number: usize,
    recipe: Recipe,
    critical: bool,
) -> Result<(), AllocError> {
    let bar = bar_of(alloc, run, number, recipe, critical)?;
    add(alloc, text, &of_bar(&bar))
}

fn add_commits(alloc: Global, text: &mut String, run: &Run) -> Result<(), AllocError> {
    for (number, commit) in run.commits.iter().enumerate() {
        let is_first = number == 0 && run.recipes.is_empty();
        text.push_str(if is_first { "\n" } else { ",\n" })?;
        add(alloc, text, &of_mark(mark_of(*commit), run.workers))?;
    }
    Ok(())
}

fn add(alloc: Global, text: &mut String, event: &Event<'_>) -> Result<(), AllocError> {
    let Ok(json) = serde_json::to_string(alloc, event) else {
        return Err(AllocError);
    };
    text.push_str(json.as_str())
}

fn of_bar(bar: &Bar) -> Event<'_> {
    Event {
        name: bar.target.as_str(),
        ph: "X",
        ts: bar.begin / MICROSECOND,
        dur: bar.end.saturating_sub(bar.begin) / MICROSECOND,
        pid: PROCESS,
        tid: bar.worker,
        cname: if bar.critical { Some("terrible") } else { None },
    }
}

fn of_mark(mark: Mark, worker: u64) -> Event<'static> {
    Event {
        name: "commit",
        ph: "X",
        ts: mark.begin / MICROSECOND,
        dur: mark.end.saturating_sub(mark.begin) / MICROSECOND,
        pid: PROCESS,
        tid: worker,
        cname: None,
    }
}
