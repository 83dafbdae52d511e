//! A run in a few lines: what was made, how long it took, how busy its workers were, and what it waited for.

use crate::seconds::Seconds;
use bl_log::{CriticalPath, Span, busy, by_time, critical_path};
use bl_reading::{Ended, Outcome, Run};
use std::alloc::{AllocError, Global};

/// How many recipes of the critical path are named.
const LONGEST: usize = 10;

/// How many recipes ended how.
#[derive(Clone, Copy)]
struct Counts {
    made: usize,
    failed: usize,
    cut_off: usize,
}

/// The lines, each with a newline behind it. Names are told as they are.
pub fn stats(alloc: Global, run: &Run) -> Result<Vec<u8>, AllocError> {
    let path = critical_path(alloc, run.spans.as_slice(), &run.prerequisites)?;
    let mut text = Vec::new(alloc);
    add_head(alloc, &mut text, run)?;
    add_times(alloc, &mut text, run)?;
    if !run.commits.is_empty() {
        add_commits(alloc, &mut text, run)?;
    }
    add_path(alloc, &mut text, run, &path)?;
    Ok(text)
}

fn add(text: &mut Vec<u8>, line: String) -> Result<(), AllocError> {
    text.extend_from_slice(line.as_bytes())
}

fn add_head(alloc: Global, text: &mut Vec<u8>, run: &Run) -> Result<(), AllocError> {
    let (number, words) = (run.number, run.words.as_str());
    add(text, format!(in alloc; "run {number}: {words}\n")?)?;
    if run.up_to_date > 0 {
        add_judged(alloc, text, run)?;
    }
    add_counts(alloc, text, counts_of(run))?;
    add_end(alloc, text, run)
}

/// How many targets were looked at, where the log has those too that are up to date.
fn add_judged(alloc: Global, text: &mut Vec<u8>, run: &Run) -> Result<(), AllocError> {
    let (judged, up_to_date) = (run.judged, run.up_to_date);
    let line = format!(in alloc; "judged {judged}, of these up to date {up_to_date}\n")?;
    add(text, line)
}

fn add_counts(alloc: Global, text: &mut Vec<u8>, counts: Counts) -> Result<(), AllocError> {
    let (made, failed, cut_off) = (counts.made, counts.failed, counts.cut_off);
    let line = format!(in alloc; "recipes: made {made}, failed {failed}, cut off {cut_off}\n")?;
    add(text, line)
}

fn add_end(alloc: Global, text: &mut Vec<u8>, run: &Run) -> Result<(), AllocError> {
    let Some(end) = run.end else {
        return text.extend_from_slice(b"cut off before its end\n");
    };
    let (status, not_made) = (end.status, end.not_made);
    let line = format!(in alloc; "ended with status {status}, not made {not_made}\n")?;
    add(text, line)
}

fn counts_of(run: &Run) -> Counts {
    let mut counts = Counts {
        made: 0,
        failed: 0,
        cut_off: 0,
    };
    for recipe in &run.recipes {
        let count = match recipe.ended {
            None => &mut counts.cut_off,
            Some(
                Ended {
                    outcome: Outcome::Status(0),
                    ..
                },
            ) => &mut counts.made,
            Some(_) => &mut counts.failed,
        };
        *count = count.saturating_add(1);
    }
    counts
}

fn add_times(alloc: Global, text: &mut Vec<u8>, run: &Run) -> Result<(), AllocError> {
    let wall = Seconds(run.time);
    add(text, format!(in alloc; "wall time {wall}\n")?)?;
    add_processor(alloc, text, run)?;
    let workers = run.workers;
    match busy(run.spans.as_slice()) {
        Some(busy) => add_busy(alloc, text, run, busy),
        None => add(
            text,
            format!(in alloc; "workers {workers}, busy for more than 2^64 ns\n")?,
        ),
    }
}

fn add_busy(alloc: Global, text: &mut Vec<u8>, run: &Run, busy: u64) -> Result<(), AllocError> {
    let (workers, time) = (run.workers, Seconds(busy));
    let line = match thousandths(busy, workers, run.time) {
        Some(share) => {
            let (percent, tenth) = (share / 10, share % 10);
            format!(in alloc; "workers {workers}, busy for {time}: {percent}.{tenth} %\n")?
        }
        None => format!(in alloc; "workers {workers}, busy for {time}\n")?,
    };
    add(text, line)
}

/// The processor time of the recipes of which it is known.
fn add_processor(alloc: Global, text: &mut Vec<u8>, run: &Run) -> Result<(), AllocError> {
    let mut sum: u64 = 0;
    let mut known: usize = 0;
    for recipe in &run.recipes {
        if let Some(ended) = recipe.ended {
            if let Some(time) = ended.processor_nanoseconds {
                sum = sum.saturating_add(time);
                known = known.saturating_add(1);
            }
        }
    }
    if known == 0 {
        return Ok(());
    }
    let (sum, recipes) = (Seconds(sum), run.recipes.len());
    add(
        text,
        format!(in alloc; "processor time {sum}, told of {known} of {recipes} recipes\n")?,
    )
}

/// Which part of the workers' time was busy; None where they had none.
fn thousandths(busy: u64, workers: u64, wall: u64) -> Option<u64> {
    let whole = u128::from(workers).checked_mul(u128::from(wall))?;
    let part = u128::from(busy).checked_mul(1000)?;
    u64::try_from(part.checked_div(whole)?).ok()
}

fn add_commits(alloc: Global, text: &mut Vec<u8>, run: &Run) -> Result<(), AllocError> {
    let mut records: u64 = 0;
    let mut took: u64 = 0;
    for commit in &run.commits {
        records = records.saturating_add(commit.records);
        took = took.saturating_add(commit.took_nanoseconds);
    }
    let (commits, took) = (run.commits.len(), Seconds(took));
    add(
        text,
        format!(in alloc; "commits {commits}, of {records} records, in {took}\n")?,
    )
}

fn add_path(
    alloc: Global,
    text: &mut Vec<u8>,
    run: &Run,
    path: &CriticalPath,
) -> Result<(), AllocError> {
    let (recipes, time) = (path.recipes.len(), Seconds(path.time));
    let line = format!(in alloc;
        "critical path: {recipes} recipes, with endless workers this build takes {time}\n"
    )?;
    add(text, line)?;
    let spans = spans_of(alloc, run, path.recipes.as_slice())?;
    let ranked = by_time(alloc, spans.as_slice())?;
    for ranked in ranked.iter().take(LONGEST) {
        if let Some(recipe) = path.recipes.get(ranked.number) {
            add_recipe(alloc, text, run, *recipe, ranked.time)?;
        }
    }
    Ok(())
}

fn add_recipe(
    alloc: Global,
    text: &mut Vec<u8>,
    run: &Run,
    recipe: usize,
    time: u64,
) -> Result<(), AllocError> {
    let time = Seconds(time);
    add(text, format!(in alloc; "{time}\t")?)?;
    text.extend_from_slice(run.target(recipe))?;
    text.extend_from_slice(b"\n")
}

fn spans_of(alloc: Global, run: &Run, recipes: &[usize]) -> Result<Vec<Span>, AllocError> {
    let mut spans = Vec::with_capacity(alloc, recipes.len())?;
    for recipe in recipes {
        if let Some(span) = run.spans.get(*recipe) {
            spans.push(*span)?;
        }
    }
    Ok(spans)
}
