//! What a build waited for: the path of recipes, each a prerequisite of the next, that took longest.

ghost use Rattle.std.specs.Prelude.{◌≡◌, ◌↔◌, ℕ, ◌+◌, ◌<◌, ◌≤◌, true, false, IfOk, IfSome, IfNone, IsSomeAnd, IsTrue, MatchOption, length, slice_index};
ghost use Rattle.mk_graph.specs.Edges.{row};
ghost use Rattle.bl_log.specs.Spans.{time};
ghost use Rattle.bl_log.specs.Critical.{Precedes, IsPath, IsCritical, path_time};
ghost use Rattle.bl_log.specs.Reached.{IsLast, AreReached};

use crate::span::Span;
use mk_graph::Edges;
use std::alloc::{AllocError, Global};

/// The recipes of a path, from the last one back, and what they took together, in nanoseconds.
#[derive(Drop)]
pub struct CriticalPath {
    pub recipes: Vec<usize>,
    pub time: u64,
}

/// The path that took longest, where the row of each recipe has the numbers of its prerequisites. Of these those count that stand
/// before it and had ended when it began.
pub fn critical_path(
    alloc: Global,
    spans: &[Span],
    prerequisites: &Edges,
) -> Result<CriticalPath, AllocError>
    ensures { IfOk result (λ c. IsCritical spans.now prerequisites.now c.recipes.items c.time) }
{
    let sums = reached(alloc, spans, prerequisites)?;
    critical(alloc, spans, prerequisites, &sums)
}

/// The path by which the greatest of all sums was reached.
fn critical(
    alloc: Global,
    spans: &[Span],
    prerequisites: &Edges,
    sums: &[u64],
) -> Result<CriticalPath, AllocError>
    requires { AreReached spans.now prerequisites.now sums.now (length spans.now) }
    ensures { IfOk result (λ c. IsCritical spans.now prerequisites.now c.recipes.items c.time) }
{
    match greatest(sums) {
        Some(last) => Ok(CriticalPath {
            recipes: path_to(alloc, spans, prerequisites, sums, last)?,
            time: sums[last],
        }),
        None => Ok(CriticalPath {
            recipes: Vec::new(alloc),
            time: 0,
        }),
    }
}

/// The path by which the greatest sum of a recipe was reached, from that one back.
fn path_to(
    alloc: Global,
    spans: &[Span],
    prerequisites: &Edges,
    reached: &[u64],
    last: usize,
) -> Result<Vec<usize>, AllocError>
    requires last { last < length spans.now }
    requires reached { AreReached spans.now prerequisites.now reached.now (length spans.now) }
    ensures path { IfOk result (λ path. IsPath spans.now prerequisites.now path.items) }
    ensures sum { IfOk result (λ path. path_time spans.now path.items ≡ slice_index reached.now last) }
{
    let mut path = Vec::new(alloc);
    path.push(last)?;
    let mut first = last;
    while let Some(before) = last_before(spans, row_of(prerequisites, first), reached, first) {
        path.push(before)?;
        first = before;
    }
    Ok(path)
}

/// For each recipe what the longest path took that ends with it.
fn reached(alloc: Global, spans: &[Span], prerequisites: &Edges) -> Result<Vec<u64>, AllocError>
    ensures { IfOk result (λ sums. AreReached spans.now prerequisites.now sums.items (length spans.now)) }
{
    let mut sums = Vec::with_capacity(alloc, spans.len())?;
    for number in 0..spans.len() {
        let last = last_before(spans, row_of(prerequisites, number), &sums, number);
        let before = sum_before(&sums, last);
        let sum = sum_with(before, spans[number]);
        sums.push(sum)?;
    }
    Ok(sums)
}

/// The sum of a recipe that leads to another one; 0 where there is none.
fn sum_before(sums: &[u64], last: Option<usize>) -> u64
    requires { IfSome last (λ l. l < length sums.now) }
    ensures { MatchOption last (result ≡ 0) (λ l. result ≡ slice_index sums.now l) }
{
    match last {
        Some(last) => sums[last],
        None => 0,
    }
}

/// What comes before a recipe, which is over when that begins, and the recipe's own time.
fn sum_with(before: u64, span: Span) -> u64
    requires { before ≤ span.begin }
    ensures within { result ≤ span.end }
    ensures sum { result ≡ before + time span }
{
    span.end - (span.begin - before)
}

fn row_of(prerequisites: &Edges, number: usize) -> &[u32]
    ensures { result.now ≡ row prerequisites.now number }
{
    if number < prerequisites.len() {
        prerequisites.row(number)
    } else {
        &[]
    }
}

/// Of the prerequisites that lead to a recipe the one to which the longest path leads.
fn last_before(spans: &[Span], row: &[u32], sums: &[u64], number: usize) -> Option<usize>
    requires here { number < length spans.now }
    requires sums { number ≤ length sums.now }
    ensures { IsLast spans.now row.now sums.now number (length row.now) result }
{
    let mut found = None;
    for prerequisite in row {
        let prerequisite = *prerequisite as usize;
        if precedes(spans, prerequisite, number) && is_longer(sums, found, prerequisite) {
            found = Some(prerequisite);
        }
    }
    found
}

fn precedes(spans: &[Span], first: usize, second: usize) -> bool
    requires { second < length spans.now }
    ensures { IsTrue result ↔ Precedes spans.now first second }
{
    first < second && spans[first].end <= spans[second].begin
}

/// Whether a longer path leads to the second recipe than to the first one, if there is a first one.
fn is_longer(sums: &[u64], first: Option<usize>, second: usize) -> bool
    requires first { IfSome first (λ f. f < length sums.now) }
    requires second { second < length sums.now }
    ensures yes { result ≡ true → IfSome first (λ f. slice_index sums.now f ≤ slice_index sums.now second) }
    ensures no { result ≡ false → IsSomeAnd first (λ f. slice_index sums.now second ≤ slice_index sums.now f) }
{
    match first {
        Some(first) => sums[first] < sums[second],
        None => true,
    }
}

/// The first place at which the greatest of the numbers stands.
fn greatest(sums: &[u64]) -> Option<usize>
    ensures within { IfSome result (λ n. n < length sums.now) }
    ensures greatest { IfSome result (λ n. (k : ℕ) → k < length sums.now → slice_index sums.now k ≤ slice_index sums.now n) }
    ensures none { IfNone result (length sums.now ≡ 0) }
{
    if sums.is_empty() {
        return None;
    }
    let mut place = 0;
    for (other, sum) in sums.iter().enumerate() {
        if *sum > sums[place] {
            place = other;
        }
    }
    Some(place)
}
