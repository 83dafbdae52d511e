//! Whether the ends of a run are borne out: each node that wasn't built is judged again, by how the others ended.
ghost use Rattle.std.specs.Prelude.{◌≡◌, ◌<◌, true, false, length, drop, get_or, IfOk};
ghost use Rattle.mk_plan.specs.Passing.{PassesUnlisted};
ghost use Rattle.dmk_run.specs.Judged.{counts_as_remade, remade_by, IsJudged, AreJudged};

use bd_places::End;
use mk_nodes::Graph;
use mk_plan::{RecipeFault, pass};
use std::alloc::{AllocError, Global};

fn counts_as_remade(end: End) -> bool
    ensures { result ≡ counts_as_remade end }
{
    matches!(end, End::Remade | End::Built)
}

/// The first of these, false where there is none, and those behind it.
fn first_same(same: &[bool]) -> (bool, &[bool])
    ensures first { result.0 ≡ get_or same.now 0 false }
    ensures rest { result.1.now ≡ drop 1 same.now }
{
    match same.split_first() {
        Some((first, rest)) => (*first, rest),
        None => (false, same),
    }
}

/// Which nodes count as remade, by how they ended and whose recipe left its files as they were.
fn marks_of(alloc: Global, ends: &[End], same: &[bool]) -> Result<Vec<bool>, AllocError>
    ensures { IfOk result (λ marks. marks.items ≡ remade_by ends.now same.now) }
{
    let mut marks = Vec::with_capacity(alloc, ends.len())?;
    let mut left = same;
    for end in ends {
        let (is_same, rest) = first_same(left);
        marks.push(counts_as_remade(*end) && !is_same)?;
        left = rest;
    }
    Ok(marks)
}

/// Whether a node is passed with nothing to be run, and counts as remade or not.
fn passes_so(
    alloc: Global,
    keeping: bool,
    graph: &Graph,
    marks: &[bool],
    node: usize,
    remade: bool,
) -> Result<bool, AllocError>
    requires { node < length graph.now.nodes.items }
    ensures { IfOk result (λ yes. yes ≡ true → PassesUnlisted keeping graph.now marks.now node remade) }
{
    match pass(alloc, keeping, graph, marks, node) {
        Ok(passed) => Ok(!passed.is_listed() && passed.is_remade() == remade),
        Err(RecipeFault::OutOfMemory) => Err(AllocError),
        Err(_) => Ok(false),
    }
}

fn is_judged(
    alloc: Global,
    keeping: bool,
    graph: &Graph,
    marks: &[bool],
    node: usize,
    end: End,
) -> Result<bool, AllocError>
    ensures { IfOk result (λ yes. yes ≡ true → IsJudged keeping graph.now marks.now node end) }
{
    if node >= graph.len() {
        return Ok(false);
    }
    match end {
        End::UpToDate => passes_so(alloc, keeping, graph, marks, node, false),
        End::Remade => passes_so(alloc, keeping, graph, marks, node, true),
        _ => Ok(true),
    }
}

/// Whether each node that wasn't built is judged so, where those count as remade that ended as remade or built, but for those whose
/// recipe left its files as they were.
pub(crate) fn are_judged(
    alloc: Global,
    keeping: bool,
    graph: &Graph,
    ends: &[End],
    same: &[bool],
) -> Result<bool, AllocError>
    ensures { IfOk result (λ yes. yes ≡ true → AreJudged keeping graph.now ends.now same.now) }
{
    let marks = marks_of(alloc, ends, same)?;
    for (node, end) in ends.iter().enumerate() {
        if !is_judged(alloc, keeping, graph, &marks, node, *end)? {
            return Ok(false);
        }
    }
    Ok(true)
}
