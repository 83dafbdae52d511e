//! How many recipes a run is to run, for whoever follows it, and what they came to where one failed.

use bd_places::End;
use dmk_parts::to_make;
use dmk_printing::{Counts, Printer};
use dmk_reading::{is_lost, lost_nodes};
use jb_closing::{Report, RunFault};
use jb_recipe::{Say, Step};
use mk_nodes::Graph;
use mk_plan::{has_text_names, pass_in};
use std::alloc::{AllocError, Global};
use std::io::Write;
use std::sync::Wait;

/// How many recipes a listing would have. A target whose recipe can't be expanded isn't counted.
fn recipes_to_run(alloc: Global, counting: bool, graph: &Graph) -> Result<usize, AllocError> {
    let mut marks = vec![in alloc; false; graph.len()]?;
    let mut found: usize = 0;
    let texts = has_text_names(graph);
    let lost = lost_nodes(alloc, graph)?;
    for node in graph.order.as_slice() {
        if is_lost(&lost, *node) {
            continue;
        }
        if *node < graph.len() && *node < marks.len() {
            if let Ok(passed) = pass_in(alloc, counting, texts, graph, &marks, *node) {
                if passed.is_listed() {
                    found = found.saturating_add(1);
                }
                marks[*node] = passed.is_remade();
            }
        }
    }
    Ok(found)
}

/// Tells how many recipes are to be run, if anybody wants to know.
pub(crate) fn tell_planned<S: Say>(alloc: Global, counting: bool, graph: &Graph, say: &S) {
    if !say.is_followed() {
        return;
    }
    if let Ok(planned) = recipes_to_run(alloc, counting, graph) {
        say.step(Step::Planned(planned));
    }
}

/// How many recipes that were to be run weren't, by the ends of a graph's nodes.
fn left_in(
    alloc: Global,
    counting: bool,
    graph: &Graph,
    ends: &[End],
) -> Result<usize, AllocError> {
    let lost = lost_nodes(alloc, graph)?;
    let planned = to_make(alloc, counting, graph, &lost)?;
    let mut left: usize = 0;
    for (node, is_planned) in planned.iter().enumerate() {
        if *is_planned && matches!(ends.get(node), Some(End::Abandoned)) {
            left = left.saturating_add(1);
        }
    }
    Ok(left)
}

/// Those that weren't run are looked for only where one failed: to pass all nodes once more takes time.
fn counts_of(
    alloc: Global,
    counting: bool,
    graph: &Graph,
    ends: &[End],
) -> Result<Counts, AllocError> {
    let mut counts = Counts::none();
    for end in ends {
        match end {
            End::Built => counts.made = counts.made.saturating_add(1),
            End::Failed(_) => counts.failed = counts.failed.saturating_add(1),
            _ => {}
        }
    }
    if counts.failed > 0 {
        counts.left = left_in(alloc, counting, graph, ends)?;
    }
    Ok(counts)
}

/// Counts what a run over the graph came to: for its log, and in the wide profile to be told.
pub(crate) fn count<R: Wait, O: Write + Drop, W: Write + Drop>(
    alloc: Global,
    counting: bool,
    graph: &Graph,
    printer: &Printer<'_, R, O, W>,
    found: &Result<Report, RunFault>,
) {
    let is_told = graph.macros.profile().is_wide();
    if !is_told && !printer.is_logged() {
        return;
    }
    if let Ok(report) = found {
        if let Ok(counts) = counts_of(alloc, counting, graph, &report.ends) {
            printer.count(counts, is_told);
        }
    }
}
