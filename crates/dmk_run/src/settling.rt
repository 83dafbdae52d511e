//! A run in which no recipe is to be run: nobody is started for it.
ghost use Rattle.std.specs.Prelude.{◌≡◌, true};
ghost use Rattle.dmk_parts.specs.Planned.{recorded_in};
ghost use Rattle.dmk_run.specs.Settled.{IsNoneToRun};

use crate::known::are_known_done;
use byte_strings::ByteStrings;
use dmk_parts::Plan;
use dmk_reading::unlisted;
use jb_recipe::Say;
use mk_nodes::Graph;
use mk_plan::{Passed, Telling, told_lines};
use std::alloc::{AllocError, Global};

/// What is told of the targets of a graph that are all up to date.
fn finished_lines(
    alloc: Global,
    telling: Telling,
    graph: &Graph,
) -> Result<ByteStrings, AllocError> {
    let mut told = ByteStrings::empty(alloc);
    if !matches!(telling, Telling::All) {
        return Ok(told);
    }
    for node in graph.order.as_slice() {
        if *node < graph.len() && graph.nodes[*node].recipe.get().is_some() {
            let lines = told_lines(alloc, telling, graph, *node, &Passed::UpToDate)?;
            for line in lines.iter() {
                told.push(line)?;
            }
        }
    }
    Ok(told)
}

/// Says it; whether there was memory for that.
fn say_finished<S: Say>(alloc: Global, telling: Telling, graph: &Graph, say: &S) -> bool {
    let Ok(told) = finished_lines(alloc, telling, graph) else {
        return false;
    };
    for line in told.iter() {
        say.line(line);
    }
    true
}

/// Whether no recipe is to be run, which is found without a worker. False too where it can't be found out: then workers do.
/// What there is to tell is said.
///
/// Workers, the pool and the board took twice the time and memory of `-q`. Who makes something passes the nodes before its first
/// recipe twice.
pub(crate) fn is_none_to_run<S: Say>(alloc: Global, plan: &Plan, say: &S) -> bool
    ensures { result ≡ true → IsNoneToRun plan.now.conduct.counts_records plan.now.conduct.keeps_state plan.now.graph (recorded_in plan.now) }
{
    let graph = &plan.graph;
    let conduct = &plan.conduct;
    if unlisted(alloc, conduct.counts_records, graph).is_none() {
        return false;
    }
    if conduct.keeps_state && !are_known_done(graph, plan.recorded()) {
        return false;
    }
    say_finished(alloc, conduct.telling, graph, say)
}
