//! What is found of recipes before any is run: the shell that runs them, and whether one calls a function.

use byte_strings::ByteString;
use dmk_messages::Fault;
use dmk_reading::{is_lost, lost_nodes};
use dmk_store::Stop;
use mk_macros::{Dynamic, MacroFault};
use mk_nodes::Graph;
use mk_plan::{RecipeFault, has_text_names, pass_in};
use mk_rule_lines::TextFault;
use std::alloc::Global;
use std::sync::OnceLock;

/// Whether the fault is told before the run: want of memory, and the call of a function of GNU make. Others are told where they are
/// met.
fn is_told_before(fault: &RecipeFault) -> bool {
    match fault {
        RecipeFault::OutOfMemory => true,
        RecipeFault::Macro(fault) => matches!(fault.cause, MacroFault::Function(_)),
    }
}

/// Refuses the run for such a fault.
fn refuse_before(fault: RecipeFault) -> Result<(), Stop> {
    if is_told_before(&fault) {
        return Err(Stop::Before(Fault::Recipe(fault)));
    }
    drop(fault);
    Ok(())
}

/// Puts the shell that the makefile names where it is looked for when the first line is run. In the strict profile it names none.
fn name_shell(alloc: Global, graph: &Graph, shell: &OnceLock<ByteString>) -> Result<(), Stop> {
    if !graph.macros.profile().is_wide() {
        return Ok(());
    }
    match graph.macros.expand(alloc, b"$(SHELL)", &Dynamic::RuleLine) {
        Ok(name) => {
            let _ = shell.try_set(ByteString::new(name));
            Ok(())
        }
        Err(MacroFault::OutOfMemory) => Err(Stop::Before(Fault::OutOfMemory)),
        Err(cause) => {
            let fault = TextFault { place: None, cause };
            Err(Stop::Before(Fault::Recipe(RecipeFault::Macro(fault))))
        }
    }
}

/// Refuses a graph of the wide profile of which a listing without these nodes would have a recipe that calls a function.
fn refuse_functions(
    alloc: Global,
    counting: bool,
    graph: &Graph,
    lost: &[bool],
) -> Result<(), Stop> {
    if !graph.macros.profile().is_wide() {
        return Ok(());
    }
    let mut marks = vec![in alloc; false; graph.len()]?;
    let texts = has_text_names(graph);
    for node in graph.order.as_slice() {
        if is_lost(lost, *node) {
            continue;
        }
        if *node < graph.len() && *node < marks.len() {
            match pass_in(alloc, counting, texts, graph, &marks, *node) {
                Ok(passed) => marks[*node] = passed.is_remade(),
                Err(fault) => refuse_before(fault)?,
            }
        }
    }
    Ok(())
}

/// Readies the recipes of a graph of which some may have to be run.
pub fn ready_recipes(
    alloc: Global,
    counting: bool,
    graph: &Graph,
    shell: &OnceLock<ByteString>,
) -> Result<(), Stop> {
    name_shell(alloc, graph, shell)?;
    let lost = lost_nodes(alloc, graph)?;
    refuse_functions(alloc, counting, graph, &lost)
}

/// So of a graph that is made in parts: what a name is missing for may be made once a part before it has made that name.
pub(crate) fn ready_all_recipes(
    alloc: Global,
    graph: &Graph,
    shell: &OnceLock<ByteString>,
) -> Result<(), Stop> {
    name_shell(alloc, graph, shell)?;
    refuse_functions(alloc, false, graph, &[])
}
