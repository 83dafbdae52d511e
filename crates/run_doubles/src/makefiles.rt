//! Graphs of makefiles.

use crate::folder::{File, Folder};
use byte_strings::ByteStrings;
use mk_eval::read_makefile;
use mk_macros::Macros;
use mk_nodes::Graph;
use mk_plan::pass;
use mk_profile::Profile;
use mk_rules::{MAX_NODES, build};
use st_state::State;
use std::alloc::Global;
use std::test::Fail;

/// What is asked to be made, and from what: the makefile's first target.
#[derive(Clone, Copy)]
pub struct Asked {
    pub makefile: &'static str,
    pub files: &'static [File],
}

/// The graph of what is asked, over a state.
pub fn graph(alloc: Global, asked: &Asked, state: &State) -> Result<Graph, Fail> {
    let mut folder = Folder::new(asked.files);
    let mut macros = Macros::new(alloc, Profile::Strict);
    let text = asked.makefile.as_bytes();
    let items = read_makefile(alloc, &mut macros, b"makefile", text, &mut folder)?;
    let goals = ByteStrings::empty(alloc);
    Ok(build(
        alloc,
        items,
        Macros::new(alloc, Profile::Strict),
        goals,
        &mut folder,
        state.copy(alloc)?,
        MAX_NODES,
        false,
    )?)
}

fn is_any_listed(alloc: Global, graph: &Graph, marks: &[bool]) -> Result<bool, Fail> {
    for node in 0..graph.len() {
        if pass(alloc, true, graph, marks, node)?.is_listed() {
            return Ok(true);
        }
    }
    Ok(false)
}

fn lists_any_of(alloc: Global, graph: &Graph) -> Result<bool, Fail> {
    let marks = vec![in alloc; false; graph.len()]?;
    is_any_listed(alloc, graph, &marks)
}

/// Whether a dry run would list something: some target is out of date by itself.
pub fn lists_any(alloc: Global, asked: &Asked, state: &State) -> Result<bool, Fail> {
    let graph = graph(alloc, asked, state)?;
    lists_any_of(alloc, &graph)
}
