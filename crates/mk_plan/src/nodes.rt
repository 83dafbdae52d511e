//! Which prerequisites of a node are newer, and whether a node without a recipe was remade.
ghost use Rattle.std.specs.Prelude.{◌≡◌, ◌<◌, ◌||◌, length, map, IfOk};
ghost use Rattle.std.specs.List.{list_any};
ghost use Rattle.mk_graph.specs.Edges.{row};
ghost use Rattle.mk_names.specs.Names.{name_at};
ghost use Rattle.mk_seen.specs.Nodes.{is_marked};
ghost use Rattle.mk_plan.specs.Nodes.{was_cut};
ghost use Rattle.mk_plan.specs.Tests.{is_newer_than, newer_words, ends_remade};

use mk_nodes::{Graph, is_unfinished};
use mk_seen::{
    entry_of, is_later, is_marked, look_of, made_of, mark_counted, marks_of, name_of, stamp_of,
};
use mk_verdict::Mark;
use std::alloc::{AllocError, Global};

/// Whether the recipe of a node was cut off, so that in the wide profile nothing tells what went into its file.
pub(crate) fn was_cut(graph: &Graph, node: usize) -> bool
    ensures { result ≡ was_cut graph.now node }
{
    graph.macros.profile().is_wide() && is_unfinished(entry_of(graph, node))
}

/// Whether a prerequisite, of which the state has this mark, is among the words of `$?` for a target that was made then, unless its
/// recipe was cut off.
pub(crate) fn is_newer_than(
    graph: &Graph,
    marks: &[bool],
    made: Option<i128>,
    was_cut: bool,
    prerequisite: usize,
    mark: Mark,
) -> bool
    ensures { result ≡ is_newer_than graph.now marks.now made was_cut (prerequisite, mark) }
{
    let look = look_of(graph, prerequisite);
    made.is_none()
        || was_cut
        || is_later(stamp_of(graph, prerequisite), made)
        || is_marked(marks, prerequisite)
        || mark_counted(look, mark).differs(look)
}

/// The words of `$?` for a node.
pub fn newer_words<'g>(
    alloc: Global,
    graph: &'g Graph,
    marks: &[bool],
    node: usize,
) -> Result<Vec<&'g [u8]>, AllocError>
    requires { node < length graph.now.nodes.items }
    ensures { IfOk result (λ words. map (λ word. word.now) words.items ≡ newer_words graph.now marks.now node) }
{
    let mut words = Vec::new(alloc);
    let mut kept = marks_of(graph, node);
    let made = made_of(graph, node);
    let cut = was_cut(graph, node);
    for prerequisite in graph.hard.row(node) {
        let mark = kept.take_mark();
        if is_newer_than(graph, marks, made, cut, *prerequisite as usize, mark) {
            words.push(name_of(graph, *prerequisite as usize))?;
        }
    }
    Ok(words)
}

/// Whether some of the nodes is marked.
fn is_any_marked(marks: &[bool], nodes: &[u32]) -> bool
    ensures { result ≡ list_any (is_marked marks.now) nodes.now }
{
    nodes.iter().any(|node| is_marked(marks, *node as usize))
}

/// Whether a node without a recipe counts as remade.
pub fn ends_remade(graph: &Graph, marks: &[bool], node: usize) -> bool
    requires { node < length graph.now.nodes.items }
    ensures { result ≡ ends_remade graph.now marks.now node }
{
    stamp_of(graph, node).is_none() || is_any_marked(marks, graph.hard.row(node))
}
