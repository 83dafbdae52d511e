//! Whether no file of a node is a reason to make it, found in one walk over them, without a list.
ghost use Rattle.std.specs.Prelude.{◌≡◌, ◌<◌, ◌||◌, ◌&&◌, true, false, not, length, map, Some};
ghost use Rattle.std.specs.List.{list_all};
ghost use Rattle.mk_verdict.specs.Marks.{mark_of};
ghost use Rattle.mk_seen.specs.Leaving.{leaves_file, leaves_hard, leaves_hidden, leaves_made, leaves_prerequisites, leaves_all, has_text_name, is_explicit, is_done, is_kept};
ghost use Rattle.mk_seen.specs.Marks.{is_as_recorded, look_from, look_of, looks_made, mark_counted, marks_behind, noted_in, with_marks};
ghost use Rattle.mk_seen.specs.Nodes.{entry_of, hidden_of, made_of};
ghost use Rattle.mk_seen.specs.TextNames.{HasTextNames};

use crate::looks::{look_from, look_of, looks_beside, mark_counted};
use crate::marks::{is_as_recorded, marks_left, noted_in};
use crate::names::are_names_of;
use crate::nodes::{is_later, is_marked, made_of, name_of, stamp_of};
use crate::text_names::is_text_name;
use mk_marks::{Kept, Noted};
use mk_nodes::{FileLook, Graph};
use mk_verdict::{Look, Mark};
use st_packed::PackedEntry;
use st_records::Phase;

/// The mark of a file with this look where state is kept, else none.
fn counted(keeping: bool, look: Look, mark: Mark) -> Mark
    ensures { result ≡ mark_of keeping (mark_counted look mark) }
{
    if keeping {
        mark_counted(look, mark)
    } else {
        Mark::NotKept
    }
}

/// Whether the file of a prerequisite is no reason to make again what was made then.
fn leaves_file(graph: &Graph, made: Option<i128>, node: usize, mark: Mark) -> bool
    ensures { result ≡ leaves_file graph.now made node mark }
{
    !(mark.is_timed() && is_later(stamp_of(graph, node), made))
        && !mark.differs(look_of(graph, node))
}

/// Whether a hard prerequisite is none.
fn leaves_hard(
    keeping: bool,
    graph: &Graph,
    marks: &[bool],
    made: Option<i128>,
    node: usize,
    mark: Mark,
) -> bool
    ensures { result ≡ leaves_hard keeping graph.now marks.now made (node, mark) }
{
    let mark = counted(keeping, look_of(graph, node), mark);
    leaves_file(graph, made, node, mark) && !is_marked(marks, node)
}

/// Whether a hidden prerequisite is none, but for its name.
fn leaves_hidden(
    keeping: bool,
    graph: &Graph,
    marks: &[bool],
    made: Option<i128>,
    hidden: Option<usize>,
    mark: Mark,
) -> bool
    ensures { result ≡ leaves_hidden keeping graph.now marks.now made (hidden, mark) }
{
    match hidden {
        None => !keeping,
        Some(node) => {
            let mark = counted(keeping, look_of(graph, node), mark);
            leaves_file(graph, made, node, mark) && !(is_marked(marks, node) && !graph.soft_dropped)
        }
    }
}

/// Whether none of these hard prerequisites is a reason, by their marks, of which those behind stay.
fn leave_hard(
    keeping: bool,
    graph: &Graph,
    marks: &[bool],
    made: Option<i128>,
    nodes: &[u32],
    kept: &mut Kept<'_>,
) -> bool
    ensures all { result ≡ list_all (leaves_hard keeping graph.now marks.now made) (with_marks nodes.now kept.old) }
    ensures behind { result ≡ true → kept.new ≡ marks_behind nodes.now kept.old }
{
    for node in nodes {
        let mark = kept.take_mark();
        if !leaves_hard(keeping, graph, marks, made, *node as usize, mark) {
            return false;
        }
    }
    true
}

/// Whether none of the hidden prerequisites of a node is one, by these marks.
fn leave_hidden(
    keeping: bool,
    graph: &Graph,
    marks: &[bool],
    made: Option<i128>,
    node: usize,
    kept: &mut Kept<'_>,
) -> bool
    requires { node < length graph.now.nodes.items }
    ensures { result ≡ list_all (leaves_hidden keeping graph.now marks.now made) (with_marks (hidden_of graph.now node) kept.old) }
{
    for hidden in graph.hidden(node) {
        let mark = kept.take_mark();
        if !leaves_hidden(keeping, graph, marks, made, hidden, mark) {
            return false;
        }
    }
    true
}

/// Whether none of the prerequisites of a node is one, by these marks.
fn leave_prerequisites(
    keeping: bool,
    graph: &Graph,
    marks: &[bool],
    made: Option<i128>,
    node: usize,
    kept: Kept<'_>,
) -> bool
    requires node { node < length graph.now.nodes.items }
    requires made { made ≡ made_of graph.now node }
    ensures { result ≡ leaves_prerequisites keeping graph.now marks.now node kept.entry }
{
    let mut left = kept;
    if !leave_hard(keeping, graph, marks, made, graph.hard.row(node), &mut left) {
        return false;
    }
    leave_hidden(keeping, graph, marks, made, node, &mut left)
}

/// Whether a file is the one that the recipe has left.
fn leaves_made(keeping: bool, look: Look, mark: Mark) -> bool
    ensures { result ≡ leaves_made keeping (look, mark) }
{
    !counted(keeping, look, mark).differs(look)
}

/// Whether the files that are made beside a node are those, by their marks, of which those behind stay.
fn leave_beside(keeping: bool, looks: &[Option<FileLook>], kept: &mut Kept<'_>) -> bool
    ensures all { result ≡ list_all (leaves_made keeping) (with_marks (map look_from looks.now) kept.old) }
    ensures behind { result ≡ true → kept.new ≡ marks_behind (map look_from looks.now) kept.old }
{
    for look in looks {
        let mark = kept.take_mark();
        if !leaves_made(keeping, look_from(*look), mark) {
            return false;
        }
    }
    true
}

/// Whether all that the recipe of a node makes is as it has left it, by the marks, of which those behind stay.
fn leave_made(keeping: bool, graph: &Graph, node: usize, kept: &mut Kept<'_>) -> bool
    ensures all { result ≡ list_all (leaves_made keeping) (with_marks (looks_made graph.now node) kept.old) }
    ensures behind { result ≡ true → kept.new ≡ marks_behind (looks_made graph.now node) kept.old }
{
    let mark = kept.take_mark();
    if !leaves_made(keeping, look_of(graph, node), mark) {
        return false;
    }
    leave_beside(keeping, looks_beside(graph, node), kept)
}

/// Whether the name of a hidden prerequisite is UTF-8, where it is a node.
fn has_text_name(graph: &Graph, hidden: Option<usize>) -> bool
    ensures { result ≡ has_text_name graph.now hidden }
{
    match hidden {
        None => true,
        Some(node) => is_text_name(name_of(graph, node)),
    }
}

fn have_text_names(graph: &Graph, node: usize) -> bool
    requires { node < length graph.now.nodes.items }
    ensures { result ≡ list_all (has_text_name graph.now) (hidden_of graph.now node) }
{
    for hidden in graph.hidden(node) {
        if !has_text_name(graph, hidden) {
            return false;
        }
    }
    true
}

/// Whether the names of the hidden prerequisites of a node are no reason, where it may be known that all names are UTF-8.
fn are_readable(keeping: bool, texts: bool, graph: &Graph, node: usize) -> bool
    requires node { node < length graph.now.nodes.items }
    requires texts { texts ≡ true → HasTextNames graph.now }
    ensures { result ≡ (not keeping || list_all (has_text_name graph.now) (hidden_of graph.now node)) }
{
    if texts {
        return true;
    }
    !keeping || have_text_names(graph, node)
}

/// Whether the explicit prerequisites of a node are those that are recorded, where they are.
fn is_explicit(graph: &Graph, node: usize, entry: &PackedEntry, recorded: bool) -> bool
    requires node { node < length graph.now.nodes.items }
    requires recorded { recorded ≡ is_as_recorded graph.now node entry.now }
    ensures { result ≡ is_explicit graph.now node entry.now }
{
    if recorded {
        return true;
    }
    match entry.explicit() {
        None => true,
        Some(names) => are_names_of(graph, graph.explicit(node), names),
    }
}

fn is_done(phase: Phase) -> bool
    ensures { result ≡ is_done phase }
{
    match phase {
        Phase::Begun => false,
        Phase::Done => true,
        Phase::Failed(_) => false,
    }
}

/// Whether the entry is that of a recipe that was run to its end, with a node's source and explicit prerequisites.
fn is_kept(
    graph: &Graph,
    node: usize,
    entry: &PackedEntry,
    source_changed: bool,
    recorded: bool,
) -> bool
    requires node { node < length graph.now.nodes.items }
    requires source { source_changed ≡ (noted_in graph.now node entry.now).source_changed }
    requires recorded { recorded ≡ is_as_recorded graph.now node entry.now }
    ensures { result ≡ is_kept graph.now node entry.now }
{
    is_done(entry.phase()) && !source_changed && is_explicit(graph, node, entry, recorded)
}

/// Whether neither the entry that the state has of a node nor one of its files is a reason to make it. Both ask whether the names are
/// those that are recorded, which is found out once.
pub fn gives_no_reason(
    keeping: bool,
    texts: bool,
    graph: &Graph,
    marks: &[bool],
    node: usize,
    entry: &PackedEntry,
) -> bool
    requires node { node < length graph.now.nodes.items }
    requires texts { texts ≡ true → HasTextNames graph.now }
    requires entry { entry_of graph.now node ≡ Some entry.now }
    ensures { result ≡ (is_kept graph.now node entry.now && leaves_all keeping graph.now marks.now node) }
{
    let Noted {
        source_changed,
        mut kept,
    } = noted_in(graph, node, entry);
    let recorded = is_as_recorded(graph, node, entry, source_changed);
    if !is_kept(graph, node, entry, source_changed, recorded) {
        return false;
    }
    let made = made_of(graph, node);
    if made.is_none() {
        return false;
    }
    if !leave_made(keeping, graph, node, &mut kept) {
        return false;
    }
    let left = marks_left(graph, node, entry, recorded, kept);
    leave_prerequisites(keeping, graph, marks, made, node, left)
        && are_readable(keeping, texts, graph, node)
}
