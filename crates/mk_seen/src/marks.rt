//! What the state has of each file of a node.
ghost use Rattle.std.specs.Prelude.{◌≡◌, ◌<◌, ℕ, List, length};
ghost use Rattle.std.specs.Option.{option_copied};
ghost use Rattle.mk_nodes.specs.Node.{hidden_by};
ghost use Rattle.mk_seen.specs.Marks.{has_same_names, is_as_recorded, looks_made, marks_behind, marks_in, marks_of, marks_text, noted_in, source_name};
ghost use Rattle.mk_seen.specs.Nodes.{hidden_of};
ghost use Rattle.st_records.specs.Parts.{names_known};

use crate::looks::looks_beside;
use crate::names::are_known;
use crate::nodes::{entry_of, name_of};
use byte_strings::Iter;
use mk_marks::{Kept, Noted, note_of};
use mk_nodes::{FileLook, Graph, Node};
use mk_verdict::Mark;
use st_packed::PackedEntry;
use st_records::Named;

/// The name of the source of a node, if an implicit rule gives it one.
fn source_name(graph: &Graph, node: usize) -> Option<&[u8]>
    requires { node < length graph.now.nodes.items }
    ensures { option_copied result ≡ source_name graph.now node }
{
    match graph.source(node) {
        Some(source) => Some(name_of(graph, source)),
        None => None,
    }
}

/// The text of the marks of an entry, if it has any, and its explicit prerequisites, as far as they are known.
fn text_and_names(entry: &PackedEntry) -> (Option<&[u8]>, Iter<'_>)
    ensures text { option_copied result.0 ≡ marks_text entry.now.explicit }
    ensures names { result.1 ≡ names_known entry.now.explicit }
{
    match entry.lend() {
        Named::Unknown => (None, Iter::empty()),
        Named::Known(names) => (None, names),
        Named::Marked(names, text) => (Some(text), names),
    }
}

/// What an entry has of the files of a node.
pub(crate) fn noted_in<'g>(graph: &'g Graph, node: usize, entry: &'g PackedEntry) -> Noted<'g>
    requires { node < length graph.now.nodes.items }
    ensures { result ≡ noted_in graph.now node entry.now }
{
    let (text, names) = text_and_names(entry);
    note_of(
        text,
        source_name(graph, node),
        looks_beside(graph, node).len(),
        names.len(),
        entry.hidden().len(),
    )
}

fn hidden_by(node: &Node) -> usize
    ensures { (soft : List ℕ) → result ≡ length (hidden_by node.now soft) }
{
    match node.rare.marks() {
        Some(marks) => marks.len(),
        None => node.hidden as usize,
    }
}

/// How many hidden prerequisites a node has that aren't hard ones.
fn hidden_count(graph: &Graph, node: usize) -> usize
    ensures { result ≡ length (hidden_of graph.now node) }
{
    match graph.nodes.get(node) {
        Some(node) => hidden_by(node),
        None => 0,
    }
}

/// Whether an entry has the prerequisites of a node as they are now.
fn has_same_names(
    graph: &Graph,
    node: usize,
    entry: &PackedEntry,
    names: Iter<'_>,
    source_changed: bool,
) -> bool
    requires node { node < length graph.now.nodes.items }
    requires names { names ≡ names_known entry.now.explicit }
    requires source { source_changed ≡ (noted_in graph.now node entry.now).source_changed }
    ensures { result ≡ has_same_names graph.now node entry.now }
{
    let explicit = graph.explicit(node);
    let hidden = entry.hidden();
    let recorded = names.len() as u128 + hidden.len() as u128;
    !source_changed
        && are_known(graph, explicit, names, hidden)
        && recorded == explicit.len() as u128 + hidden_count(graph, node) as u128
}

/// Whether an entry has marks, and the prerequisites of a node as they are now.
pub(crate) fn is_as_recorded(
    graph: &Graph,
    node: usize,
    entry: &PackedEntry,
    source_changed: bool,
) -> bool
    requires node { node < length graph.now.nodes.items }
    requires source { source_changed ≡ (noted_in graph.now node entry.now).source_changed }
    ensures { result ≡ is_as_recorded graph.now node entry.now }
{
    let (text, names) = text_and_names(entry);
    text.is_some() && has_same_names(graph, node, entry, names, source_changed)
}

/// Takes the marks of the files that are made beside a node.
fn pass_marks(looks: &[Option<FileLook>], kept: &mut Kept<'_>)
    ensures { kept.new ≡ marks_behind looks.now kept.old }
{
    for _look in looks {
        let _mark = kept.take_mark();
    }
}

/// The marks of the prerequisites of a node by this entry, where these are left behind the marks of what its recipe makes, and it is
/// known whether it has its prerequisites as they are.
pub(crate) fn marks_left<'g>(
    graph: &Graph,
    node: usize,
    entry: &PackedEntry,
    recorded: bool,
    left: Kept<'g>,
) -> Kept<'g>
    requires recorded { recorded ≡ is_as_recorded graph.now node entry.now }
    requires left { left ≡ marks_behind (looks_made graph.now node) (noted_in graph.now node entry.now).kept }
    ensures { result ≡ marks_in graph.now node entry.now }
{
    if recorded {
        return left;
    }
    // Where no marks are kept, names say nothing of them.
    let (text, _names) = text_and_names(entry);
    if text.is_none() {
        return left;
    }
    Kept::nothing(left.other)
}

/// The marks of the prerequisites of a node, the hard ones first.
pub fn marks_of(graph: &Graph, node: usize) -> Kept<'_>
    requires { node < length graph.now.nodes.items }
    ensures { result ≡ marks_of graph.now node }
{
    let Some(entry) = entry_of(graph, node) else {
        return Kept::nothing(Mark::NotKept);
    };
    let Noted {
        source_changed,
        mut kept,
    } = noted_in(graph, node, entry);
    let recorded = is_as_recorded(graph, node, entry, source_changed);
    let _own = kept.take_mark();
    pass_marks(looks_beside(graph, node), &mut kept);
    marks_left(graph, node, entry, recorded, kept)
}
