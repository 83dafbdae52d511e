//! A node as it is judged, but for its recipe.
ghost use Rattle.std.specs.Prelude.{◌≡◌, ◌<◌, ◌++◌, true, None, Some, length, map, IfOk, OnOk};
ghost use Rattle.mk_seen.specs.Marks.{files_of, look_from, looks_made, made_file, marks_behind, marks_of, noted_of, with_marks};
ghost use Rattle.mk_seen.specs.Nodes.{entry_of, hidden_of};
ghost use Rattle.mk_seen.specs.Seen.{seen_at, seen_hard, seen_hidden, seen_of, shown};

use crate::looks::{look_from, look_of, looks_beside, mark_counted};
use crate::marks::{is_as_recorded, marks_left, noted_in};
use crate::nodes::{entry_of, is_marked, name_of, stamp_of};
use mk_marks::{Kept, Noted};
use mk_nodes::{FileLook, Graph};
use mk_verdict::{Look, MadeFile, Mark, Prerequisite};
use st_packed::PackedEntry;
use std::alloc::{AllocError, Global};

/// The files of a node: what its recipe makes and what it is made from.
pub struct SeenFiles<'g> {
    /// Another source is recorded than it has now.
    pub source_changed: bool,
    /// Its own file, and those that its recipe makes beside it.
    pub files: Vec<MadeFile>,
    /// The hard prerequisites, then the hidden ones.
    pub prerequisites: Vec<Prerequisite<'g>>,
}

impl Drop for SeenFiles<'_> {
    fn drop(self) {
        let SeenFiles {
            source_changed: _,
            files: _,
            prerequisites: _,
        } = self;
    }
}

/// A prerequisite that is a node. It has a file or a rule, or else it would be none.
fn node_seen<'g>(
    graph: &'g Graph,
    marks: &[bool],
    node: usize,
    is_hidden: bool,
    mark: Mark,
) -> Prerequisite<'g>
    ensures { shown result ≡ seen_at graph.now marks.now is_hidden (Some node) mark }
{
    let look = look_of(graph, node);
    Prerequisite {
        name: name_of(graph, node),
        stamp: stamp_of(graph, node),
        is_hidden,
        has_rule: true,
        is_remade: is_marked(marks, node),
        look,
        mark: mark_counted(look, mark),
    }
}

/// A hidden prerequisite, which may be gone.
fn hidden_seen<'g>(
    graph: &'g Graph,
    marks: &[bool],
    hidden: Option<usize>,
    mark: Mark,
) -> Prerequisite<'g>
    ensures { shown result ≡ seen_at graph.now marks.now true hidden mark }
{
    match hidden {
        Some(node) => node_seen(graph, marks, node, true, mark),
        None => Prerequisite {
            name: &[],
            stamp: None,
            is_hidden: true,
            has_rule: false,
            is_remade: false,
            look: Look::NoFile,
            mark,
        },
    }
}

/// Adds the hard prerequisites with their marks, of which those behind stay.
fn push_hard<'g>(
    found: &mut Vec<Prerequisite<'g>>,
    graph: &'g Graph,
    marks: &[bool],
    nodes: &[u32],
    kept: &mut Kept<'_>,
) -> Result<(), AllocError>
    ensures found { OnOk result (map shown found.new.items
        ≡ map shown found.old.items ++ map (seen_hard graph.now marks.now) (with_marks nodes.now kept.old)) }
    ensures behind { OnOk result (kept.new ≡ marks_behind nodes.now kept.old) }
{
    for hard in nodes {
        let mark = kept.take_mark();
        found.push(node_seen(graph, marks, *hard as usize, false, mark))?;
    }
    Ok(())
}

/// Adds the hidden prerequisites of a node with these marks.
fn push_hidden<'g>(
    found: &mut Vec<Prerequisite<'g>>,
    graph: &'g Graph,
    marks: &[bool],
    node: usize,
    kept: &mut Kept<'_>,
) -> Result<(), AllocError>
    requires { node < length graph.now.nodes.items }
    ensures { OnOk result (map shown found.new.items
        ≡ map shown found.old.items ++ map (seen_hidden graph.now marks.now) (with_marks (hidden_of graph.now node) kept.old)) }
{
    for hidden in graph.hidden(node) {
        let mark = kept.take_mark();
        found.push(hidden_seen(graph, marks, hidden, mark))?;
    }
    Ok(())
}

/// The prerequisites of a node with these marks: the hard ones, then the hidden ones.
fn prerequisites_of<'g>(
    alloc: Global,
    graph: &'g Graph,
    marks: &[bool],
    node: usize,
    kept: Kept<'_>,
) -> Result<Vec<Prerequisite<'g>>, AllocError>
    requires node { node < length graph.now.nodes.items }
    requires kept { kept ≡ marks_of graph.now node }
    ensures { IfOk result (λ found. map shown found.items ≡ seen_of graph.now marks.now node) }
{
    let mut left = kept;
    let hard = graph.hard.row(node).len();
    let hidden = graph.nodes[node].hidden as usize;
    let mut found = Vec::with_capacity(alloc, hard.saturating_add(hidden))?;
    push_hard(&mut found, graph, marks, graph.hard.row(node), &mut left)?;
    push_hidden(&mut found, graph, marks, node, &mut left)?;
    Ok(found)
}

/// A file with this look and mark.
fn made_file(look: Look, mark: Mark) -> MadeFile
    ensures { result ≡ made_file (look, mark) }
{
    MadeFile {
        look,
        mark: mark_counted(look, mark),
    }
}

/// Adds the files that are made beside a node with their marks, of which those behind stay.
fn push_beside(
    files: &mut Vec<MadeFile>,
    looks: &[Option<FileLook>],
    kept: &mut Kept<'_>,
) -> Result<(), AllocError>
    ensures files { OnOk result (files.new.items ≡ files.old.items ++ map made_file (with_marks (map look_from looks.now) kept.old)) }
    ensures behind { OnOk result (kept.new ≡ marks_behind (map look_from looks.now) kept.old) }
{
    for look in looks {
        let mark = kept.take_mark();
        files.push(made_file(look_from(*look), mark))?;
    }
    Ok(())
}

/// What the recipe of a node makes, with these marks, of which those behind stay.
fn files_of(
    alloc: Global,
    graph: &Graph,
    node: usize,
    kept: &mut Kept<'_>,
) -> Result<Vec<MadeFile>, AllocError>
    ensures files { IfOk result (λ files. files.items ≡ map made_file (with_marks (looks_made graph.now node) kept.old)) }
    ensures behind { OnOk result (kept.new ≡ marks_behind (looks_made graph.now node) kept.old) }
{
    let mut files = Vec::new(alloc);
    let mark = kept.take_mark();
    files.push(made_file(look_of(graph, node), mark))?;
    push_beside(&mut files, looks_beside(graph, node), kept)?;
    Ok(files)
}

/// The files of a node of which the state has nothing.
fn files_alone<'g>(
    alloc: Global,
    graph: &'g Graph,
    marks: &[bool],
    node: usize,
) -> Result<SeenFiles<'g>, AllocError>
    requires node { node < length graph.now.nodes.items }
    requires none { entry_of graph.now node ≡ None }
    ensures source { IfOk result (λ seen. seen.source_changed ≡ (noted_of graph.now node).source_changed) }
    ensures files { IfOk result (λ seen. seen.files.items ≡ files_of graph.now node) }
    ensures prerequisites { IfOk result (λ seen. map shown seen.prerequisites.items ≡ seen_of graph.now marks.now node) }
{
    let mut kept = Kept::nothing(Mark::NotKept);
    let files = files_of(alloc, graph, node, &mut kept)?;
    let prerequisites = prerequisites_of(alloc, graph, marks, node, Kept::nothing(Mark::NotKept))?;
    Ok(SeenFiles {
        source_changed: false,
        files,
        prerequisites,
    })
}

/// The files of a node of which the state has this entry.
fn files_with<'g>(
    alloc: Global,
    graph: &'g Graph,
    marks: &[bool],
    node: usize,
    entry: &PackedEntry,
) -> Result<SeenFiles<'g>, AllocError>
    requires node { node < length graph.now.nodes.items }
    requires entry { entry_of graph.now node ≡ Some entry.now }
    ensures source { IfOk result (λ seen. seen.source_changed ≡ (noted_of graph.now node).source_changed) }
    ensures files { IfOk result (λ seen. seen.files.items ≡ files_of graph.now node) }
    ensures prerequisites { IfOk result (λ seen. map shown seen.prerequisites.items ≡ seen_of graph.now marks.now node) }
{
    let Noted {
        source_changed,
        mut kept,
    } = noted_in(graph, node, entry);
    let files = files_of(alloc, graph, node, &mut kept)?;
    let recorded = is_as_recorded(graph, node, entry, source_changed);
    let left = marks_left(graph, node, entry, recorded, kept);
    let prerequisites = prerequisites_of(alloc, graph, marks, node, left)?;
    Ok(SeenFiles {
        source_changed,
        files,
        prerequisites,
    })
}

/// The files of a node, each with its mark, where the state has one of it.
pub fn seen_files<'g>(
    alloc: Global,
    graph: &'g Graph,
    marks: &[bool],
    node: usize,
) -> Result<SeenFiles<'g>, AllocError>
    requires { node < length graph.now.nodes.items }
    ensures source { IfOk result (λ seen. seen.source_changed ≡ (noted_of graph.now node).source_changed) }
    ensures files { IfOk result (λ seen. seen.files.items ≡ files_of graph.now node) }
    ensures prerequisites { IfOk result (λ seen. map shown seen.prerequisites.items ≡ seen_of graph.now marks.now node) }
{
    match entry_of(graph, node) {
        None => files_alone(alloc, graph, marks, node),
        Some(entry) => files_with(alloc, graph, marks, node, entry),
    }
}
