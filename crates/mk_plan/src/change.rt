//! What has changed where a target is out of date: what is recorded, and what stands in its place.
ghost use Rattle.std.specs.Prelude.{◌≡◌, ◌<◌, ◌++◌, length, find, option_to_list, IfOk, OnOk};
ghost use Rattle.std.specs.Option.{option_copied};
ghost use Rattle.mk_names.specs.Names.{has_name};
ghost use Rattle.mk_seen.specs.Nodes.{entry_of};
ghost use Rattle.mk_plan.specs.Change.{beside, change_of, changed_commands, changed_file, changed_files, changed_names, changed_prerequisite, commands_of, difference, is_other, kept_file, kept_look, kept_mark, names_marked, no_change, source_said};
ghost use Rattle.mk_plan.specs.ExplicitWords.{once_of};

use crate::part_words::once_of;
use byte_strings::{ByteStrings, Iter};
use mk_names::Names;
use mk_nodes::Graph;
use mk_recipe::Reason;
use mk_seen::{entry_of, name_of};
use mk_verdict::{Look, MadeFile, Mark, Prerequisite, Target};
use st_marks::{mark_text, read_marks};
use st_packed::PackedEntry;
use st_records::Named;
use std::alloc::{AllocError, Global};

/// What a reason speaks of, in a user's words.
pub struct Change {
    /// As it is recorded.
    pub was: ByteStrings,
    /// As it is now.
    pub is: ByteStrings,
}

impl Drop for Change {
    fn drop(self) {
        let Change { was: _, is: _ } = self;
    }
}

fn no_change(alloc: Global) -> Change
    ensures { result ≡ no_change }
{
    Change {
        was: ByteStrings::empty(alloc),
        is: ByteStrings::empty(alloc),
    }
}

fn push_if_any(texts: &mut ByteStrings, text: Option<&[u8]>) -> Result<(), AllocError>
    ensures { OnOk result (texts.new ≡ texts.old ++ option_to_list (option_copied text.entry)) }
{
    match text {
        Some(text) => texts.push(text),
        None => Ok(()),
    }
}

/// The first texts in which two lists differ, of the one and of the other.
fn difference<'s>(was: Iter<'s>, is: Iter<'s>) -> (Option<&'s [u8]>, Option<&'s [u8]>)
    ensures { (option_copied result.0, option_copied result.1) ≡ difference was.entry is.entry }
{
    let mut others = is;
    for one in was {
        match others.next() {
            Some(other) if one == other => {}
            other => return (Some(one), other),
        }
    }
    (None, others.next())
}

/// The commands that the state has of a node.
fn known_commands(graph: &Graph, node: usize) -> Iter<'_>
    ensures { result ≡ commands_of graph.now node }
{
    match entry_of(graph, node) {
        Some(entry) => entry.commands(),
        None => Iter::empty(),
    }
}

/// Of the first command that isn't what it was.
fn changed_commands(
    alloc: Global,
    graph: &Graph,
    node: usize,
    commands: &ByteStrings,
) -> Result<Change, AllocError>
    ensures { IfOk result (λ change. change ≡ changed_commands (commands_of graph.now node) commands.now) }
{
    let mut change = no_change(alloc);
    let (was, is) = difference(known_commands(graph, node), commands.iter());
    push_if_any(&mut change.was, was)?;
    push_if_any(&mut change.is, is)?;
    Ok(change)
}

fn kept_file(time: i128, size: u32) -> st_marks::Mark
    ensures { result ≡ kept_file time size }
{
    st_marks::Mark::file(time, u64::from(size))
}

/// What a look tells, as it would be recorded.
fn kept_look(look: Look) -> st_marks::Mark
    ensures { result ≡ kept_look look }
{
    match look {
        Look::NoFile => st_marks::Mark::NoFile,
        Look::Other => st_marks::Mark::Other,
        Look::File { time, size } => kept_file(time, size),
    }
}

fn kept_mark(mark: Mark) -> st_marks::Mark
    ensures { result ≡ kept_mark mark }
{
    match mark {
        Mark::NotKept | Mark::Unknown => st_marks::Mark::Unknown,
        Mark::Was(look) => kept_look(look),
    }
}

fn changed_file(alloc: Global, mark: Mark, look: Look) -> Result<Change, AllocError>
    ensures { IfOk result (λ change. change ≡ changed_file mark look) }
{
    let mut change = no_change(alloc);
    let was = mark_text(kept_mark(mark));
    let is = mark_text(kept_look(look));
    change.was.push(was.as_slice())?;
    change.is.push(is.as_slice())?;
    Ok(change)
}

/// The first file that isn't, or may not be, the one that its recipe has left.
fn first_other(files: &[MadeFile]) -> Option<&MadeFile>
    ensures { option_copied result ≡ find is_other files.now }
{
    files.iter().find(|file| file.mark.differs(file.look))
}

fn changed_files(alloc: Global, files: &[MadeFile]) -> Result<Change, AllocError>
    ensures { IfOk result (λ change. change ≡ changed_files files.now) }
{
    match first_other(files) {
        Some(file) => changed_file(alloc, file.mark, file.look),
        None => Ok(no_change(alloc)),
    }
}

fn changed_prerequisite(
    alloc: Global,
    prerequisite: Option<&Prerequisite<'_>>,
) -> Result<Change, AllocError>
    ensures { IfOk result (λ change. change ≡ changed_prerequisite (option_copied prerequisite.entry)) }
{
    match prerequisite {
        Some(prerequisite) => changed_file(alloc, prerequisite.mark, prerequisite.look),
        None => Ok(no_change(alloc)),
    }
}

/// The source that a text of marks has, if it is one and has one.
fn source_said(text: &[u8]) -> Option<&[u8]>
    ensures { option_copied result ≡ source_said text.now }
{
    match read_marks(text) {
        Some(said) => said.source,
        None => None,
    }
}

fn push_all(texts: &mut ByteStrings, more: Iter<'_>) -> Result<(), AllocError>
    ensures { OnOk result (texts.new ≡ texts.old ++ more.entry) }
{
    for text in more {
        texts.push(text)?;
    }
    Ok(())
}

/// The source and the explicit prerequisites that an entry has, where it has marks of them.
fn names_marked(alloc: Global, entry: &PackedEntry) -> Result<Option<ByteStrings>, AllocError>
    ensures { IfOk result (λ names. names ≡ names_marked entry.now.explicit) }
{
    let Named::Marked(explicit, text) = entry.lend() else {
        return Ok(None);
    };
    let mut names = ByteStrings::empty(alloc);
    push_if_any(&mut names, source_said(text))?;
    push_all(&mut names, explicit)?;
    Ok(Some(names))
}

fn hard_names(alloc: Global, graph: &Graph, node: usize) -> Result<ByteStrings, AllocError>
    requires { node < length graph.now.nodes.items }
    ensures { IfOk result (λ names. names ≡ once_of graph.now node) }
{
    let mut names = ByteStrings::empty(alloc);
    for prerequisite in graph.hard.row(node) {
        names.push(name_of(graph, *prerequisite as usize))?;
    }
    Ok(names)
}

fn is_among(table: &Names, name: &[u8]) -> bool
    ensures { result ≡ has_name table.now name.now }
{
    table.number_of(name).is_some()
}

/// Those of the names that aren't in a table.
fn not_in(alloc: Global, table: &Names, names: &ByteStrings) -> Result<ByteStrings, AllocError>
    ensures { IfOk result (λ left. left ≡ beside table.now names.now) }
{
    let mut left = ByteStrings::empty(alloc);
    for name in names.iter() {
        if !is_among(table, name) {
            left.push(name)?;
        }
    }
    Ok(left)
}

/// Those of the names that aren't among others.
fn beside(
    alloc: Global,
    others: &ByteStrings,
    names: &ByteStrings,
) -> Result<ByteStrings, AllocError>
    ensures { IfOk result (λ left. left ≡ beside others.now names.now) }
{
    let table = once_of(alloc, others)?;
    not_in(alloc, &table, names)
}

/// The prerequisites that went, and those that came, where an entry has marks of them.
fn changed_names(
    alloc: Global,
    graph: &Graph,
    node: usize,
    entry: Option<&PackedEntry>,
) -> Result<Change, AllocError>
    requires { node < length graph.now.nodes.items }
    ensures { IfOk result (λ change. change ≡ changed_names (once_of graph.now node) (option_copied entry.entry)) }
{
    let Some(entry) = entry else {
        return Ok(no_change(alloc));
    };
    let Some(recorded) = names_marked(alloc, entry)? else {
        return Ok(no_change(alloc));
    };
    let names = hard_names(alloc, graph, node)?;
    let was = beside(alloc, &names, &recorded)?;
    let is = beside(alloc, &recorded, &names)?;
    Ok(Change { was, is })
}

/// What has changed of a node that is out of date for this reason, and judged as this target.
pub(crate) fn change_of(
    alloc: Global,
    graph: &Graph,
    node: usize,
    target: &Target<'_>,
    reason: Reason,
) -> Result<Change, AllocError>
    requires { node < length graph.now.nodes.items }
    ensures { IfOk result (λ change. change ≡ change_of graph.now node target.now reason) }
{
    match reason {
        Reason::CommandsChanged => changed_commands(alloc, graph, node, target.commands),
        Reason::PrerequisitesChanged => changed_names(alloc, graph, node, entry_of(graph, node)),
        Reason::TargetChanged => changed_files(alloc, target.files),
        Reason::Changed(number) => changed_prerequisite(alloc, target.prerequisites.get(number)),
        _ => Ok(no_change(alloc)),
    }
}
