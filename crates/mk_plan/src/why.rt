//! Why a recipe is to be run, by the verdict on its target.
ghost use Rattle.std.specs.Prelude.{◌≡◌, ◌<◌, length, map, IfOk, OnOk};
ghost use Rattle.std.specs.Option.{option_copied};
ghost use Rattle.mk_names.specs.Names.{all_added, name_at};
ghost use Rattle.mk_nodes.specs.Prerequisites.{hidden_in};
ghost use Rattle.mk_verdict.specs.Told.{words_for};
ghost use Rattle.mk_seen.specs.Nodes.{entry_of};
ghost use Rattle.mk_plan.specs.Why.{IsJudgedSo, gone_number, gone_words, is_none_left, judged_names, words_of};

use crate::change::{Change, change_of};
use byte_strings::ByteString;
use mk_names::Names;
use mk_nodes::Graph;
use mk_seen::{entry_of, name_of};
use mk_verdict::{Look, Mark, Prerequisite, Reason, Target, Told, Verdict, judge};
use std::alloc::{AllocError, Global};

/// Why a recipe is to be run.
pub struct Why {
    pub reason: Reason,
    /// The reason in a user's words.
    pub words: ByteString,
    /// What it speaks of.
    pub change: Change,
}

impl Drop for Why {
    fn drop(self) {
        let Why {
            reason: _,
            words: _,
            change: _,
        } = self;
    }
}

fn displayed(alloc: Global, told: Told<'_>) -> Result<ByteString, AllocError>
    ensures { IfOk result (λ words. words ≡ words_for told.entry.prerequisites.now told.entry.reason) }
{
    let words = format!(in alloc; "{told}")?;
    ByteString::from_slice(alloc, words.as_bytes())
}

fn mention_nodes(
    alloc: Global,
    names: &mut Names,
    graph: &Graph,
    nodes: &[u32],
) -> Result<(), AllocError>
    ensures { OnOk result (names.new ≡ all_added names.old (map (name_at graph.now.names) nodes.now)) }
{
    for node in nodes {
        let _is_new = names.mention(alloc, name_of(graph, *node as usize))?;
    }
    Ok(())
}

fn mention_hidden(
    alloc: Global,
    names: &mut Names,
    graph: &Graph,
    node: usize,
) -> Result<(), AllocError>
    ensures { OnOk result (names.new ≡ all_added names.old (hidden_in (entry_of graph.now node))) }
{
    if let Some(entry) = entry_of(graph, node) {
        for name in entry.hidden() {
            let _is_new = names.mention(alloc, name)?;
        }
    }
    Ok(())
}

/// The names of a node's prerequisites as they are judged, also of those that are gone.
fn judged_names(alloc: Global, graph: &Graph, node: usize) -> Result<Names, AllocError>
    requires { node < length graph.now.nodes.items }
    ensures { IfOk result (λ names. names ≡ judged_names graph.now node) }
{
    let mut names = Names::new(alloc);
    mention_nodes(alloc, &mut names, graph, graph.hard.row(node))?;
    mention_hidden(alloc, &mut names, graph, node)?;
    Ok(names)
}

fn name_in(names: &Names, number: usize) -> &[u8]
    ensures { result.now ≡ name_at names.now number }
{
    if number < names.len() {
        names.name(number)
    } else {
        &[]
    }
}

/// The words for a hidden prerequisite that is gone. It is no node, so that its name stands in the state alone.
fn gone_words(
    alloc: Global,
    graph: &Graph,
    node: usize,
    number: usize,
) -> Result<ByteString, AllocError>
    requires { node < length graph.now.nodes.items }
    ensures { IfOk result (λ words. words ≡ gone_words graph.now node number) }
{
    let names = judged_names(alloc, graph, node)?;
    let gone = [Prerequisite {
        name: name_in(&names, number),
        stamp: None,
        is_hidden: true,
        has_rule: false,
        is_remade: false,
        look: Look::NoFile,
        mark: Mark::NotKept,
    }];
    displayed(alloc, Reason::HiddenGone(0).told(&gone))
}

/// Whether a prerequisite has neither a file nor a rule.
fn is_none_left(prerequisite: Option<&Prerequisite<'_>>) -> bool
    ensures { result ≡ is_none_left (option_copied prerequisite.entry) }
{
    match prerequisite {
        Some(prerequisite) => prerequisite.stamp.is_none() && !prerequisite.has_rule,
        None => false,
    }
}

/// The number of the gone prerequisite that a reason names.
fn gone_number(prerequisites: &[Prerequisite<'_>], reason: Reason) -> Option<usize>
    ensures { result ≡ gone_number prerequisites.now reason }
{
    match reason {
        Reason::HiddenGone(number) => Some(number),
        Reason::Changed(number) if is_none_left(prerequisites.get(number)) => Some(number),
        _ => None,
    }
}

/// The words for the reason why a node is out of date that is judged as this target.
fn words_of(
    alloc: Global,
    graph: &Graph,
    node: usize,
    target: &Target<'_>,
    reason: Reason,
) -> Result<ByteString, AllocError>
    requires { node < length graph.now.nodes.items }
    ensures { IfOk result (λ words. words ≡ words_of graph.now node target.now reason) }
{
    match gone_number(target.prerequisites, reason) {
        Some(number) => gone_words(alloc, graph, node, number),
        None => displayed(alloc, reason.told(target.prerequisites)),
    }
}

/// Why the recipe of a node is to be run that is judged as this target; None where it is up to date.
pub fn why_of(
    alloc: Global,
    keeping: bool,
    graph: &Graph,
    node: usize,
    target: &Target<'_>,
) -> Result<Option<Why>, AllocError>
    requires { node < length graph.now.nodes.items }
    ensures { IfOk result (IsJudgedSo keeping graph.now node target.now) }
{
    match judge(keeping, entry_of(graph, node), target) {
        Verdict::UpToDate => Ok(None),
        Verdict::OutOfDate(reason) => {
            let words = words_of(alloc, graph, node, target, reason)?;
            let change = change_of(alloc, graph, node, target, reason)?;
            Ok(Some(Why {
                reason,
                words,
                change,
            }))
        }
    }
}
