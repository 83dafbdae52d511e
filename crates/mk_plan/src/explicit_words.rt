//! What `$<` and `$*` stand for in a recipe of the target's own, where the wide profile has words for them.
ghost use Rattle.std.specs.Prelude.{◌≡◌, ◌<◌, length, slice_get};
ghost use Rattle.std.specs.Option.{option_copied};
ghost use Rattle.mk_rule_lines.specs.Explicit.{names_in};
ghost use Rattle.mk_lines.specs.Text.{is_empty};
ghost use Rattle.mk_plan.specs.Words.{implied_names};
ghost use Rattle.mk_plan.specs.ExplicitWords.{first_of, once_of, is_implicit, first_prerequisite, without_suffix, stem_left, has_words, lacks_source, source_word, stem_word};

use crate::parts::is_part;
use byte_strings::ByteStrings;
use mk_nodes::Graph;
use mk_rule_lines::{RuleLine, is_bar, is_default_rule, is_wait};
use mk_seen::{name_of, source_of, stem_of};

/// Whether an implicit rule makes a node.
fn is_implicit(graph: &Graph, node: usize) -> bool
    ensures { result ≡ is_implicit graph.now node }
{
    match graph.nodes.get(node) {
        Some(node) => node.stem().is_some(),
        None => false,
    }
}

/// The first prerequisite of a line.
fn first_in(line: &RuleLine) -> Option<&[u8]>
    ensures { option_copied result ≡ slice_get (names_in line.now) 0 }
{
    for word in line.prerequisites.iter() {
        if is_bar(line.profile, word) {
            return None;
        }
        if !is_wait(word) {
            return Some(word);
        }
    }
    None
}

/// The first of all prerequisites of a node.
fn first_hard(graph: &Graph, node: usize) -> &[u8]
    requires { node < length graph.now.nodes.items }
    ensures { result.now ≡ first_of (once_of graph.now node) }
{
    match graph.hard.row(node) {
        [first, ..] => name_of(graph, *first as usize),
        [] => &[],
    }
}

fn first_prerequisite<'g>(graph: &'g Graph, node: usize, line: &'g RuleLine) -> &'g [u8]
    requires { node < length graph.now.nodes.items }
    ensures { result.now ≡ first_prerequisite graph.now node line.now }
{
    match first_in(line) {
        Some(name) => name,
        None if is_part(graph, line) => &[],
        None => first_hard(graph, node),
    }
}

/// What stands before the suffix, where something does.
fn without_suffix<'n>(name: &'n [u8], suffix: &[u8]) -> Option<&'n [u8]>
    ensures { option_copied result ≡ without_suffix name.now suffix.now }
{
    let stem = name.strip_suffix(suffix)?;
    if stem.is_empty() {
        return None;
    }
    Some(stem)
}

/// What the first suffix leaves of a name that leaves something.
fn stem_left<'n>(suffixes: &ByteStrings, name: &'n [u8]) -> &'n [u8]
    ensures { result.now ≡ stem_left suffixes.now name.now }
{
    for suffix in suffixes.iter() {
        if let Some(stem) = without_suffix(name, suffix) {
            return stem;
        }
    }
    &[]
}

/// Whether the recipe of a node is its own, and in the wide profile.
fn has_words(graph: &Graph, node: usize) -> bool
    ensures { result ≡ has_words graph.now node }
{
    graph.macros.profile().is_wide() && !is_implicit(graph, node)
}

/// Whether no implicit rule gives a node prerequisites.
fn gives_none(graph: &Graph, node: usize) -> bool
    requires { node < length graph.now.nodes.items }
    ensures { result ≡ is_empty (implied_names graph.now node) }
{
    match graph.implied(node) {
        [_, ..] => false,
        [] => true,
    }
}

/// Whether no implicit rule gives a node a source, in the wide profile.
fn lacks_source(graph: &Graph, node: usize) -> bool
    requires { node < length graph.now.nodes.items }
    ensures { result ≡ lacks_source graph.now node }
{
    graph.macros.profile().is_wide() && gives_none(graph, node)
}

/// The value of `$<` in the part of a node's recipe that this line has.
pub fn source_word<'g>(graph: &'g Graph, node: usize, line: &'g RuleLine) -> &'g [u8]
    requires { node < length graph.now.nodes.items }
    ensures { result.now ≡ source_word graph.now node line.now }
{
    if is_default_rule(line.special) {
        return name_of(graph, node);
    }
    if lacks_source(graph, node) {
        return first_prerequisite(graph, node, line);
    }
    source_of(graph, node)
}

/// The value of `$*` in the recipe of a node.
pub fn stem_word(graph: &Graph, node: usize) -> &[u8]
    ensures { result.now ≡ stem_word graph.now node }
{
    if has_words(graph, node) {
        return stem_left(&graph.suffixes, name_of(graph, node));
    }
    stem_of(graph, node)
}
