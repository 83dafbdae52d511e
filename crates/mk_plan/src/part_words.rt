//! The words of `$?`, `$^` and `$+` in the recipe of a line with `::`, which speak of the line's own prerequisites.
ghost use Rattle.std.specs.Prelude.{◌≡◌, ◌<◌, true, length, map, IfOk, OnOk};
ghost use Rattle.mk_names.specs.Names.{all_added};
ghost use Rattle.mk_rule_lines.specs.Explicit.{names_in};
ghost use Rattle.mk_nodes.specs.Prerequisites.{distinct};
ghost use Rattle.mk_plan.specs.Parts.{language_of, is_part};
ghost use Rattle.mk_plan.specs.PartTests.{is_named_and_newer, newer_among};
ghost use Rattle.mk_plan.specs.Recipe.{AreRecipeWords};

use crate::nodes::{is_newer_than, was_cut};
use crate::words::{RecipeWords, order_only_words};
use byte_strings::ByteStrings;
use mk_names::Names;
use mk_nodes::Graph;
use mk_rule_lines::{RuleLine, names_in};
use mk_seen::{made_of, marks_of, name_of};
use mk_verdict::Mark;
use std::alloc::{AllocError, Global};

/// The prerequisites of a line, as they are written and each once.
pub struct OwnNames {
    pub written: ByteStrings,
    pub once: Names,
}

impl Drop for OwnNames {
    fn drop(self) {
        let OwnNames {
            written: _,
            once: _,
        } = self;
    }
}

/// These names, each once.
pub fn once_of(alloc: Global, written: &ByteStrings) -> Result<Names, AllocError>
    ensures { IfOk result (λ once. once ≡ distinct written.now) }
{
    let mut once = Names::new(alloc);
    for name in written.iter() {
        let _new = once.mention(alloc, name)?;
    }
    Ok(once)
}

pub fn own_names(alloc: Global, line: &RuleLine) -> Result<OwnNames, AllocError>
    ensures written { IfOk result (λ own. own.written ≡ names_in line.now) }
    ensures once { IfOk result (λ own. own.once ≡ distinct (names_in line.now)) }
{
    let written = names_in(alloc, line)?;
    let once = once_of(alloc, &written)?;
    Ok(OwnNames { written, once })
}

fn written_words<'w>(alloc: Global, names: &'w ByteStrings) -> Result<Vec<&'w [u8]>, AllocError>
    ensures { IfOk result (λ words. map (λ word. word.now) words.items ≡ names.now) }
{
    let mut words = Vec::new(alloc);
    for name in names.iter() {
        words.push(name)?;
    }
    Ok(words)
}

fn once_words<'w>(alloc: Global, names: &'w Names) -> Result<Vec<&'w [u8]>, AllocError>
    ensures { IfOk result (λ words. map (λ word. word.now) words.items ≡ names.now) }
{
    let mut words = Vec::new(alloc);
    for number in 0..names.len() {
        words.push(names.name(number))?;
    }
    Ok(words)
}

/// Whether a prerequisite, of which the state has this mark, is among these names, and newer than a target that was made then, unless
/// its recipe was cut off.
fn is_newer_among(
    graph: &Graph,
    marks: &[bool],
    made: Option<i128>,
    was_cut: bool,
    names: &Names,
    prerequisite: usize,
    mark: Mark,
) -> bool
    ensures { result ≡ is_named_and_newer graph.now marks.now made was_cut names.now (prerequisite, mark) }
{
    names.number_of(name_of(graph, prerequisite)).is_some()
        && is_newer_than(graph, marks, made, was_cut, prerequisite, mark)
}

/// The hard prerequisites of a node that are newer and are among these names.
fn newer_among<'g>(
    alloc: Global,
    graph: &'g Graph,
    marks: &[bool],
    node: usize,
    names: &Names,
) -> Result<Vec<&'g [u8]>, AllocError>
    requires { node < length graph.now.nodes.items }
    ensures { IfOk result (λ words. map (λ word. word.now) words.items ≡ newer_among graph.now marks.now node names.now) }
{
    let mut words = Vec::new(alloc);
    let mut kept = marks_of(graph, node);
    let made = made_of(graph, node);
    let cut = was_cut(graph, node);
    for prerequisite in graph.hard.row(node) {
        let mark = kept.take_mark();
        let number = *prerequisite as usize;
        if is_newer_among(graph, marks, made, cut, names, number, mark) {
            words.push(name_of(graph, number))?;
        }
    }
    Ok(words)
}

/// The words of the dynamic macros in the part of a node's recipe that this line has, with these prerequisites.
pub fn part_words<'g>(
    alloc: Global,
    graph: &'g Graph,
    marks: &[bool],
    node: usize,
    line: &RuleLine,
    own: &'g OwnNames,
) -> Result<RecipeWords<'g>, AllocError>
    requires node { node < length graph.now.nodes.items }
    requires part { is_part (language_of graph.now) line.now ≡ true }
    requires written { own.now.written ≡ names_in line.now }
    requires once { own.now.once ≡ distinct (names_in line.now) }
    ensures { IfOk result (AreRecipeWords graph.now marks.now node line.now) }
{
    let newer = newer_among(alloc, graph, marks, node, &own.once)?;
    let once = once_words(alloc, &own.once)?;
    let repeated = written_words(alloc, &own.written)?;
    let order_only = order_only_words(alloc, graph, node)?;
    Ok(RecipeWords {
        newer,
        once: Some(once),
        repeated: Some(repeated),
        order_only,
    })
}
