//! The words of `$^`, `$+` and `$|`, which the wide profile has.
ghost use Rattle.std.specs.Prelude.{◌≡◌, ℕ, ◌<◌, false, List, ◌++◌, length, map, option_map, is_some, IfOk, IfSome};
ghost use Rattle.mk_names.specs.Names.{name_at};
ghost use Rattle.mk_macros.specs.Dynamic.{words_in};
ghost use Rattle.mk_profile.specs.Profile.{is_wide};
ghost use Rattle.mk_rule_lines.specs.Explicit.{numbers_of, explicit_of};
ghost use Rattle.mk_makefile.specs.Table.{named_at};
ghost use Rattle.mk_plan.specs.ExplicitWords.{once_of};
ghost use Rattle.mk_plan.specs.Parts.{language_of, is_part};
ghost use Rattle.mk_plan.specs.Recipe.{AreRecipeWords};
ghost use Rattle.mk_plan.specs.Words.{in_wide, implied_names, written_of, order_only_words};

use crate::nodes::newer_words;
use byte_strings::ByteStrings;
use mk_makefile::TargetTable;
use mk_nodes::Graph;
use mk_rule_lines::{RuleLine, explicit_of};
use mk_seen::name_of;
use std::alloc::{AllocError, Global};

/// The words of the dynamic macros of a recipe that have more than one.
pub struct RecipeWords<'g> {
    /// Those of `$?`.
    pub newer: Vec<&'g [u8]>,
    /// Those of `$^`, those of `$+`, and those of `$|`; None in the strict profile.
    pub once: Option<Vec<&'g [u8]>>,
    pub repeated: Option<Vec<&'g [u8]>>,
    pub order_only: Option<Vec<&'g [u8]>>,
}

impl Drop for RecipeWords<'_> {
    fn drop(self) {
        let RecipeWords {
            newer: _,
            once: _,
            repeated: _,
            order_only: _,
        } = self;
    }
}

/// The words as they are told, if there are any.
pub fn as_words<'w, 'g>(words: &'w Option<Vec<&'g [u8]>>) -> Option<&'w [&'g [u8]]>
    ensures { words_in result ≡ option_map (λ found. map (λ word. word.now) found.items) words.now }
{
    match words {
        Some(words) => Some(words.as_slice()),
        None => None,
    }
}

fn hard_words<'g>(alloc: Global, graph: &'g Graph, node: usize) -> Result<Vec<&'g [u8]>, AllocError>
    requires { node < length graph.now.nodes.items }
    ensures { IfOk result (λ words. map (λ word. word.now) words.items ≡ once_of graph.now node) }
{
    let mut words = Vec::new(alloc);
    for prerequisite in graph.hard.row(node) {
        words.push(name_of(graph, *prerequisite as usize))?;
    }
    Ok(words)
}

/// The words of `$^` for a node.
pub fn once_words<'g>(
    alloc: Global,
    graph: &'g Graph,
    node: usize,
) -> Result<Option<Vec<&'g [u8]>>, AllocError>
    requires { node < length graph.now.nodes.items }
    ensures { IfOk result (λ found. option_map (λ words. map (λ word. word.now) words.items) found
        ≡ in_wide (language_of graph.now) (once_of graph.now node)) }
{
    if !graph.macros.profile().is_wide() {
        return Ok(None);
    }
    Ok(Some(hard_words(alloc, graph, node)?))
}

/// The numbers of the lines that make a name.
fn numbers_of<'t>(lines: &[RuleLine], targets: &'t TargetTable, name: &[u8]) -> &'t [usize]
    requires { (n : List ℕ) → (named_at targets.now n).lines ≡ numbers_of lines.now n }
    ensures { result.now ≡ numbers_of lines.now name.now }
{
    targets.named(name).0
}

fn written_names(
    alloc: Global,
    lines: &[RuleLine],
    targets: &TargetTable,
    name: &[u8],
) -> Result<ByteStrings, AllocError>
    requires { (n : List ℕ) → (named_at targets.now n).lines ≡ numbers_of lines.now n }
    ensures { IfOk result (λ names. names ≡ explicit_of lines.now name.now) }
{
    explicit_of(alloc, lines, numbers_of(lines, targets, name))
}

/// The prerequisites of a node's lines as they are written, where `$+` has words.
pub fn explicit_names(
    alloc: Global,
    graph: &Graph,
    node: usize,
) -> Result<Option<ByteStrings>, AllocError>
    ensures wide { IfOk result (λ found. is_some found ≡ is_wide (language_of graph.now)) }
    ensures names { IfOk result (λ found. IfSome found
        (λ names. names ≡ explicit_of graph.now.lines.items (name_at graph.now.names node))) }
{
    match &graph.targets {
        Some(targets) => Ok(Some(written_names(
            alloc,
            &graph.lines,
            targets,
            name_of(graph, node),
        )?)),
        None => Ok(None),
    }
}

fn implied_words<'g>(
    alloc: Global,
    graph: &'g Graph,
    node: usize,
) -> Result<Vec<&'g [u8]>, AllocError>
    requires { node < length graph.now.nodes.items }
    ensures { IfOk result (λ words. map (λ word. word.now) words.items ≡ implied_names graph.now node) }
{
    let mut words = Vec::new(alloc);
    for prerequisite in graph.implied(node) {
        words.push(name_of(graph, *prerequisite as usize))?;
    }
    Ok(words)
}

fn written_words<'g>(
    alloc: Global,
    graph: &'g Graph,
    node: usize,
    explicit: &'g ByteStrings,
) -> Result<Vec<&'g [u8]>, AllocError>
    requires { node < length graph.now.nodes.items }
    ensures { IfOk result (λ words. map (λ word. word.now) words.items ≡ implied_names graph.now node ++ explicit.now) }
{
    let mut words = implied_words(alloc, graph, node)?;
    for name in explicit.iter() {
        words.push(name)?;
    }
    Ok(words)
}

/// What an implicit rule gives and these names, if there are any.
fn behind_implied<'g>(
    alloc: Global,
    graph: &'g Graph,
    node: usize,
    explicit: &'g Option<ByteStrings>,
) -> Result<Option<Vec<&'g [u8]>>, AllocError>
    requires { node < length graph.now.nodes.items }
    ensures { IfOk result (λ found. option_map (λ words. map (λ word. word.now) words.items) found
        ≡ option_map (λ names. implied_names graph.now node ++ names) explicit.now) }
{
    match explicit {
        Some(names) => Ok(Some(written_words(alloc, graph, node, names)?)),
        None => Ok(None),
    }
}

/// The words of `$+` for a node with these prerequisites by name.
pub fn repeated_words<'g>(
    alloc: Global,
    graph: &'g Graph,
    node: usize,
    explicit: &'g Option<ByteStrings>,
) -> Result<Option<Vec<&'g [u8]>>, AllocError>
    requires node { node < length graph.now.nodes.items }
    requires wide { is_some explicit.now ≡ is_wide (language_of graph.now) }
    requires names { IfSome explicit.now (λ names. names ≡ explicit_of graph.now.lines.items (name_at graph.now.names node)) }
    ensures { IfOk result (λ found. option_map (λ words. map (λ word. word.now) words.items) found
        ≡ in_wide (language_of graph.now) (written_of graph.now node)) }
{
    behind_implied(alloc, graph, node, explicit)
}

fn words_behind_the_bar<'g>(
    alloc: Global,
    graph: &'g Graph,
    node: usize,
) -> Result<Vec<&'g [u8]>, AllocError>
    requires { node < length graph.now.nodes.items }
    ensures { IfOk result (λ words. map (λ word. word.now) words.items ≡ order_only_words graph.now node) }
{
    let mut words = Vec::new(alloc);
    for prerequisite in graph.order_only(node) {
        words.push(name_of(graph, *prerequisite as usize))?;
    }
    Ok(words)
}

/// The words of `$|` for a node.
pub fn order_only_words<'g>(
    alloc: Global,
    graph: &'g Graph,
    node: usize,
) -> Result<Option<Vec<&'g [u8]>>, AllocError>
    requires { node < length graph.now.nodes.items }
    ensures { IfOk result (λ found. option_map (λ words. map (λ word. word.now) words.items) found
        ≡ in_wide (language_of graph.now) (order_only_words graph.now node)) }
{
    if graph.macros.profile().is_wide() {
        return Ok(Some(words_behind_the_bar(alloc, graph, node)?));
    }
    Ok(None)
}

/// The words of the dynamic macros in the recipe of a node that this line has alone, where the marks are those of the nodes that were
/// remade before it.
pub fn recipe_words<'g>(
    alloc: Global,
    graph: &'g Graph,
    marks: &[bool],
    node: usize,
    line: &RuleLine,
    explicit: &'g Option<ByteStrings>,
) -> Result<RecipeWords<'g>, AllocError>
    requires node { node < length graph.now.nodes.items }
    requires alone { is_part (language_of graph.now) line.now ≡ false }
    requires wide { is_some explicit.now ≡ is_wide (language_of graph.now) }
    requires names { IfSome explicit.now (λ names. names ≡ explicit_of graph.now.lines.items (name_at graph.now.names node)) }
    ensures { IfOk result (AreRecipeWords graph.now marks.now node line.now) }
{
    let newer = newer_words(alloc, graph, marks, node)?;
    let once = once_words(alloc, graph, node)?;
    let repeated = repeated_words(alloc, graph, node, explicit)?;
    let order_only = order_only_words(alloc, graph, node)?;
    Ok(RecipeWords {
        newer,
        once,
        repeated,
        order_only,
    })
}
