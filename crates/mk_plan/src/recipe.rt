//! The lines of a node's recipe, expanded.
ghost use Rattle.std.specs.Prelude.{◌≡◌, ◌<◌, true, false, length, map, option_copied, ◌++◌, OnOk, IfOk, IfErr};
ghost use Rattle.mk_macros.specs.Ranks.{defined_by, meanings_of};
ghost use Rattle.mk_macros.specs.Expansion.{ExpandsToFault};
ghost use Rattle.mk_plan.specs.Parts.{language_of, is_part};
ghost use Rattle.mk_plan.specs.Recipe.{IsExpandedLine, AreExpanded, IsLineFault, IsRecipeFault, IsToldAt, place_in, AreNames, AreRecipeWords, AreLinesIn, AreLinesOf, IsFaultOfPart, IsFaultOf};

use crate::explicit_words::{source_word, stem_word};
use crate::fault::RecipeFault;
use crate::part_words::{own_names, part_words};
use crate::parts::is_part;
use crate::words::{RecipeWords, as_words, explicit_names, recipe_words};
use byte_strings::ByteString;
use mk_macros::{Dynamic, MacroFault, Macros, RecipeNames};
use mk_nodes::Graph;
use mk_reader::RecipeLine;
use mk_recipe::{Line, split_line};
use mk_rule_lines::{RuleLine, TextFault, TextPlace};
use mk_seen::name_of;
use std::alloc::{AllocError, Global};

/// What a line of a recipe gives.
fn expanded_line(
    alloc: Global,
    macros: &Macros,
    dynamic: &Dynamic<'_>,
    raw: &RecipeLine,
) -> Result<Line, MacroFault>
    ensures line { IfOk result (IsExpandedLine (meanings_of (defined_by macros.now) dynamic.now) raw.now) }
    ensures fault { IfErr result (ExpandsToFault (meanings_of (defined_by macros.now) dynamic.now) raw.now.text) }
{
    let text = raw.text.as_slice();
    let expansion = macros.expand(alloc, text, dynamic)?;
    Ok(split_line(alloc, macros.profile(), text, &expansion)?)
}

/// The place of a line of this file, where the file is told.
fn place_in(
    alloc: Global,
    file: Option<&[u8]>,
    line: usize,
) -> Result<Option<TextPlace>, AllocError>
    ensures { IfOk result (λ place. place ≡ place_in (option_copied file.entry) line) }
{
    let Some(file) = file else {
        return Ok(None);
    };
    let file = ByteString::from_slice(alloc, file)?;
    Ok(Some(TextPlace { file, line }))
}

/// The fault of an expansion, told of this place.
fn fault_at(place: Option<TextPlace>, cause: MacroFault) -> RecipeFault
    ensures { IsToldAt place cause result }
{
    match cause {
        MacroFault::OutOfMemory => RecipeFault::OutOfMemory,
        cause => RecipeFault::Macro(TextFault { place, cause }),
    }
}

/// What a line of a recipe in this file gives.
fn line_in(
    alloc: Global,
    macros: &Macros,
    dynamic: &Dynamic<'_>,
    file: Option<&[u8]>,
    raw: &RecipeLine,
) -> Result<Line, RecipeFault>
    ensures line { IfOk result (IsExpandedLine (meanings_of (defined_by macros.now) dynamic.now) raw.now) }
    ensures fault { IfErr result (IsLineFault (meanings_of (defined_by macros.now) dynamic.now) (option_copied file.entry) raw.now) }
{
    match expanded_line(alloc, macros, dynamic, raw) {
        Ok(line) => Ok(line),
        Err(cause) => {
            let place = place_in(alloc, file, raw.line)?;
            Err(fault_at(place, cause))
        }
    }
}

fn expanded_lines(
    alloc: Global,
    macros: &Macros,
    dynamic: &Dynamic<'_>,
    file: Option<&[u8]>,
    recipe: &[RecipeLine],
) -> Result<Vec<Line>, RecipeFault>
    ensures lines { IfOk result (λ lines. AreExpanded (meanings_of (defined_by macros.now) dynamic.now) recipe.now lines.items) }
    ensures fault { IfErr result (IsRecipeFault (meanings_of (defined_by macros.now) dynamic.now) (option_copied file.entry) recipe.now) }
{
    let mut lines = Vec::with_capacity(alloc, recipe.len())?;
    for raw in recipe {
        lines.push(line_in(alloc, macros, dynamic, file, raw)?)?;
    }
    Ok(lines)
}

/// What the dynamic macros stand for in the part of a node's recipe that this line has.
pub fn names_for<'n>(
    graph: &'n Graph,
    marks: &[bool],
    node: usize,
    line: &'n RuleLine,
    words: &'n RecipeWords<'n>,
) -> RecipeNames<'n>
    requires node { node < length graph.now.nodes.items }
    requires words { AreRecipeWords graph.now marks.now node line.now words.now }
    ensures { AreNames graph.now marks.now node line.now result }
{
    RecipeNames {
        target: name_of(graph, node),
        source: source_word(graph, node, line),
        stem: stem_word(graph, node),
        newer: &words.newer,
        once: as_words(&words.once),
        repeated: as_words(&words.repeated),
        order_only: as_words(&words.order_only),
    }
}

/// The lines of a line's recipe, where the words of its dynamic macros are these.
fn lines_with(
    alloc: Global,
    graph: &Graph,
    marks: &[bool],
    node: usize,
    line: &RuleLine,
    words: &RecipeWords<'_>,
) -> Result<Vec<Line>, RecipeFault>
    requires node { node < length graph.now.nodes.items }
    requires words { AreRecipeWords graph.now marks.now node line.now words.now }
    ensures lines { IfOk result (λ lines. AreLinesIn graph.now marks.now node line.now lines.items) }
    ensures fault { IfErr result (IsFaultOfPart graph.now marks.now node line.now) }
{
    let dynamic = Dynamic::RecipeLine(names_for(graph, marks, node, line, words));
    expanded_lines(
        alloc,
        &graph.macros,
        &dynamic,
        line.told_file(),
        line.recipe.lines(),
    )
}

/// The lines of the recipe of a line with `::`.
fn part_lines(
    alloc: Global,
    graph: &Graph,
    marks: &[bool],
    node: usize,
    line: &RuleLine,
) -> Result<Vec<Line>, RecipeFault>
    requires node { node < length graph.now.nodes.items }
    requires part { is_part (language_of graph.now) line.now ≡ true }
    ensures lines { IfOk result (λ lines. AreLinesIn graph.now marks.now node line.now lines.items) }
    ensures fault { IfErr result (IsFaultOfPart graph.now marks.now node line.now) }
{
    let own = own_names(alloc, line)?;
    let words = part_words(alloc, graph, marks, node, line, &own)?;
    lines_with(alloc, graph, marks, node, line, &words)
}

/// The lines of the recipe that a node has of this line alone.
fn whole_lines(
    alloc: Global,
    graph: &Graph,
    marks: &[bool],
    node: usize,
    line: &RuleLine,
) -> Result<Vec<Line>, RecipeFault>
    requires node { node < length graph.now.nodes.items }
    requires alone { is_part (language_of graph.now) line.now ≡ false }
    ensures lines { IfOk result (λ lines. AreLinesIn graph.now marks.now node line.now lines.items) }
    ensures fault { IfErr result (IsFaultOfPart graph.now marks.now node line.now) }
{
    let explicit = explicit_names(alloc, graph, node)?;
    let words = recipe_words(alloc, graph, marks, node, line, &explicit)?;
    lines_with(alloc, graph, marks, node, line, &words)
}

/// The lines of the part of a node's recipe that this line has.
fn lines_in(
    alloc: Global,
    graph: &Graph,
    marks: &[bool],
    node: usize,
    line: &RuleLine,
) -> Result<Vec<Line>, RecipeFault>
    requires { node < length graph.now.nodes.items }
    ensures lines { IfOk result (λ lines. AreLinesIn graph.now marks.now node line.now lines.items) }
    ensures fault { IfErr result (IsFaultOfPart graph.now marks.now node line.now) }
{
    if is_part(graph, line) {
        return part_lines(alloc, graph, marks, node, line);
    }
    whole_lines(alloc, graph, marks, node, line)
}

fn append(lines: &mut Vec<Line>, more: Vec<Line>) -> Result<(), AllocError>
    ensures { OnOk result (lines.new.items ≡ lines.old.items ++ more.items) }
{
    let mut more = more;
    lines.append(&mut more)?;
    Ok(())
}

/// The lines of the recipe of a node, whose parts these lines have, where the marks are those of the nodes that were remade before it.
pub fn lines_of(
    alloc: Global,
    graph: &Graph,
    marks: &[bool],
    node: usize,
    recipe: &[&RuleLine],
) -> Result<Vec<Line>, RecipeFault>
    requires { node < length graph.now.nodes.items }
    ensures lines { IfOk result (λ lines. AreLinesOf graph.now marks.now node (map (λ l. l.now) recipe.now) lines.items) }
    ensures fault { IfErr result (IsFaultOf graph.now marks.now node (map (λ l. l.now) recipe.now)) }
{
    let mut lines = Vec::new(alloc);
    for line in recipe {
        append(&mut lines, lines_in(alloc, graph, marks, node, line)?)?;
    }
    Ok(lines)
}
