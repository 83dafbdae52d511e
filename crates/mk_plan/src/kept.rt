//! Whether a recipe gives just the commands that the state has, without a list of what it gives.
ghost use Rattle.std.specs.Prelude.{◌≡◌, ◌<◌, false, length, IfOk};
ghost use Rattle.std.specs.Bool.{OnTrue};
ghost use Rattle.mk_macros.specs.Ranks.{defined_by, meanings_of};
ghost use Rattle.mk_plan.specs.Finished.{GivesFirst, GivesCommands, PartGives};
ghost use Rattle.mk_plan.specs.Parts.{language_of, is_part};
ghost use Rattle.mk_plan.specs.Recipe.{AreRecipeWords};

use crate::recipe::names_for;
use crate::simple::{gives_simply, is_over};
use crate::words::{RecipeWords, explicit_names, recipe_words};
use byte_strings::Iter;
use mk_macros::{Dynamic, Macros};
use mk_nodes::Graph;
use mk_reader::RecipeLine;
use mk_recipe::kept_text;
use mk_rule_lines::RuleLine;
use std::alloc::{AllocError, Global};

/// Takes what a line gives the state to keep from the front of these commands; false where it doesn't stand there. A faulty line
/// gives nothing.
fn takes_first(
    alloc: Global,
    macros: &Macros,
    dynamic: &Dynamic<'_>,
    raw: &RecipeLine,
    commands: &mut Iter<'_>,
) -> bool
    ensures { OnTrue result (GivesFirst (meanings_of (defined_by macros.now) dynamic.now) raw.now commands.old commands.new) }
{
    let text = raw.text.as_slice();
    let Ok(expansion) = macros.expand(alloc, text, dynamic) else {
        return false;
    };
    match kept_text(macros.profile(), text, &expansion) {
        None => true,
        Some(kept) => match commands.next() {
            Some(command) => command == kept,
            None => false,
        },
    }
}

/// Whether these are the commands that the lines give the state to keep.
fn gives_commands(
    alloc: Global,
    macros: &Macros,
    dynamic: &Dynamic<'_>,
    recipe: &[RecipeLine],
    commands: Iter<'_>,
) -> bool
    ensures { OnTrue result (GivesCommands (meanings_of (defined_by macros.now) dynamic.now) recipe.now commands.entry) }
{
    let mut left = commands;
    for raw in recipe {
        if !takes_first(alloc, macros, dynamic, raw, &mut left) {
            return false;
        }
    }
    is_over(left)
}

/// Whether these are the commands that the recipe of a line gives the state to keep, where the words of its dynamic macros are these.
fn gives_with(
    alloc: Global,
    graph: &Graph,
    marks: &[bool],
    node: usize,
    line: &RuleLine,
    words: &RecipeWords<'_>,
    commands: Iter<'_>,
) -> bool
    requires node { node < length graph.now.nodes.items }
    requires words { AreRecipeWords graph.now marks.now node line.now words.now }
    ensures { OnTrue result (PartGives graph.now marks.now node line.now commands.entry) }
{
    let dynamic = Dynamic::RecipeLine(names_for(graph, marks, node, line, words));
    gives_commands(
        alloc,
        &graph.macros,
        &dynamic,
        line.recipe.lines(),
        commands,
    )
}

/// Whether these are the commands that the recipe gives the state to keep which a node has of this line alone.
fn is_expanded_so(
    alloc: Global,
    graph: &Graph,
    marks: &[bool],
    node: usize,
    line: &RuleLine,
    commands: Iter<'_>,
) -> Result<bool, AllocError>
    requires node { node < length graph.now.nodes.items }
    requires alone { is_part (language_of graph.now) line.now ≡ false }
    ensures { IfOk result (λ so. OnTrue so (PartGives graph.now marks.now node line.now commands.entry)) }
{
    let explicit = explicit_names(alloc, graph, node)?;
    let words = recipe_words(alloc, graph, marks, node, line, &explicit)?;
    Ok(gives_with(alloc, graph, marks, node, line, &words, commands))
}

/// As `is_expanded_so`. Most recipes that are up to date are found so without being expanded.
pub fn is_kept_so(
    alloc: Global,
    graph: &Graph,
    marks: &[bool],
    node: usize,
    line: &RuleLine,
    commands: &Iter<'_>,
) -> Result<bool, AllocError>
    requires node { node < length graph.now.nodes.items }
    requires alone { is_part (language_of graph.now) line.now ≡ false }
    ensures { IfOk result (λ so. OnTrue so (PartGives graph.now marks.now node line.now commands.now)) }
{
    if gives_simply(line.recipe.lines(), commands.iter()) {
        return Ok(true);
    }
    is_expanded_so(alloc, graph, marks, node, line, commands.iter())
}
