//! One node of a graph passed: whether its recipe is to be run, and with which lines.
ghost use Rattle.std.specs.Prelude.{◌≡◌, ◌<◌, ℕ, true, Some, length, map, IfOk, IfErr};
ghost use Rattle.std.specs.List.{list_any};
ghost use Rattle.mk_nodes.specs.declared.graph.Graph.{Graph as Plan};
ghost use Rattle.mk_seen.specs.TextNames.{HasTextNames};
ghost use Rattle.mk_plan.specs.Parts.{recipe_of, recipe_line};
ghost use Rattle.mk_plan.specs.Passage.{is_listed};
ghost use Rattle.mk_plan.specs.Passing.{Passes, IsFaultAt, is_remade, told_in};

use crate::fault::RecipeFault;
use crate::finished::is_finished;
use crate::nodes::ends_remade;
use crate::parts::{parts_of, recipe_line};
use crate::recipe::lines_of;
use crate::target::judge_node;
use crate::why::Why;
use mk_nodes::Graph;
use mk_recipe::Line;
use mk_rule_lines::RuleLine;
use std::alloc::Global;

/// What passing a node comes to.
#[derive(Drop)]
pub enum Passed {
    /// Its recipe is listed, for a reason, and it counts as built.
    Listed(Why, Vec<Line>),
    /// It has no recipe, and counts as remade.
    Remade,
    /// It has a recipe that isn't to be run.
    UpToDate,
    /// It has no recipe, and doesn't count as remade.
    Left,
}

impl Passed {
    /// Whether its recipe is listed.
    pub fn is_listed(&self) -> bool
        ensures { (graph : Plan) (n : ℕ) → result ≡ list_any is_listed (told_in graph n self.now) }
    {
        match self {
            Passed::Listed(_why, _lines) => true,
            Passed::Remade => false,
            Passed::UpToDate => false,
            Passed::Left => false,
        }
    }

    /// Whether the node counts as remade.
    pub fn is_remade(&self) -> bool
        ensures { result ≡ is_remade self.now }
    {
        match self {
            Passed::Listed(_, _) => true,
            Passed::Remade => true,
            Passed::UpToDate => false,
            Passed::Left => false,
        }
    }
}

/// Passes a node that has a recipe.
fn pass_recipe(
    alloc: Global,
    keeping: bool,
    graph: &Graph,
    marks: &[bool],
    node: usize,
    recipe: &[&RuleLine],
) -> Result<Passed, RecipeFault>
    requires node { node < length graph.now.nodes.items }
    requires recipe { recipe_of graph.now node ≡ Some (map (λ l. l.now) recipe.now) }
    ensures passes { IfOk result (λ p. Passes keeping graph.now marks.now node (is_remade p) (told_in graph.now node p)) }
    ensures fault { IfErr result (IsFaultAt graph.now marks.now node) }
{
    let lines = lines_of(alloc, graph, marks, node, recipe)?;
    match judge_node(alloc, keeping, graph, marks, node, &lines)? {
        None => Ok(Passed::UpToDate),
        Some(why) => Ok(Passed::Listed(why, lines)),
    }
}

/// Passes a node whose recipe this line has, or begins.
fn pass_line(
    alloc: Global,
    keeping: bool,
    texts: bool,
    graph: &Graph,
    marks: &[bool],
    node: usize,
    line: &RuleLine,
) -> Result<Passed, RecipeFault>
    requires node { node < length graph.now.nodes.items }
    requires texts { texts ≡ true → HasTextNames graph.now }
    requires line { recipe_line graph.now node ≡ Some line.now }
    ensures passes { IfOk result (λ p. Passes keeping graph.now marks.now node (is_remade p) (told_in graph.now node p)) }
    ensures fault { IfErr result (IsFaultAt graph.now marks.now node) }
{
    if is_finished(alloc, keeping, texts, graph, marks, node, line)? {
        return Ok(Passed::UpToDate);
    }
    let recipe = parts_of(alloc, graph, node, line)?;
    pass_recipe(alloc, keeping, graph, marks, node, &recipe)
}

/// Passes a node, where the marks are those of the nodes that were remade before it, and where it may be known that all names are
/// UTF-8, which `has_text_names` tells.
pub fn pass_in(
    alloc: Global,
    keeping: bool,
    texts: bool,
    graph: &Graph,
    marks: &[bool],
    node: usize,
) -> Result<Passed, RecipeFault>
    requires node { node < length graph.now.nodes.items }
    requires texts { texts ≡ true → HasTextNames graph.now }
    ensures passes { IfOk result (λ p. Passes keeping graph.now marks.now node (is_remade p) (told_in graph.now node p)) }
    ensures fault { IfErr result (IsFaultAt graph.now marks.now node) }
{
    match recipe_line(graph, node) {
        Some(line) => pass_line(alloc, keeping, texts, graph, marks, node, line),
        None if ends_remade(graph, marks, node) => Ok(Passed::Remade),
        None => Ok(Passed::Left),
    }
}

/// As `pass_in`, of one node, where nothing is known of the names.
pub fn pass(
    alloc: Global,
    keeping: bool,
    graph: &Graph,
    marks: &[bool],
    node: usize,
) -> Result<Passed, RecipeFault>
    requires { node < length graph.now.nodes.items }
    ensures passes { IfOk result (λ p. Passes keeping graph.now marks.now node (is_remade p) (told_in graph.now node p)) }
    ensures fault { IfErr result (IsFaultAt graph.now marks.now node) }
{
    pass_in(alloc, keeping, false, graph, marks, node)
}
