//! The rule lines whose recipes make a node: one, or all of its lines with `::`.
ghost use Rattle.std.specs.Prelude.{◌≡◌, ℕ, List, ◌∷◌, [], map, option_map, IfOk};
ghost use Rattle.std.specs.Option.{option_copied};
ghost use Rattle.mk_names.specs.Names.{name_at};
ghost use Rattle.mk_makefile.specs.Doubles.{double_lines};
ghost use Rattle.mk_rule_lines.specs.Explicit.{numbers_of};
ghost use Rattle.mk_makefile.specs.Table.{named_at};
ghost use Rattle.mk_plan.specs.Parts.{language_of, recipe_line, is_part, parts_of, file_of, line_place};

use mk_makefile::{TargetTable, double_lines};
use mk_nodes::Graph;
use mk_rule_lines::RuleLine;
use mk_seen::name_of;
use std::alloc::{AllocError, Global};

/// The first line whose recipe makes a node.
pub fn recipe_line(graph: &Graph, node: usize) -> Option<&RuleLine>
    ensures { option_copied result ≡ recipe_line graph.now node }
{
    let number = graph.nodes.get(node)?.recipe.get()?;
    graph.lines.get(number)
}

/// Whether a recipe of the line stands beside those of other lines with `::`.
pub fn is_part(graph: &Graph, line: &RuleLine) -> bool
    ensures { result ≡ is_part (language_of graph.now) line.now }
{
    graph.macros.profile().is_wide() && line.is_double
}

/// The lines with `::` that have a recipe for a name.
fn double_parts<'g>(
    alloc: Global,
    lines: &'g [RuleLine],
    targets: &TargetTable,
    name: &[u8],
) -> Result<Vec<&'g RuleLine>, AllocError>
    requires { (n : List ℕ) → (named_at targets.now n).lines ≡ numbers_of lines.now n }
    ensures { IfOk result (λ parts. map (λ l. l.now) parts.items ≡ double_lines lines.now name.now) }
{
    double_lines(alloc, lines, targets.named(name).0)
}

fn one_part<'g>(alloc: Global, line: &'g RuleLine) -> Result<Vec<&'g RuleLine>, AllocError>
    ensures { IfOk result (λ parts. map (λ l. l.now) parts.items ≡ line.now ∷ []) }
{
    let mut parts = Vec::with_capacity(alloc, 1)?;
    parts.push(line)?;
    Ok(parts)
}

/// The lines whose recipes, one behind the other, are that of a node, where this one's is the first.
pub fn parts_of<'g>(
    alloc: Global,
    graph: &'g Graph,
    node: usize,
    line: &'g RuleLine,
) -> Result<Vec<&'g RuleLine>, AllocError>
    ensures { IfOk result (λ parts. map (λ l. l.now) parts.items
        ≡ parts_of (language_of graph.now) graph.now.lines.items (name_at graph.now.names node) line.now) }
{
    match &graph.targets {
        Some(targets) if line.is_double => {
            double_parts(alloc, &graph.lines, targets, name_of(graph, node))
        }
        _ => one_part(alloc, line),
    }
}

/// The file that holds the first of these lines, as it is told.
fn file_of(graph: &Graph, node: usize) -> Option<&[u8]>
    ensures { option_map (λ file. file.now) result ≡ file_of graph.now node }
{
    recipe_line(graph, node)?.told_file()
}

/// Where a line stands, as it is told.
#[derive(Clone, Copy)]
pub struct LinePlace<'a> {
    pub file: &'a [u8],
    pub line: usize,
}

/// Where the line of this number stands in the recipe of the first of a node's lines, where its file is told. Of those behind it no place
/// is told.
pub fn line_place(graph: &Graph, node: usize, number: usize) -> Option<LinePlace<'_>>
    ensures { option_map (λ p. (p.file.now, p.line)) result ≡ line_place graph.now node number }
{
    let file = file_of(graph, node)?;
    let line = recipe_line(graph, node)?.recipe.lines().get(number)?.line;
    Some(LinePlace { file, line })
}
