//! Whether a node is up to date, found in one walk over its files and its recipe, without a list of either.
ghost use Rattle.std.specs.Prelude.{◌≡◌, ◌<◌, ◌∷◌, [], true, false, length, Some, IfOk};
ghost use Rattle.std.specs.Bool.{OnTrue};
ghost use Rattle.mk_names.specs.Names.{name_at};
ghost use Rattle.mk_seen.specs.TextNames.{HasTextNames};
ghost use Rattle.mk_plan.specs.Parts.{recipe_line};
ghost use Rattle.mk_plan.specs.Passage.{finished};
ghost use Rattle.mk_plan.specs.Passing.{Passes};

use crate::kept::is_kept_so;
use crate::parts::is_part;
use mk_nodes::Graph;
use mk_rule_lines::RuleLine;
use mk_seen::{entry_of, gives_no_reason};
use std::alloc::{AllocError, Global};

/// Whether a node is found to be up to date whose recipe this line has, or begins, where the marks are those of the nodes that were
/// remade before it. The answer no says nothing: a fault of its recipe is told, and a reason, where its lines are made.
pub fn is_finished(
    alloc: Global,
    keeping: bool,
    texts: bool,
    graph: &Graph,
    marks: &[bool],
    node: usize,
    line: &RuleLine,
) -> Result<bool, AllocError>
    requires node { node < length graph.now.nodes.items }
    requires texts { texts ≡ true → HasTextNames graph.now }
    requires line { recipe_line graph.now node ≡ Some line.now }
    ensures { IfOk result (λ so. OnTrue so (Passes keeping graph.now marks.now node false (finished (name_at graph.now.names node) ∷ []))) }
{
    let Some(entry) = entry_of(graph, node) else {
        return Ok(false);
    };
    if is_part(graph, line) || !gives_no_reason(keeping, texts, graph, marks, node, entry) {
        return Ok(false);
    }
    is_kept_so(alloc, graph, marks, node, line, &entry.commands())
}
