//! A node of a graph as it is judged.
ghost use Rattle.std.specs.Prelude.{◌≡◌, ◌<◌, length, IfOk};
ghost use Rattle.mk_verdict.specs.declared.verdict.Target.{Target as Judged};
ghost use Rattle.mk_plan.specs.Target.{IsTargetOf};
ghost use Rattle.mk_plan.specs.Why.{IsJudgedSo};

use crate::why::{Why, why_of};
use mk_nodes::Graph;
use mk_recipe::{Line, Target, recorded};
use mk_seen::{compared_of, made_of, seen_files};
use std::alloc::{AllocError, Global};

/// Why a node is to be made whose recipe these lines are; None where it is up to date.
pub fn judge_node(
    alloc: Global,
    keeping: bool,
    graph: &Graph,
    marks: &[bool],
    node: usize,
    lines: &[Line],
) -> Result<Option<Why>, AllocError>
    requires { node < length graph.now.nodes.items }
    ensures { IfOk result (λ why. (target : Judged) × (IsTargetOf graph.now marks.now node lines.now target
        × IsJudgedSo keeping graph.now node target why)) }
{
    let commands = recorded(alloc, lines)?;
    let explicit = compared_of(alloc, graph, node)?;
    let seen = seen_files(alloc, graph, marks, node)?;
    let target = Target {
        commands: &commands,
        explicit: &explicit,
        stamp: made_of(graph, node),
        prerequisites: &seen.prerequisites,
        orders_hidden: !graph.soft_dropped,
        source_changed: seen.source_changed,
        files: &seen.files,
    };
    why_of(alloc, keeping, graph, node, &target)
}
