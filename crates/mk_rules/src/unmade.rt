//! Names that have no file, and that nothing makes.
ghost use Rattle.std.specs.Prelude.{◌≡◌, ◌<◌, ◌||◌, ℕ, List, length, codes, false, is_some, [], option_to_list, IfOk, IfErr, IfSome};
ghost use Rattle.mk_graph.specs.Edges.{has};
ghost use Rattle.mk_names.specs.Names.{name_at};
ghost use Rattle.mk_graph.specs.Numbering.{AreDescribed};
ghost use Rattle.mk_rule_lines.specs.Explicit.{explicit_targets};
ghost use Rattle.mk_rule_lines.specs.Rules.{recipe_places};
ghost use Rattle.mk_makefile.specs.Table.{is_named, named_at};
ghost use Rattle.mk_rules.specs.Found.{HasItInItsRow, IsUnmadeFault};
ghost use Rattle.mk_nodes.specs.Graph.{AreUnmade};
ghost use Rattle.mk_edges.specs.Known.{IsKnown};
ghost use Rattle.mk_nodes.specs.Prerequisites.{Inputs, is_target};

use byte_strings::ByteString;
use mk_graph::Numbered;
use mk_makefile::TargetTable;
use mk_nodes::Node;
use mk_profile::Profile;
use mk_rule_lines::{RuleFault, RuleLine, Unmade};
use mk_sources::default_of;
use std::alloc::{AllocError, Global};

/// Whether something is known to make a name: a file, an implicit rule, or a line.
fn is_made(targets: &TargetTable, name: &[u8], known: &Node) -> bool
    ensures { result ≡ (is_some known.now.stamp || (is_some known.now.rare.stem || is_named (named_at targets.now name.now))) }
{
    known.stamp.is_some() || known.stem().is_some() || targets.is_target(name)
}

fn has(numbers: &[u32], node: usize) -> bool
    ensures { result ≡ has numbers.now node }
{
    numbers.iter().any(|number| node == *number as usize)
}

/// The first name in number order that has this node as a prerequisite.
fn user_of(
    alloc: Global,
    numbered: &Numbered<Node>,
    node: usize,
) -> Result<Option<ByteString>, AllocError>
    requires { length numbered.now.rows ≡ length numbered.now.names }
    ensures { IfOk result (λ user. IfSome user (HasItInItsRow numbered.now.names numbered.now.rows node)) }
{
    for user in 0..numbered.rows.len() {
        if has(numbered.rows.row(user), node) {
            let name = ByteString::from_slice(alloc, numbered.names.name(user))?;
            return Ok(Some(name));
        }
    }
    Ok(None)
}

/// The name of a node that nothing makes, as it is told in this language.
fn unmade_at(
    alloc: Global,
    profile: Profile,
    numbered: &Numbered<Node>,
    node: usize,
) -> Result<Unmade, AllocError>
    requires count { length numbered.now.rows ≡ length numbered.now.names }
    requires node { node < length numbered.now.names }
    ensures name { IfOk result (λ unmade. unmade.name ≡ name_at numbered.now.names node) }
    ensures needed { IfOk result (λ unmade. IfSome unmade.needed_by (HasItInItsRow numbered.now.names numbered.now.rows node)) }
{
    let name = ByteString::from_slice(alloc, numbered.names.name(node))?;
    let mut needed_by = None;
    if profile.is_wide() {
        needed_by = user_of(alloc, numbered, node)?;
    }
    Ok(Unmade { name, needed_by })
}

/// The nodes that have no file, and that nothing makes. Where the run doesn't go on without them the first one is refused.
pub(crate) fn unmade_nodes(
    alloc: Global,
    profile: Profile,
    lines: &[RuleLine],
    targets: &TargetTable,
    numbered: &Numbered<Node>,
    goes_on: bool,
) -> Result<Vec<usize>, RuleFault>
    requires table { (name : List ℕ) → is_named (named_at targets.now name) ≡ is_target lines.now name }
    requires recipes { option_to_list (named_at targets.now (codes ".DEFAULT")).recipe ≡ recipe_places (explicit_targets lines.now) 0 lines.now (codes ".DEFAULT") }
    requires count { length numbered.now.nodes.items ≡ length numbered.now.names }
    requires rows { length numbered.now.rows ≡ length numbered.now.names }
    ensures unmade { IfOk result (λ unmade. (inputs : Inputs) → inputs.lines ≡ lines.now
        → AreDescribed (IsKnown inputs) numbered.now.names numbered.now.nodes.items → AreUnmade inputs numbered.now.names unmade.items) }
    ensures made { goes_on ≡ false → IfOk result (λ unmade. unmade.items ≡ []) }
    ensures fault { IfErr result (λ fault. (inputs : Inputs) → inputs.lines ≡ lines.now
        → AreDescribed (IsKnown inputs) numbered.now.names numbered.now.nodes.items
        → IsUnmadeFault inputs numbered.now.names numbered.now.rows fault) }
{
    let mut nodes = Vec::new(alloc);
    let default = default_of(lines, targets);
    if default.is_some() {
        return Ok(nodes);
    }
    for (node, known) in numbered.nodes.iter().enumerate() {
        let name = numbered.names.name(node);
        if is_made(targets, name, known) {
            continue;
        }
        if !goes_on {
            let unmade = unmade_at(alloc, profile, numbered, node)?;
            return Err(RuleFault::NoRule(unmade));
        }
        nodes.push(node)?;
    }
    Ok(nodes)
}
