//! The graph of what is to be made, and the one by which it is judged.
ghost use Rattle.std.specs.Prelude.{◌≡◌, ◌⊎◌, ℕ, List, [], Option, false, IfOk, IfErr};
ghost use Rattle.std.specs.FinMap as finmap;
ghost use Rattle.mk_rules.specs.Faults.{IsRuleFault};
ghost use Rattle.mk_rules.specs.Limit.{node_limit};
ghost use Rattle.mk_rule_lines.specs.declared.fault.RuleFault.{RuleFault as RulesFault};
ghost use Rattle.dmk_reading.specs.Definitions.{first_defined};
ghost use Rattle.dmk_reading.specs.Planned.{IsGraphOf, judged_graph};
ghost use Rattle.dmk_messages.specs.declared.fault.Fault.TheVariants as faults;
ghost use Rattle.mk_nodes.specs.declared.file_look.FileLook.{FileLook};

use crate::definitions::first_macros;
use bd_lists::Variable;
use byte_strings::ByteStrings;
use dmk_messages::Fault;
use mk_nodes::Graph;
use mk_profile::Profile;
use mk_reader::Item;
use mk_rules::{Tree, build, node_limit};
use st_records::HashKey;
use st_state::State;
use std::alloc::Global;

/// The graph of what is to be made, by this state. Unless the run goes on without them, a name that has no file and that nothing makes
/// is refused.
pub fn graph_of<T: Tree>(
    alloc: Global,
    profile: Profile,
    environment: &[Variable],
    definitions: &[Variable],
    targets: ByteStrings,
    tree: &mut T,
    items: Vec<Item>,
    state: State,
    goes_without: bool,
) -> Result<Graph, Fault>
    ensures graph { IfOk result (λ graph. (looks : List ℕ → Option FileLook) → T.allows tree.new looks
        → IsGraphOf profile definitions.now environment.now targets looks items.items state graph) }
    ensures made { goes_without ≡ false → IfOk result (λ graph. graph.unmade.items ≡ []) }
    ensures fault { IfErr result (λ fault. (fault ≡ faults.OutOfMemory)
        ⊎ ((f : RulesFault) × (fault ≡ faults.Rules f)
        × ((looks : List ℕ → Option FileLook) → T.allows tree.new looks
        → IsRuleFault (first_defined profile definitions.now environment.now) items.items looks
        (finmap.get state) (T.refuses tree.new) targets (node_limit profile) f))) }
    ensures state { IfOk result (λ graph. graph.state ≡ state) }
    ensures looks { (looks : List ℕ → Option FileLook) → T.allows tree.new looks → T.allows tree.old looks }
{
    let macros = first_macros(alloc, profile, definitions, environment)?;
    let limit = node_limit(profile);
    match build(
        alloc,
        items,
        macros,
        targets,
        tree,
        state,
        limit,
        goes_without,
    ) {
        Ok(graph) => Ok(graph),
        Err(fault) => Err(Fault::Rules(fault)),
    }
}

/// The graph by which targets are judged: where all are to be made, what is recorded of them is forgotten. It orders them still.
pub fn judged_graph(alloc: Global, key: HashKey, all: bool, graph: Graph) -> Graph
    ensures { result ≡ judged_graph all graph }
{
    if !all {
        return graph;
    }
    let mut judged = graph;
    judged.state = State::with_key(alloc, key);
    judged
}
