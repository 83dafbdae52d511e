//! The graph of what a run is to make.
ghost use Rattle.std.specs.Prelude.{◌≡◌, ◌⊎◌, ℕ, List, [], Option, false, IfOk, IfErr};
ghost use Rattle.std.specs.FinMap as finmap;
ghost use Rattle.mk_rules.specs.Faults.{IsRuleFault};
ghost use Rattle.mk_rules.specs.Limit.{node_limit};
ghost use Rattle.mk_rule_lines.specs.declared.fault.RuleFault.{RuleFault as RulesFault};
ghost use Rattle.dmk_reading.specs.Definitions.{first_defined};
ghost use Rattle.dmk_reading.specs.Planned.{IsGraphOf};
ghost use Rattle.dmk_messages.specs.declared.fault.Fault.TheVariants as faults;
ghost use Rattle.dmk_store.specs.declared.stop.Stop.TheVariants as stops;
ghost use Rattle.mk_nodes.specs.declared.file_look.FileLook.{FileLook};

use crate::stop::Stop;
use bd_lists::Variable;
use byte_strings::ByteStrings;
use mk_nodes::Graph;
use mk_profile::Profile;
use mk_reader::Item;
use mk_rules::Tree;
use st_state::State;
use std::alloc::Global;

/// The graph of what is to be made, by this state. Unless the run goes on without them, a name that has no file and that nothing makes
/// is refused.
pub fn graph_of<T: Tree>(
    alloc: Global,
    profile: Profile,
    environment: &[Variable],
    definitions: &[Variable],
    targets: ByteStrings,
    tree: &mut T,
    items: Vec<Item>,
    state: State,
    goes_without: bool,
) -> Result<Graph, Stop>
    ensures graph { IfOk result (λ graph. (looks : List ℕ → Option FileLook) → T.allows tree.new looks
        → IsGraphOf profile definitions.now environment.now targets looks items.items state graph) }
    ensures made { goes_without ≡ false → IfOk result (λ graph. graph.unmade.items ≡ []) }
    ensures fault { IfErr result (λ stop. (stop ≡ stops.Before faults.OutOfMemory)
        ⊎ ((f : RulesFault) × (stop ≡ stops.Before (faults.Rules f))
        × ((looks : List ℕ → Option FileLook) → T.allows tree.new looks
        → IsRuleFault (first_defined profile definitions.now environment.now) items.items looks
        (finmap.get state) (T.refuses tree.new) targets (node_limit profile) f))) }
    ensures state { IfOk result (λ graph. graph.state ≡ state) }
    ensures looks { (looks : List ℕ → Option FileLook) → T.allows tree.new looks → T.allows tree.old looks }
{
    match dmk_reading::graph_of(
        alloc,
        profile,
        environment,
        definitions,
        targets,
        tree,
        items,
        state,
        goes_without,
    ) {
        Ok(graph) => Ok(graph),
        Err(fault) => Err(Stop::Before(fault)),
    }
}
