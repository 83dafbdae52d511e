//! From a makefile's items to its graph.
ghost use Rattle.std.specs.List.{IsDistinct};
ghost use Rattle.std.specs.Str.{bytes_eq};
ghost use Rattle.std.specs.Prelude.{◌≡◌, ◌≤◌, ◌||◌, ℕ, List, Option, length, map, is_ok, is_some, unwrap_or, true, false, [], IsTrue, IfOk, IfErr, IfSome, OnOk};
ghost use Rattle.std.specs.FinMap as finmap;
ghost use Rattle.mk_graph.specs.Edges.{is_closed};
ghost use Rattle.mk_names.specs.Names.{name_at};
ghost use Rattle.mk_graph.specs.Numbering.{AreDescribed};
ghost use Rattle.mk_rules.specs.Found.{AreFound, IsFindingFault, IsGraphlessFault};
ghost use Rattle.mk_edges.specs.Known.{IsKnown};
ghost use Rattle.mk_nodes.specs.Node.{EachHasOneNumber};
ghost use Rattle.mk_rules.specs.Nodes.{IsNamedOf};
ghost use Rattle.mk_rules.specs.Assembly.{IsPutTogether};
ghost use Rattle.mk_sources.specs.Looks.{Looks, any_name};
ghost use Rattle.mk_makefile.specs.Table.{is_named, named_at};
ghost use Rattle.mk_sources.specs.Tree.{AskedOnce};
ghost use Rattle.mk_macros.specs.Ranks.{defined_by};
ghost use Rattle.mk_profile.specs.Profile.{is_wide};
ghost use Rattle.mk_rule_lines.specs.Explicit.{numbers_of};
ghost use Rattle.mk_rule_lines.specs.Lines.{behind_items};
ghost use Rattle.mk_rule_lines.specs.Rules.{suffixes_of};
ghost use Rattle.mk_makefile.specs.Taken.{AreTaken};
ghost use Rattle.mk_nodes.specs.Prerequisites.{Inputs, inputs_of, is_target, prerequisites_of};
ghost use Rattle.mk_settings.specs.Goals.{goals_of};
ghost use Rattle.mk_nodes.specs.Graph.{IsGraph, AreUnmade};
ghost use Rattle.st_state.specs.State.{StateMap};
ghost use Rattle.mk_rules.specs.Faults.{AreInputs, IsGraphFault, IsRuleFault};
ghost use Rattle.mk_nodes.specs.declared.file_look.FileLook.{FileLook};

use crate::finder::{Finder, expected};
use crate::nodes::{Named, named_nodes};
use crate::unmade::unmade_nodes;
use byte_strings::ByteStrings;
use mk_edges::{Ordered, ordered_by, parted_rows, required_edges, soft_edges};
use mk_graph::{Numbered, NumberingFault, Parts, number};
use mk_macros::Macros;
use mk_makefile::{Makefile, TargetTable};
use mk_nodes::{Graph, Node};
use mk_profile::Profile;
use mk_reader::Item;
use mk_rule_lines::{RuleFault, RuleLine};
use mk_settings::{Settings, goals_of};
use mk_sources::{Rules, Tree, default_of, links_of, steps_of};
use st_state::State;
use std::alloc::{AllocError, Global};

/// Numbers the names that the goals lead to, and gathers what is found of each.
fn found_names<T: Tree>(
    alloc: Global,
    finder: &mut Finder<T>,
    goals: &ByteStrings,
    limit: usize,
) -> Result<Numbered<Node>, RuleFault>
    requires { (n : List ℕ) → ¬ (T.firsts finder.old.tree.now n) }
    ensures found { IfOk result (λ n. (looks : List ℕ → Option FileLook) → T.allows finder.new.tree.now looks
        → AreFound (inputs_of finder.old.rules.lines.now (finmap.get finder.old.rules.state.now) looks) goals.now n) }
    ensures row_count { IfOk result (λ n. length n.rows ≡ length n.names) }
    ensures node_count { IfOk result (λ n. length n.nodes.items ≡ length n.names) }
    ensures closed { IfOk result (λ n. IsTrue (is_closed n.rows)) }
    ensures few { IfOk result (λ n. length n.names ≤ limit) }
    ensures goals { IfOk result (λ n. map (name_at n.names) n.goals.items ≡ goals.now) }
    ensures fault { IfErr result (λ fault. (looks : List ℕ → Option FileLook) → T.allows finder.new.tree.now looks
        → IsFindingFault (inputs_of finder.old.rules.lines.now (finmap.get finder.old.rules.state.now) looks) (T.refuses finder.new.tree.now)
        goals.now limit fault) }
    ensures same { finder.new.tree.ghost_name ≡ finder.old.tree.ghost_name }
    ensures looks { Looks (T.allows finder.old.tree.now) (T.allows finder.new.tree.now) (T.refuses finder.old.tree.now) (T.refuses finder.new.tree.now)
        (T.asked finder.old.tree.now) (T.asked finder.new.tree.now) any_name any_name }
{
    match number(alloc, finder, goals, limit) {
        Ok(numbered) => Ok(numbered),
        Err(NumberingFault::OutOfMemory) => Err(RuleFault::OutOfMemory),
        Err(NumberingFault::TooMany) => Err(RuleFault::TooMany),
        Err(NumberingFault::Source(cause)) => Err(cause),
    }
}

/// The names that the goals lead to, with what was found of each.
fn numbered_names<T: Tree>(
    alloc: Global,
    rules: Rules,
    tree: &mut T,
    goals: &ByteStrings,
    limit: usize,
) -> Result<Numbered<Node>, RuleFault>
    ensures found { IfOk result (λ n. (looks : List ℕ → Option FileLook) → T.allows tree.new looks
        → AreFound (inputs_of rules.entry.lines.now (finmap.get rules.entry.state.now) looks) goals.now n) }
    ensures row_count { IfOk result (λ n. length n.rows ≡ length n.names) }
    ensures node_count { IfOk result (λ n. length n.nodes.items ≡ length n.names) }
    ensures closed { IfOk result (λ n. IsTrue (is_closed n.rows)) }
    ensures few { IfOk result (λ n. length n.names ≤ limit) }
    ensures goals { IfOk result (λ n. map (name_at n.names) n.goals.items ≡ goals.now) }
    ensures fault { IfErr result (λ fault. (looks : List ℕ → Option FileLook) → T.allows tree.new looks
        → IsFindingFault (inputs_of rules.entry.lines.now (finmap.get rules.entry.state.now) looks) (T.refuses tree.new) goals.now limit fault) }
    ensures names { IfOk result (λ n. IsDistinct bytes_eq n.names) }
    ensures narrows { (looks : List ℕ → Option FileLook) → T.allows tree.new looks → T.allows tree.old looks }
    ensures asked { AskedOnce (T.asked tree.old) (λ _. true) (T.asked tree.new) }
{
    tree.begin(alloc, expected(&rules).names.min(limit))?;
    let mut finder = Finder { rules, tree };
    found_names(alloc, &mut finder, goals, limit)
}

/// The graph of names that were found and ordered.
fn put_together(
    alloc: Global,
    lines: Vec<RuleLine>,
    targets: Option<TargetTable>,
    suffixes: ByteStrings,
    macros: Macros,
    named: Named,
    ordered: Ordered,
    state: State,
) -> Result<Graph, AllocError>
    requires names { EachHasOneNumber named.names }
    requires node_count { length named.nodes.items ≡ length named.names }
    requires hard_count { length ordered.hard ≡ length named.names }
    requires soft_count { length ordered.soft ≡ length named.names }
    requires hard_closed { IsTrue (is_closed ordered.hard) }
    requires required_count { length (unwrap_or ordered.required ordered.hard) ≡ length named.names }
    requires required_closed { IsTrue (is_closed (unwrap_or ordered.required ordered.hard)) }
    requires soft_closed { IsTrue (is_closed ordered.soft) }
    requires kept { is_some targets ≡ is_wide (defined_by macros).language }
    requires suffixes { suffixes ≡ suffixes_of lines.items }
    requires table { IfSome targets (λ t. (name : List ℕ) → (named_at t name).lines ≡ numbers_of lines.items name) }
    ensures graph { IfOk result (IsPutTogether lines.items named ordered state) }
    ensures count { IfOk result (λ graph. length graph.nodes.items ≡ length named.names) }
    ensures macros { IfOk result (λ graph. graph.macros ≡ macros) }
{
    let settings = Settings::of_lines(alloc, &lines)?;
    let Named {
        names,
        goals,
        nodes,
        unmade,
    } = named;
    let Ordered {
        hard,
        required,
        soft,
        order,
        soft_dropped,
    } = ordered;
    Ok(Graph {
        names,
        goals,
        nodes,
        unmade,
        hard,
        required,
        soft,
        order,
        soft_dropped,
        settings,
        lines,
        targets,
        suffixes,
        macros,
        state,
    })
}

/// The nodes of the names that were found, those of them that nothing makes, their edges, and the order that they make.
fn order_found(
    alloc: Global,
    lines: &[RuleLine],
    suffixes: &ByteStrings,
    numbered: Numbered<Node>,
    unmade: Vec<usize>,
) -> Result<(Named, Ordered), RuleFault>
    requires names { IsDistinct bytes_eq numbered.names }
    requires row_count { length numbered.rows ≡ length numbered.names }
    requires node_count { length numbered.nodes.items ≡ length numbered.names }
    requires closed { IsTrue (is_closed numbered.rows) }
    requires suffixes { suffixes.now ≡ suffixes_of lines.now }
    requires taken { AreTaken lines.now }
    requires unmade { (inputs : Inputs) → inputs.lines ≡ lines.now
        → AreDescribed (IsKnown inputs) numbered.names numbered.nodes.items → AreUnmade inputs numbered.names unmade.items }
    ensures named { IfOk result (λ of. IsNamedOf numbered unmade.items of.0) }
    ensures node_count { IfOk result (λ of. length of.0.nodes.items ≡ length of.0.names) }
    ensures hard_count { IfOk result (λ of. length of.1.hard ≡ length of.0.names) }
    ensures soft_count { IfOk result (λ of. length of.1.soft ≡ length of.0.names) }
    ensures hard_closed { IfOk result (λ of. IsTrue (is_closed of.1.hard)) }
    ensures required_count { IfOk result (λ of. length (unwrap_or of.1.required of.1.hard) ≡ length of.0.names) }
    ensures required_closed { IfOk result (λ of. IsTrue (is_closed (unwrap_or of.1.required of.1.hard))) }
    ensures soft_closed { IfOk result (λ of. IsTrue (is_closed of.1.soft)) }

    // What is put together of them is the graph.
    ensures graph { IfOk result (λ of. (inputs : Inputs) (named : List (List ℕ)) → inputs.lines ≡ lines.now
        → AreFound inputs (goals_of inputs.lines named) numbered → (state : StateMap) → finmap.get state ≡ inputs.entries
        → (graph : Graph) → IsPutTogether lines.now of.0 of.1 state graph → IsGraph inputs named graph) }
    ensures fault { IfErr result (λ fault. (inputs : Inputs) (named : List (List ℕ)) → inputs.lines ≡ lines.now
        → AreFound inputs (goals_of inputs.lines named) numbered → IsGraphlessFault inputs named fault) }
{
    let Parts {
        fronts: hard,
        backs: waited,
    } = parted_rows(alloc, &numbered)?;
    let required = required_edges(alloc, &hard, &numbered.names, &numbered.nodes)?;
    let soft = soft_edges(alloc, &numbered, waited, lines, suffixes)?;
    // The rows are let go before the order takes memory.
    let named = named_nodes(numbered, unmade);
    let ordered = ordered_by(alloc, &named.names, hard, required, soft)?;
    Ok((named, ordered))
}

/// The lines of a makefile, in the wide profile which of them make each name, and the suffixes.
fn parts_of(
    makefile: Makefile,
    profile: Profile,
) -> (Vec<RuleLine>, Option<TargetTable>, ByteStrings)
    ensures lines { result.0 ≡ makefile.lines }
    ensures suffixes { result.2 ≡ suffixes_of result.0.items }
    ensures kept { is_some result.1 ≡ is_wide profile }
    ensures table { IfSome result.1 (λ t. (name : List ℕ) → (named_at t name).lines ≡ numbers_of result.0.items name) }
{
    let Makefile {
        lines,
        targets,
        suffixes,
        ..
    } = makefile;
    if profile.is_wide() {
        (lines, Some(targets), suffixes)
    } else {
        (lines, None, suffixes)
    }
}

/// The graph of names that were found.
fn graph_of(
    alloc: Global,
    makefile: Makefile,
    macros: Macros,
    numbered: Numbered<Node>,
    state: State,
    goes_on: bool,
) -> Result<Graph, RuleFault>
    requires names { IsDistinct bytes_eq numbered.names }
    requires row_count { length numbered.rows ≡ length numbered.names }
    requires node_count { length numbered.nodes.items ≡ length numbered.names }
    requires closed { IsTrue (is_closed numbered.rows) }
    ensures graph { IfOk result (λ graph. (inputs : Inputs) (named : List (List ℕ)) → inputs.lines ≡ makefile.lines.items
        → finmap.get state ≡ inputs.entries → AreFound inputs (goals_of inputs.lines named) numbered → IsGraph inputs named graph) }
    ensures made { goes_on ≡ false → IfOk result (λ graph. graph.unmade.items ≡ []) }
    ensures count { IfOk result (λ graph. length graph.nodes.items ≡ length numbered.names) }
    ensures macros { IfOk result (λ graph. graph.macros ≡ macros) }
    ensures fault { IfErr result (λ fault. (inputs : Inputs) (named : List (List ℕ)) → inputs.lines ≡ makefile.lines.items
        → AreFound inputs (goals_of inputs.lines named) numbered → IsGraphlessFault inputs named fault) }
{
    let profile = macros.profile();
    let unmade = unmade_nodes(
        alloc,
        profile,
        &makefile.lines,
        &makefile.targets,
        &numbered,
        goes_on,
    )?;
    // The table is let go where nothing asks for it later, before the order takes memory.
    let (lines, targets, suffixes) = parts_of(makefile, profile);
    let numbered = numbered.shared(alloc);
    let (named, ordered) = order_found(alloc, &lines, &suffixes, numbered, unmade)?;
    Ok(put_together(
        alloc, lines, targets, suffixes, macros, named, ordered, state,
    )?)
}

/// The names that the goals of a makefile lead to, with what was found of each.
fn reached<T: Tree>(
    alloc: Global,
    makefile: &Makefile,
    goals: ByteStrings,
    tree: &mut T,
    state: &State,
    limit: usize,
) -> Result<Numbered<Node>, RuleFault>
    ensures found { IfOk result (λ n. (looks : List ℕ → Option FileLook) → T.allows tree.new looks
        → AreFound (inputs_of makefile.now.lines.items (finmap.get state.now) looks) (goals_of makefile.now.lines.items goals) n) }
    ensures row_count { IfOk result (λ n. length n.rows ≡ length n.names) }
    ensures node_count { IfOk result (λ n. length n.nodes.items ≡ length n.names) }
    ensures closed { IfOk result (λ n. IsTrue (is_closed n.rows)) }
    ensures few { IfOk result (λ n. length n.names ≤ limit) }
    ensures names { IfOk result (λ n. IsDistinct bytes_eq n.names) }
    ensures fault { IfErr result (λ fault. (looks : List ℕ → Option FileLook) → T.allows tree.new looks
        → IsGraphFault (inputs_of makefile.now.lines.items (finmap.get state.now) looks) (T.refuses tree.new) goals limit fault) }
    ensures narrows { (looks : List ℕ → Option FileLook) → T.allows tree.new looks → T.allows tree.old looks }
    ensures asked { AskedOnce (T.asked tree.old) (λ _. true) (T.asked tree.new) }
{
    let goals = goals_of(alloc, &makefile.lines, &makefile.suffixes, goals)?;
    let steps = steps_of(&makefile.lines);
    let links = links_of(alloc, &makefile.forms, steps)?;
    let rules = Rules {
        lines: &makefile.lines,
        targets: &makefile.targets,
        forms: &makefile.forms,
        state,
        steps,
        links: &links,
        default: default_of(&makefile.lines, &makefile.targets),
    };
    numbered_names(alloc, rules, tree, &goals, limit)
}

/// The graph of a makefile's items for these goals, or for the makefile's first target where none is named. It holds no more
/// names than the limit.
///
/// A name that isn't there and that nothing makes is refused, but where the run goes on without it: then the graph has its number.
///
/// It is the graph for any looks that agree with what the tree answered. The tree looks at a name once at most. The
/// macros take in the definitions of the makefile, and the graph keeps the state.
pub fn build<T: Tree>(
    alloc: Global,
    items: Vec<Item>,
    macros: Macros,
    goals: ByteStrings,
    tree: &mut T,
    state: State,
    limit: usize,
    goes_on: bool,
) -> Result<Graph, RuleFault>
    ensures graph { IfOk result (λ graph. (looks : List ℕ → Option FileLook) → T.allows tree.new looks → (inputs : Inputs)
        × AreInputs (defined_by macros) items.items looks (finmap.get state) inputs
        × IsGraph inputs goals graph) }
    ensures made { goes_on ≡ false → IfOk result (λ graph. graph.unmade.items ≡ []) }
    ensures few { IfOk result (λ graph. length graph.nodes.items ≤ limit) }
    ensures macros { IfOk result (λ graph. defined_by graph.macros ≡ behind_items (defined_by macros) items.items) }
    ensures fault { IfErr result (λ fault. (looks : List ℕ → Option FileLook) → T.allows tree.new looks
        → IsRuleFault (defined_by macros) items.items looks (finmap.get state) (T.refuses tree.new) goals limit fault) }
    ensures narrows { (looks : List ℕ → Option FileLook) → T.allows tree.new looks → T.allows tree.old looks }
    ensures asked { AskedOnce (T.asked tree.old) (λ _. true) (T.asked tree.new) }
{
    let mut macros = macros;
    let makefile = Makefile::of_items(alloc, items, &mut macros)?;
    let numbered = reached(alloc, &makefile, goals, tree, &state, limit)?;
    graph_of(alloc, makefile, macros, numbered, state, goes_on)
}
