//! The hidden prerequisites of a name, taken in behind the hard ones.
ghost use Rattle.std.specs.Prelude.{◌≡◌, ◌<◌, ℕ, List, Option, [], true, length, is_some, IfOk, IfErr, OnOk, MatchOption};
ghost use Rattle.std.specs.FinMap as map;
ghost use Rattle.mk_names.specs.Names.{name_at, added};
ghost use Rattle.mk_rule_lines.specs.Rules.{has};
ghost use Rattle.mk_nodes.specs.Prerequisites.{inputs_of, is_node, hidden_in};
ghost use Rattle.mk_sources.specs.Looks.{Looks};
ghost use Rattle.mk_rules.specs.NodeNotes.{AreKnownNodes};
ghost use Rattle.mk_rules.specs.Row.{named, IsRow, IsSomeRow};
ghost use Rattle.mk_nodes.specs.Hidden.{Takes, HasHidden, IsNamesFault};
ghost use Rattle.mk_nodes.specs.declared.file_look.FileLook.{FileLook};

use crate::mentioned::Mentioned;
use crate::node_notes::NodeNotes;
use byte_strings::Iter;
use mk_names::Names;
use mk_rule_lines::RuleFault;
use mk_sources::{Rules, Tree, is_node};
use std::alloc::Global;

/// The number of a hidden prerequisite that is a node; None where it is gone.
fn node_number<T: Tree>(
    alloc: Global,
    rules: &Rules,
    tree: &mut T,
    names: &mut Names,
    notes: &mut NodeNotes,
    name: &[u8],
) -> Result<Option<u32>, RuleFault>
    requires { (looks : List ℕ → Option FileLook) → T.allows tree.old looks
        → AreKnownNodes (is_node (inputs_of rules.now.lines.now (map.get rules.now.state.now) looks)) names.old notes.old.marks.items }
    ensures number { IfOk result (λ number. MatchOption number (names.new ≡ names.old) (λ n.
        (names.new ≡ added names.old name.now) × (n < length names.new) × (name_at names.new n ≡ name.now))) }
    ensures node { IfOk result (λ number. (looks : List ℕ → Option FileLook) → T.allows tree.new looks
        → is_some number ≡ is_node (inputs_of rules.now.lines.now (map.get rules.now.state.now) looks) name.now) }
    ensures noted { OnOk result ((looks : List ℕ → Option FileLook) → T.allows tree.new looks
        → AreKnownNodes (is_node (inputs_of rules.now.lines.now (map.get rules.now.state.now) looks)) names.new notes.new.marks.items) }
    ensures looks { Looks (T.allows tree.old) (T.allows tree.new) (T.refuses tree.old) (T.refuses tree.new) (T.asked tree.old) (T.asked tree.new) (T.firsts tree.old) (T.firsts tree.new) }
    ensures fault { IfErr result (λ fault. (hidden : List (List ℕ)) → has name.now hidden ≡ true → IsNamesFault (T.refuses tree.new) hidden fault) }
{
    let known = notes.number_of(names, name)?;
    if let Some(number) = known {
        return Ok(Some(number));
    }
    if !is_node(alloc, rules, tree, name)? {
        return Ok(None);
    }
    let number = notes.add(alloc, names, name)?;
    Ok(Some(number))
}

/// Takes in one hidden prerequisite, whose number isn't guessed.
#[inline(never)]
fn take_hidden<T: Tree>(
    alloc: Global,
    rules: &Rules,
    tree: &mut T,
    names: &mut Names,
    notes: &mut NodeNotes,
    mentioned: &mut Mentioned,
    name: &[u8],
) -> Result<(), RuleFault>
    requires noted { (looks : List ℕ → Option FileLook) → T.allows tree.old looks
        → AreKnownNodes (is_node (inputs_of rules.now.lines.now (map.get rules.now.state.now) looks)) names.old notes.old.marks.items }
    requires row { IsSomeRow names.old mentioned.old.nodes }
    ensures row { OnOk result ((start : List (List ℕ)) → IsRow start names.old mentioned.old.nodes → IsRow start names.new mentioned.new.nodes) }
    ensures taken { OnOk result ((looks : List ℕ → Option FileLook) → T.allows tree.new looks
        → Takes (is_node (inputs_of rules.now.lines.now (map.get rules.now.state.now) looks)) name.now (named names.old mentioned.old.nodes)
        (named names.new mentioned.new.nodes) mentioned.old.gone mentioned.new.gone mentioned.old.hidden mentioned.new.hidden) }
    ensures noted { OnOk result ((looks : List ℕ → Option FileLook) → T.allows tree.new looks
        → AreKnownNodes (is_node (inputs_of rules.now.lines.now (map.get rules.now.state.now) looks)) names.new notes.new.marks.items) }
    ensures looks { Looks (T.allows tree.old) (T.allows tree.new) (T.refuses tree.old) (T.refuses tree.new) (T.asked tree.old) (T.asked tree.new) (T.firsts tree.old) (T.firsts tree.new) }
    ensures fault { IfErr result (λ fault. (hidden : List (List ℕ)) → has name.now hidden ≡ true → IsNamesFault (T.refuses tree.new) hidden fault) }
{
    let number = node_number(alloc, rules, tree, names, notes, name)?;
    mentioned.add_hidden(alloc, names, name, number)?;
    Ok(())
}

/// Takes in hidden prerequisites behind the hard ones.
///
/// One that is guessed and known to be a node is taken in here, with a call for the others alone: that spares 54 of 838 million
/// instructions at 49,000 targets with 20 hidden names each, and costs 2.5 of 507 million without any (27 November 2026).
pub(crate) fn add_hidden<T: Tree>(
    alloc: Global,
    rules: &Rules,
    tree: &mut T,
    names: &mut Names,
    notes: &mut NodeNotes,
    mentioned: &mut Mentioned,
    hidden: &Iter<'_>,
) -> Result<(), RuleFault>
    requires noted { (looks : List ℕ → Option FileLook) → T.allows tree.old looks
        → AreKnownNodes (is_node (inputs_of rules.now.lines.now (map.get rules.now.state.now) looks)) names.old notes.old.marks.items }
    requires row { IsSomeRow names.old mentioned.old.nodes }
    requires gone { mentioned.old.gone ≡ [] }
    requires none { mentioned.old.hidden ≡ [] }
    ensures row { OnOk result ((start : List (List ℕ)) → IsRow start names.old mentioned.old.nodes → IsRow start names.new mentioned.new.nodes) }
    ensures hidden { OnOk result ((looks : List ℕ → Option FileLook) → T.allows tree.new looks
        → HasHidden (is_node (inputs_of rules.now.lines.now (map.get rules.now.state.now) looks)) (named names.old mentioned.old.nodes) hidden.now
        (named names.new mentioned.new.nodes) mentioned.new.hidden) }
    ensures noted { OnOk result ((looks : List ℕ → Option FileLook) → T.allows tree.new looks
        → AreKnownNodes (is_node (inputs_of rules.now.lines.now (map.get rules.now.state.now) looks)) names.new notes.new.marks.items) }
    ensures looks { Looks (T.allows tree.old) (T.allows tree.new) (T.refuses tree.old) (T.refuses tree.new) (T.asked tree.old) (T.asked tree.new) (T.firsts tree.old) (T.firsts tree.new) }
    ensures fault { IfErr result (IsNamesFault (T.refuses tree.new) hidden.now) }
{
    notes.followers.start();
    for name in hidden.iter() {
        match notes.guess(names, name) {
            Some(number) => mentioned.add_hidden(alloc, names, name, Some(number))?,
            None => take_hidden(alloc, rules, tree, names, notes, mentioned, name)?,
        }
    }
    Ok(())
}
