//! What is found of a name: what makes it, and what it is made from.
ghost use Rattle.std.specs.Prelude.{◌≡◌, ◌⊎◌, ℕ, List, Option, None, [], false, nat_lt, option_to_list, IfOk, IfErr, IsOk, IsErr, if◌then◌else◌};
ghost use Rattle.std.specs.FinMap as map;
ghost use Rattle.std.specs.List.{list_all};
ghost use Rattle.std.specs.Str.{is_utf8};
ghost use Rattle.mk_rule_lines.specs.Explicit.{is_phony};
ghost use Rattle.mk_nodes.specs.Prerequisites.{inputs_of, is_read, is_node, found_source, own_recipes};
ghost use Rattle.mk_sources.specs.Looks.{IsLookFault, Looks, and_this};
ghost use Rattle.mk_sources.specs.Search.{IsSearchFault};
ghost use Rattle.mk_nodes.specs.declared.file_look.FileLook.{FileLook};

use crate::look::{first_stamp_of, stamp_of};
use crate::rules::Rules;
use crate::source::is_there;
use crate::tree::Tree;
use mk_makefile::Source;
use mk_nodes::FileLook;
use mk_rule_lines::RuleFault;
use mk_short_names::is_short;
use std::alloc::Global;
use std::str;

/// Whether all are ASCII, as most names are: told faster than what a text of other bytes is.
fn is_plain(bytes: &[u8]) -> bool
    ensures { result ≡ list_all (λ b. nat_lt b 128) bytes.now }
{
    bytes.iter().all(|byte| *byte < 128)
}

#[tactic(auto, using(crate::proofs::AsciiLemmas::plain_is_text))]
fn is_utf8(bytes: &[u8]) -> bool
    ensures { result ≡ is_utf8 bytes.now }
{
    if is_plain(bytes) {
        return true;
    }
    match str::from_utf8(bytes) {
        Ok(_) => true,
        Err(_) => false,
    }
}

/// Whether the lines may have this name.
fn is_read(rules: &Rules, name: &[u8]) -> bool
    ensures { result ≡ is_read rules.now.lines.now name.now }
{
    rules.steps == 0 || is_short(name)
}

/// Whether a hidden prerequisite is a node.
pub fn is_node<T: Tree>(
    alloc: Global,
    rules: &Rules,
    tree: &mut T,
    name: &[u8],
) -> Result<bool, RuleFault>
    ensures node { IfOk result (λ node. (looks : List ℕ → Option FileLook) → T.allows tree.new looks
        → node ≡ is_node (inputs_of rules.now.lines.now (map.get rules.now.state.now) looks) name.now) }
    ensures looks { Looks (T.allows tree.old) (T.allows tree.new) (T.refuses tree.old) (T.refuses tree.new) (T.asked tree.old) (T.asked tree.new) (T.firsts tree.old) (T.firsts tree.new) }
    ensures fault { IfErr result (IsLookFault (T.refuses tree.new) name.now) }
    // A name that isn't text is neither asked for nor looked at.
    ensures unasked { is_utf8 name.now ≡ false → (tree.new ≡ tree.old) × IsOk result }
{
    if !is_utf8(name) {
        return Ok(false);
    }
    if !is_read(rules, name) {
        return Ok(false);
    }
    is_there(alloc, rules.targets, tree, name)
}

/// What is seen of a name. A phony one isn't looked at: it has no file.
pub(crate) fn seen_stamp<T: Tree>(
    alloc: Global,
    tree: &mut T,
    name: &[u8],
    is_phony: bool,
) -> Result<Option<FileLook>, RuleFault>
    ensures stamp { IfOk result (λ stamp. (looks : List ℕ → Option FileLook)
        → T.allows tree.new looks → stamp ≡ (if is_phony then None else looks name.now)) }
    ensures looks { Looks (T.allows tree.old) (T.allows tree.new) (T.refuses tree.old) (T.refuses tree.new) (T.asked tree.old) (T.asked tree.new) (T.firsts tree.old) (T.firsts tree.new) }
    ensures fault { IfErr result (IsLookFault (T.refuses tree.new) name.now) }
    ensures asked { IsErr result → is_phony ≡ false }
{
    if is_phony {
        return Ok(None);
    }
    stamp_of(alloc, tree, name)
}

/// The same of a name that the tree wasn't asked for first.
pub(crate) fn first_seen_stamp<T: Tree>(
    alloc: Global,
    tree: &mut T,
    name: &[u8],
    is_phony: bool,
) -> Result<Option<FileLook>, RuleFault>
    requires { ¬ (T.firsts tree.old name.now) }
    ensures stamp { IfOk result (λ stamp. (looks : List ℕ → Option FileLook)
        → T.allows tree.new looks → stamp ≡ (if is_phony then None else looks name.now)) }
    ensures looks { Looks (T.allows tree.old) (T.allows tree.new) (T.refuses tree.old) (T.refuses tree.new) (T.asked tree.old) (T.asked tree.new) (and_this name.now (T.firsts tree.old)) (T.firsts tree.new) }
    ensures fault { IfErr result (IsLookFault (T.refuses tree.new) name.now) }
    ensures asked { IsErr result → is_phony ≡ false }
{
    if is_phony {
        return Ok(None);
    }
    first_stamp_of(alloc, tree, name)
}

/// What the search for a source of the name finds, where it isn't phony and no line has a recipe for it: `own` is the number of the
/// line that has.
pub(crate) fn found_source<T: Tree>(
    alloc: Global,
    rules: &Rules,
    tree: &mut T,
    name: &[u8],
    own: Option<usize>,
    phony: bool,
) -> Result<Option<Source>, RuleFault>
    requires own { option_to_list own ≡ own_recipes rules.now.lines.now name.now }
    requires phony { phony ≡ is_phony rules.now.lines.now name.now }
    ensures source { IfOk result (λ found. (looks : List ℕ → Option FileLook) → T.allows tree.new looks
        → found ≡ found_source (inputs_of rules.now.lines.now (map.get rules.now.state.now) looks) name.now) }
    ensures looks { Looks (T.allows tree.old) (T.allows tree.new) (T.refuses tree.old) (T.refuses tree.new) (T.asked tree.old) (T.asked tree.new) (T.firsts tree.old) (T.firsts tree.new) }
    ensures fault { IfErr result (IsSearchFault rules.now.targets.now (T.allows tree.new) (T.refuses tree.new) rules.now.forms.now rules.now.steps name.now) }
    // Of a phony name, and beside a recipe of its own, no source is looked for.
    ensures unasked { ((is_phony rules.now.lines.now name.now ≡ false) × (own_recipes rules.now.lines.now name.now ≡ []))
        ⊎ ((tree.new ≡ tree.old) × IsOk result) }
{
    if phony {
        return Ok(None);
    }
    if own.is_some() {
        return Ok(None);
    }
    rules.source(alloc, tree, name)
}
