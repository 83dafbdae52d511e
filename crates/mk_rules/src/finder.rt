//! Names looked up one by one while they are numbered.
ghost use Rattle.std.specs.Prelude.{◌≡◌, ◌<◌, ◌++◌, ℕ, Bool, List, Option, [], length, map, is_some, nat_lt, true, IfOk, IfErr, OnOk};
ghost use Rattle.std.specs.FinMap as finmap;
ghost use Rattle.std.specs.List.{list_all, IsDistinct};
ghost use Rattle.std.specs.Option.{option_copied};
ghost use Rattle.std.specs.Str.{bytes_eq};
ghost use Rattle.mk_nodes.specs.Prerequisites.{inputs_of, is_node, hidden_in, prerequisites_of};
ghost use Rattle.mk_names.specs.Names.{name_at, all_added};
ghost use Rattle.mk_rule_lines.specs.Explicit.{numbers_of, explicit_of};
ghost use Rattle.mk_sources.specs.Looks.{Looks, and_this, any_name};
ghost use Rattle.mk_nodes.specs.Hidden.{IsNamesFault};
ghost use Rattle.mk_edges.specs.Known.{IsKnown};
ghost use Rattle.mk_sources.specs.Asked.{IsLookUpFault};
ghost use Rattle.mk_nodes.specs.Node.{hidden_marks};
ghost use Rattle.mk_rules.specs.NodeNotes.{AreKnownNodes};
ghost use Rattle.mk_rules.specs.Row.{named, IsRow, IsSomeRow};
ghost use Rattle.mk_sources.specs.Seen.{made_in, order_only_in, rare_in};
ghost use Rattle.mk_rules.specs.Completed.{IsAsSeen, IsNumberedAs};
ghost use Rattle.mk_nodes.specs.declared.file_look.FileLook.{FileLook};

use crate::distinct_numbers::DistinctNumbers;
use crate::explicit::mention_explicit;
use crate::followers::Followers;
use crate::hidden_marks::HiddenMarks;
use crate::mentioned::mention_names;
use crate::node_notes::NodeNotes;
use crate::recorded::{add_recorded, entry_of};
use mk_graph::{Dependencies, Expected};
use mk_names::Names;
use mk_nodes::{Node, RareParts};
use mk_rule_lines::RuleFault;
use mk_sources::{Given, Ruled, Rules, Seen, Tree, seen_of};
use st_packed::PackedEntry;
use std::alloc::{AllocError, Global};
use std::boxed::Box;

/// Room is taken for so many prerequisites of each target, the hidden ones among them. What isn't needed of it is never written.
const USUAL_PREREQUISITES: usize = 24;

#[inline(never)]
fn rare_of(given: Box<Given>) -> RareParts
    ensures { result ≡ given.value.rare }
{
    let Given { rare, .. } = Box::into_inner(given);
    rare
}

fn rare_in(given: Option<Box<Given>>) -> RareParts
    ensures { result ≡ rare_in given }
{
    match given {
        Some(given) => rare_of(given),
        None => RareParts::none(),
    }
}

/// A count of 32 bits. There is no memory for 2^32 or more.
fn short(count: usize) -> Result<u32, AllocError>
    ensures { IfOk result (λ short. short ≡ count) }
{
    u32::try_from(count).map_err(|_| AllocError)
}

/// The node of a name, of which the state has the entry before this place.
fn completed(
    alloc: Global,
    place: usize,
    seen: Seen,
    hard: usize,
    hidden: HiddenMarks,
) -> Result<Node, AllocError>
    ensures hidden { IfOk result (λ node. hidden_marks node ≡ hidden) }
    ensures hard { IfOk result (λ node. node.hard ≡ hard) }
    ensures node { IfOk result (IsAsSeen seen.entry) }
{
    let (stamp, ruled) = seen.into_parts();
    let Ruled { recipe, given } = ruled;
    let (hidden, marks) = hidden.into_parts();
    Ok(Node {
        stamp,
        rare: rare_in(given).with_marks(alloc, marks)?,
        hard: short(hard)?,
        hidden,
        recipe,
        place: u32::try_from(place.saturating_sub(1)).unwrap_or(0),
    })
}

/// Mentions what an implicit rule makes a name from.
fn mention_made(
    alloc: Global,
    names: &mut Names,
    followers: &mut Followers,
    numbers: &mut DistinctNumbers,
    given: &Option<Box<Given>>,
) -> Result<(), AllocError>
    requires { IsSomeRow names.old numbers.old }
    ensures row { OnOk result ((start : List (List ℕ)) → IsRow start names.old numbers.old → IsRow start names.new numbers.new) }
    ensures known { OnOk result ((is_node : List ℕ → Bool) (marks : List Bool) → AreKnownNodes is_node names.old marks → AreKnownNodes is_node names.new marks) }
    ensures named { OnOk result (named names.new numbers.new ≡ all_added (named names.old numbers.old) (made_in given.now)) }
{
    match given {
        Some(given) => mention_names(alloc, names, followers, numbers, &given.made),
        None => {
            followers.start();
            Ok(())
        }
    }
}

/// Mentions the order-only prerequisites of a name.
fn mention_order_only(
    alloc: Global,
    names: &mut Names,
    followers: &mut Followers,
    numbers: &mut DistinctNumbers,
    given: &Option<Box<Given>>,
) -> Result<(), AllocError>
    requires { IsSomeRow names.old numbers.old }
    ensures row { OnOk result ((start : List (List ℕ)) → IsRow start names.old numbers.old → IsRow start names.new numbers.new) }
    ensures known { OnOk result ((is_node : List ℕ → Bool) (marks : List Bool) → AreKnownNodes is_node names.old marks → AreKnownNodes is_node names.new marks) }
    ensures named { OnOk result (named names.new numbers.new ≡ all_added (named names.old numbers.old) (order_only_in given.now)) }
{
    match given {
        Some(given) => mention_names(alloc, names, followers, numbers, &given.order_only),
        None => {
            followers.start();
            Ok(())
        }
    }
}

/// Mentions the hard prerequisites of a name.
fn mention_hard(
    alloc: Global,
    rules: &Rules,
    names: &mut Names,
    notes: &mut NodeNotes,
    seen: &Seen,
) -> Result<(), AllocError>
    requires { IsSomeRow names.old notes.old.row }
    ensures row { OnOk result ((start : List (List ℕ)) → IsRow start names.old notes.old.row → IsRow start names.new notes.new.row) }
    ensures known { OnOk result ((is_node : List ℕ → Bool) → AreKnownNodes is_node names.old notes.old.marks.items → AreKnownNodes is_node names.new notes.new.marks.items) }
    ensures named { OnOk result ((name : List ℕ) → seen.now.lines.now ≡ numbers_of rules.now.lines.now name
        → named names.new notes.new.row ≡ all_added (named names.old notes.old.row) (made_in seen.now.ruled.given ++ explicit_of rules.now.lines.now name)) }
{
    mention_made(
        alloc,
        names,
        &mut notes.followers,
        &mut notes.row,
        &seen.ruled.given,
    )?;
    mention_explicit(
        alloc,
        names,
        &mut notes.followers,
        &mut notes.row,
        rules.lines,
        seen.lines,
    )?;
    Ok(())
}

/// The node of a name, whose row comes into the notes.
fn numbered<T: Tree>(
    alloc: Global,
    rules: &Rules,
    tree: &mut T,
    names: &mut Names,
    notes: &mut NodeNotes,
    seen: Seen,
    recorded: Option<&PackedEntry>,
) -> Result<Node, RuleFault>
    requires noted { (looks : List ℕ → Option FileLook) → T.allows tree.old looks
        → AreKnownNodes (is_node (inputs_of rules.now.lines.now (finmap.get rules.now.state.now) looks)) names.old notes.old.marks.items }
    requires distinct { IsDistinct bytes_eq names.old }
    ensures row { OnOk result (IsRow names.old names.new notes.new.row) }
    ensures prerequisites { IfOk result (λ node. (looks : List ℕ → Option FileLook) → T.allows tree.new looks
        → (name : List ℕ) → seen.entry.lines.now ≡ numbers_of rules.now.lines.now name
        → IsNumberedAs (is_node (inputs_of rules.now.lines.now (finmap.get rules.now.state.now) looks)) seen.entry
        (made_in seen.entry.ruled.given ++ explicit_of rules.now.lines.now name) (hidden_in (option_copied recorded.entry))
        (named names.new notes.new.row) node) }
    ensures noted { OnOk result ((looks : List ℕ → Option FileLook) → T.allows tree.new looks
        → AreKnownNodes (is_node (inputs_of rules.now.lines.now (finmap.get rules.now.state.now) looks)) names.new notes.new.marks.items) }
    ensures looks { Looks (T.allows tree.old) (T.allows tree.new) (T.refuses tree.old) (T.refuses tree.new) (T.asked tree.old) (T.asked tree.new) (T.firsts tree.old) (T.firsts tree.new) }
    ensures fault { IfErr result (IsNamesFault (T.refuses tree.new) (hidden_in (option_copied recorded.entry))) }
{
    notes.row.clear();
    mention_hard(alloc, rules, names, notes, &seen)?;
    let hard = notes.row.len();
    let hidden = add_recorded(alloc, rules, tree, names, notes, recorded)?;
    mention_order_only(
        alloc,
        names,
        &mut notes.followers,
        &mut notes.row,
        &seen.ruled.given,
    )?;
    Ok(completed(alloc, notes.place, seen, hard, hidden)?)
}

/// What the rules, the state and a tree say of the name with this number.
fn look_up<T: Tree>(
    alloc: Global,
    rules: &Rules,
    tree: &mut T,
    names: &mut Names,
    notes: &mut NodeNotes,
    number: usize,
) -> Result<Node, RuleFault>
    requires number { number < length names.old }
    requires noted { (looks : List ℕ → Option FileLook) → T.allows tree.old looks
        → AreKnownNodes (is_node (inputs_of rules.now.lines.now (finmap.get rules.now.state.now) looks)) names.old notes.old.marks.items }
    requires distinct { IsDistinct bytes_eq names.old }
    requires unasked { ¬ (T.firsts tree.old (name_at names.old number)) }
    ensures names { OnOk result (names.new ≡ all_added names.old (map (name_at names.new) notes.new.row)) }
    ensures numbers { OnOk result (list_all (λ n. nat_lt n (length names.new)) notes.new.row ≡ true) }
    ensures prerequisites { OnOk result ((looks : List ℕ → Option FileLook) → T.allows tree.new looks
        → map (name_at names.new) notes.new.row
        ≡ prerequisites_of (inputs_of rules.now.lines.now (finmap.get rules.now.state.now) looks) (name_at names.old number)) }
    ensures node { IfOk result (λ node. (looks : List ℕ → Option FileLook) → T.allows tree.new looks
        → IsKnown (inputs_of rules.now.lines.now (finmap.get rules.now.state.now) looks) (name_at names.old number) node) }
    ensures noted { OnOk result ((looks : List ℕ → Option FileLook) → T.allows tree.new looks
        → AreKnownNodes (is_node (inputs_of rules.now.lines.now (finmap.get rules.now.state.now) looks)) names.new notes.new.marks.items) }
    ensures looks { Looks (T.allows tree.old) (T.allows tree.new) (T.refuses tree.old) (T.refuses tree.new) (T.asked tree.old) (T.asked tree.new) (and_this (name_at names.old number) (T.firsts tree.old)) (T.firsts tree.new) }
    ensures fault { IfErr result (IsLookUpFault rules.now.targets.now (T.allows tree.new) (T.refuses tree.new) rules.now.forms.now rules.now.steps
        rules.now.lines.now (finmap.get rules.now.state.now) (name_at names.old number)) }
{
    let name = names.name(number);
    let seen = seen_of(alloc, rules, tree, &mut notes.target, name)?;
    let entry = entry_of(rules, notes, name);
    numbered(alloc, rules, tree, names, notes, seen, entry)
}

// Tables that grow by doubling chain and copy each name about twice: `dmk -q` of 49,000 targets with a source each took 1,283
// million instructions in place of 1,255, and with 20 hidden prerequisites each 64 MB in place of 59 (27 November 2026).
/// How much may be expected of these rules: each target has a source or so, and each other one a header.
pub(crate) fn expected(rules: &Rules) -> Expected {
    let targets = rules.lines.len();
    Expected {
        names: targets.saturating_mul(2).saturating_add(targets / 2),
        prerequisites: targets.saturating_mul(USUAL_PREREQUISITES),
    }
}

/// Looks names up in the rules, the state and a tree.
#[derive(Drop)]
pub(crate) struct Finder<'m, 't, T: Tree> {
    pub rules: Rules<'m>,
    pub tree: &'t mut T,
}

impl<'m, 't, T: Tree> Dependencies for Finder<'m, 't, T> {
    ghost use Rattle.std.specs.Prelude.{refl};
    ghost use Rattle.std.proofs.Common.{◌∙◌};
    ghost use Rattle.mk_rules.specs.Allowed.{IsAllowed, allowed_by};
    ghost use Rattle.mk_sources.specs.LooksLaws.{looks_none, looks_on};

    type Fault = RuleFault;

    type Node = Node;

    type Notes = NodeNotes;

    ghost allows = { λ f of. IsAllowed (T.allows f.tree.now) f.rules.lines.now (finmap.get f.rules.state.now) of };

    // The time of each name is asked for first where the name is looked up.
    ghost asked = { λ f name. T.firsts f.tree.now name };

    ghost describes = { λ f name known. (looks : List ℕ → Option FileLook) → T.allows f.tree.now looks
        → IsKnown (inputs_of f.rules.lines.now (finmap.get f.rules.state.now) looks) name known };

    ghost refuses = { λ f name fault. IsLookUpFault f.rules.targets.now (T.allows f.tree.now) (T.refuses f.tree.now) f.rules.forms.now f.rules.steps
        f.rules.lines.now (finmap.get f.rules.state.now) name fault };

    ghost follows = { λ f _ g. (g.rules ≡ f.rules) × (g.tree.ghost_name ≡ f.tree.ghost_name)
        × Looks (T.allows f.tree.now) (T.allows g.tree.now) (T.refuses f.tree.now) (T.refuses g.tree.now) (T.asked f.tree.now) (T.asked g.tree.now) any_name any_name };

    ghost fits = { λ f names notes. (looks : List ℕ → Option FileLook) → T.allows f.tree.now looks
        → AreKnownNodes (is_node (inputs_of f.rules.lines.now (finmap.get f.rules.state.now) looks)) names notes.marks.items };

    ghost row = { λ notes. notes.row };

    fn expected(&self) -> Expected {
        expected(&self.rules)
    }

    fn notes(&self, alloc: Global, expected: usize) -> NodeNotes {
        NodeNotes::with_room(alloc, expected)
    }

    fn row_in<'n>(&self, notes: &'n NodeNotes) -> &'n [u32] {
        notes.row.as_slice()
    }

    fn prerequisites(
        &mut self,
        alloc: Global,
        names: &mut Names,
        notes: &mut NodeNotes,
        number: usize,
    ) -> Result<Node, RuleFault> {
        look_up(alloc, &self.rules, self.tree, names, notes, number)
    }

    ghost possible = { λ f. (
      prerequisites_of (inputs_of f.rules.lines.now (finmap.get f.rules.state.now) (T.possible f.tree.now).0),
      allowed_by (T.allows f.tree.now) f.rules.lines.now (finmap.get f.rules.state.now) (T.possible f.tree.now).0 (T.possible f.tree.now).1,
    ) };

    ghost stays = { λ f. (refl, refl, looks_none _ _ _ _) };

    ghost through = { λ a b c answers first next. (
      next.0 ∙ first.0,
      next.1 ∙ first.1,
      looks_on _ _ _ _ _ _ _ _ _ _ _ _ first.2 next.2,
    ) };

    ghost ended = { λ a b first. first };
}
