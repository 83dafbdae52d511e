//! What is found of a name but its hidden prerequisites.
ghost use Rattle.std.specs.Prelude.{◌≡◌, ◌++◌, ℕ, List, Option, None, length, option_map, option_to_list, unwrap_or, IfOk, IfErr};
ghost use Rattle.std.specs.FinMap as map;
ghost use Rattle.mk_rule_lines.specs.Explicit.{numbers_of, explicit_of, order_only_of, is_phony};
ghost use Rattle.mk_nodes.specs.Groups.{others_in, group_with};
ghost use Rattle.mk_nodes.specs.Prerequisites.{Inputs, inputs_of, own_recipes, seen_looks, first_or, rule_or, behind_bar_of, made_from, distinct};
ghost use Rattle.mk_names.specs.Names.{all_added};
ghost use Rattle.mk_sources.specs.Looks.{Looks, and_this};
ghost use Rattle.mk_sources.specs.Asked.{IsLookUpFault, IsOthersFault};
ghost use Rattle.mk_sources.specs.Seen.{IsSeen, IsGiven, IsRuled, IsRuledIn};
ghost use Rattle.mk_nodes.specs.declared.file_look.FileLook.{FileLook};

use crate::distinct_names::DistinctNames;
use crate::known::{Given, Ruled, Seen};
use crate::left_over::rule_or;
use crate::listed::{names_behind, push_all};
use crate::lookup::first_seen_stamp;
use crate::made::{implied_count, made_from, mention_all};
use crate::rules::Rules;
use crate::several::{group_of, implicit_source};
use crate::tree::Tree;
use byte_strings::{ByteString, ByteStrings};
use mk_makefile::Source;
use mk_nodes::{Group, Rare, RareParts, ShortNumber, Stamp};
use mk_rule_lines::RuleFault;
use std::alloc::{AllocError, Global};
use std::boxed::Box;

fn stem_of(source: Option<Source>) -> Option<ByteString>
    ensures { result ≡ option_map (λ s. s.stem) source }
{
    match source {
        Some(Source { stem, .. }) => Some(stem),
        None => None,
    }
}

/// The line with the name's own recipe, or else the other one.
fn own_or(own: Option<usize>, other: Option<usize>) -> Option<usize>
    ensures { result ≡ first_or (option_to_list own) other }
{
    match own {
        Some(line) => Some(line),
        None => other,
    }
}

/// The order-only prerequisites that an implicit rule gives a name.
fn behind_bar_of(alloc: Global, source: &Option<Source>) -> Result<ByteStrings, AllocError>
    ensures { IfOk result (λ names. names ≡ behind_bar_of source.now) }
{
    match source {
        Some(source) => names_behind(alloc, &source.names, source.ordinary),
        None => Ok(ByteStrings::empty(alloc)),
    }
}

/// The order-only prerequisites of a name with this source, which the lines of these numbers make.
fn order_only_of(
    alloc: Global,
    rules: &Rules,
    numbers: &[usize],
    source: &Option<Source>,
) -> Result<ByteStrings, AllocError>
    ensures { IfOk result (λ found. (name : List ℕ) → numbers.now ≡ numbers_of rules.now.lines.now name
        → found ≡ behind_bar_of source.now ++ order_only_of rules.now.lines.now name) }
{
    let mut found = behind_bar_of(alloc, source)?;
    let own = rules.order_only(alloc, numbers)?;
    push_all(&mut found, &own)?;
    Ok(found)
}

/// What a name can't be made without, where it has order-only prerequisites: what an implicit rule makes it from, the prerequisites
/// of the lines of these numbers, and then these.
fn required_names(
    alloc: Global,
    rules: &Rules,
    numbers: &[usize],
    made: &ByteStrings,
    order_only: &ByteStrings,
) -> Result<Option<Box<ByteStrings>>, AllocError>
    ensures { IfOk result (λ required. (name : List ℕ) → numbers.now ≡ numbers_of rules.now.lines.now name
        → unwrap_or (option_map (λ names. names.value) required) (distinct (made.now ++ explicit_of rules.now.lines.now name))
        ≡ all_added (distinct (made.now ++ explicit_of rules.now.lines.now name)) order_only.now) }
{
    if order_only.is_empty() {
        return Ok(None);
    }
    let explicit = rules.explicit(alloc, numbers)?;
    let mut names = DistinctNames::new(alloc);
    mention_all(alloc, &mut names, made)?;
    mention_all(alloc, &mut names, &explicit)?;
    mention_all(alloc, &mut names, order_only)?;
    Ok(Some(Box::new(alloc, names.into_list())?))
}

/// What few names have of this source, whose run makes this group, and which needs these names.
fn rare_of(
    alloc: Global,
    source: Option<Source>,
    group: Option<Box<Group>>,
    required: Option<Box<ByteStrings>>,
) -> Result<RareParts, AllocError>
    ensures stem { IfOk result (λ rare. rare.stem ≡ option_map (λ s. s.stem) source) }
    ensures implied { IfOk result (λ rare. rare.implied ≡ length (distinct (made_from source))) }
    ensures group { IfOk result (λ rare. rare.group ≡ group) }
    ensures required { IfOk result (λ rare. rare.required ≡ required) }
{
    let implied = implied_count(alloc, &source)?;
    RareParts::of(
        alloc,
        Rare {
            stem: stem_of(source),
            implied,
            group,
            required,
            marks: None,
        },
    )
}

/// What rules give a name with this source, whose run makes this group.
fn given_with(
    alloc: Global,
    rules: &Rules,
    numbers: &[usize],
    source: Option<Source>,
    group: Option<Box<Group>>,
) -> Result<Box<Given>, AllocError>
    ensures { IfOk result (λ given. (inputs : Inputs) (name : List ℕ) → inputs.lines ≡ rules.now.lines.now
        → numbers.now ≡ numbers_of rules.now.lines.now name
        → option_map (λ g. g.value) group ≡ group_with inputs.looks name (others_in source)
        → IsGiven inputs name source given.value.made given.value.order_only given.value.rare) }
{
    let made = made_from(alloc, &source)?;
    let order_only = order_only_of(alloc, rules, numbers, &source)?;
    let required = required_names(alloc, rules, numbers, &made, &order_only)?;
    let rare = rare_of(alloc, source, group, required)?;
    let given = Given {
        made,
        order_only,
        rare,
    };
    Ok(Box::new(alloc, given)?)
}

/// What rules give a name with this source. `stamp` is what is seen of the name itself.
#[inline(never)]
fn given_by<T: Tree>(
    alloc: Global,
    rules: &Rules,
    tree: &mut T,
    numbers: &[usize],
    stamp: &Stamp,
    source: Option<Source>,
) -> Result<Box<Given>, RuleFault>
    ensures given { IfOk result (λ given. (name : List ℕ) (looks : List ℕ → Option FileLook) → T.allows tree.new looks
        → numbers.now ≡ numbers_of rules.now.lines.now name → stamp.now ≡ seen_looks rules.now.lines.now looks name
        → IsGiven (inputs_of rules.now.lines.now (map.get rules.now.state.now) looks) name source given.value.made given.value.order_only given.value.rare) }
    ensures looks { Looks (T.allows tree.old) (T.allows tree.new) (T.refuses tree.old) (T.refuses tree.new) (T.asked tree.old) (T.asked tree.new) (T.firsts tree.old) (T.firsts tree.new) }
    ensures fault { IfErr result (IsOthersFault (T.refuses tree.new) rules.now.lines.now (others_in source)) }
{
    let group = group_of(alloc, rules, tree, stamp.time(), &source)?;
    let given = given_with(alloc, rules, numbers, source, group)?;
    Ok(given)
}

/// A name to which rules give nothing: its own line or the other one has its recipe.
fn plain(own: Option<usize>, other: Option<usize>) -> Result<Ruled, AllocError>
    ensures recipe { IfOk result (λ ruled. ruled.recipe ≡ first_or (option_to_list own) other) }
    ensures given { IfOk result (λ ruled. ruled.given ≡ None) }
{
    let recipe = ShortNumber::of(own_or(own, other))?;
    Ok(Ruled {
        recipe,
        given: None,
    })
}

/// What rules say of a name with this source.
#[inline(never)]
fn ruled_by<T: Tree>(
    alloc: Global,
    rules: &Rules,
    tree: &mut T,
    numbers: &[usize],
    own: Option<usize>,
    left: Option<usize>,
    stamp: &Stamp,
    source: Option<Source>,
) -> Result<Ruled, RuleFault>
    ensures ruled { IfOk result (λ ruled. (name : List ℕ) (looks : List ℕ → Option FileLook) → T.allows tree.new looks
        → numbers.now ≡ numbers_of rules.now.lines.now name → stamp.now ≡ seen_looks rules.now.lines.now looks name
        → IsRuled (inputs_of rules.now.lines.now (map.get rules.now.state.now) looks) name source (option_to_list own) left ruled) }
    ensures looks { Looks (T.allows tree.old) (T.allows tree.new) (T.refuses tree.old) (T.refuses tree.new) (T.asked tree.old) (T.asked tree.new) (T.firsts tree.old) (T.firsts tree.new) }
    ensures fault { IfErr result (IsOthersFault (T.refuses tree.new) rules.now.lines.now (others_in source)) }
{
    let recipe = ShortNumber::of(own_or(own, rule_or(&source, left)))?;
    let given = given_by(alloc, rules, tree, numbers, stamp, source)?;
    Ok(Ruled {
        recipe,
        given: Some(given),
    })
}

/// What rules say of a name once a source is looked for.
#[inline(never)]
fn searched<T: Tree>(
    alloc: Global,
    rules: &Rules,
    tree: &mut T,
    name: &[u8],
    numbers: &[usize],
    own: Option<usize>,
    phony: bool,
    left: Option<usize>,
    stamp: &Stamp,
) -> Result<Ruled, RuleFault>
    requires numbers { numbers.now ≡ numbers_of rules.now.lines.now name.now }
    requires own { option_to_list own ≡ own_recipes rules.now.lines.now name.now }
    requires phony { phony ≡ is_phony rules.now.lines.now name.now }
    requires seen { (looks : List ℕ → Option FileLook) → T.allows tree.old looks → stamp.now ≡ seen_looks rules.now.lines.now looks name.now }
    ensures ruled { IfOk result (λ ruled. (looks : List ℕ → Option FileLook) → T.allows tree.new looks
        → stamp.now ≡ seen_looks rules.now.lines.now looks name.now
        → IsRuledIn (inputs_of rules.now.lines.now (map.get rules.now.state.now) looks) name.now left ruled) }
    ensures looks { Looks (T.allows tree.old) (T.allows tree.new) (T.refuses tree.old) (T.refuses tree.new) (T.asked tree.old) (T.asked tree.new) (T.firsts tree.old) (T.firsts tree.new) }
    ensures fault { IfErr result (IsLookUpFault rules.now.targets.now (T.allows tree.new) (T.refuses tree.new) rules.now.forms.now rules.now.steps
        rules.now.lines.now (map.get rules.now.state.now) name.now) }
{
    let source = implicit_source(alloc, rules, tree, name, own, phony, stamp.look())?;
    if source.is_none() && !rules.may_have_order_only(numbers) {
        drop(source);
        return Ok(plain(own, left)?);
    }
    ruled_by(alloc, rules, tree, numbers, own, left, stamp, source)
}

/// What rules say of a name of which this is seen.
fn ruled_of<T: Tree>(
    alloc: Global,
    rules: &Rules,
    tree: &mut T,
    name: &[u8],
    numbers: &[usize],
    own: Option<usize>,
    phony: bool,
    left: Option<usize>,
    stamp: &Stamp,
) -> Result<Ruled, RuleFault>
    requires numbers { numbers.now ≡ numbers_of rules.now.lines.now name.now }
    requires own { option_to_list own ≡ own_recipes rules.now.lines.now name.now }
    requires phony { phony ≡ is_phony rules.now.lines.now name.now }
    requires seen { (looks : List ℕ → Option FileLook) → T.allows tree.old looks → stamp.now ≡ seen_looks rules.now.lines.now looks name.now }
    ensures ruled { IfOk result (λ ruled. (looks : List ℕ → Option FileLook) → T.allows tree.new looks
        → stamp.now ≡ seen_looks rules.now.lines.now looks name.now
        → IsRuledIn (inputs_of rules.now.lines.now (map.get rules.now.state.now) looks) name.now left ruled) }
    ensures looks { Looks (T.allows tree.old) (T.allows tree.new) (T.refuses tree.old) (T.refuses tree.new) (T.asked tree.old) (T.asked tree.new) (T.firsts tree.old) (T.firsts tree.new) }
    ensures fault { IfErr result (IsLookUpFault rules.now.targets.now (T.allows tree.new) (T.refuses tree.new) rules.now.forms.now rules.now.steps
        rules.now.lines.now (map.get rules.now.state.now) name.now) }
{
    // Most names with a recipe of their own have nothing else.
    if (phony || own.is_some()) && !rules.may_have_order_only(numbers) {
        return Ok(plain(own, left)?);
    }
    searched(alloc, rules, tree, name, numbers, own, phony, left, stamp)
}

/// What the rules and a tree say of a name, whose target may be the one at this place; behind it that of the next name may be.
pub fn seen_of<'r, T: Tree>(
    alloc: Global,
    rules: &'r Rules,
    tree: &mut T,
    place: &mut u32,
    name: &[u8],
) -> Result<Seen<'r>, RuleFault>
    requires { ¬ (T.firsts tree.old name.now) }
    ensures seen { IfOk result (λ seen. (looks : List ℕ → Option FileLook) → T.allows tree.new looks
        → IsSeen (inputs_of rules.now.lines.now (map.get rules.now.state.now) looks) name.now seen) }
    ensures looks { Looks (T.allows tree.old) (T.allows tree.new) (T.refuses tree.old) (T.refuses tree.new) (T.asked tree.old) (T.asked tree.new) (and_this name.now (T.firsts tree.old)) (T.firsts tree.new) }
    ensures fault { IfErr result (IsLookUpFault rules.now.targets.now (T.allows tree.new) (T.refuses tree.new) rules.now.forms.now rules.now.steps
        rules.now.lines.now (map.get rules.now.state.now) name.now) }
{
    let (numbers, own, next) = rules.near(name, *place);
    *place = next;
    let phony = rules.is_phony(numbers);
    let look = first_seen_stamp(alloc, tree, name, phony)?;
    let stamp = Stamp::of(alloc, look)?;
    let left = rules.left_recipe(name, numbers, &stamp);
    let ruled = ruled_of(alloc, rules, tree, name, numbers, own, phony, left, &stamp)?;
    Ok(Seen {
        lines: numbers,
        stamp,
        ruled,
    })
}
