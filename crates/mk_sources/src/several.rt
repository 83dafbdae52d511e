//! Rules of several targets: their further targets are made by the run for the first.
ghost use Rattle.std.specs.Prelude.{◌≡◌, ◌&&◌, ◌==◌, ℕ, List, Option, Some, is_none, option_map, option_to_list, map, IfOk, IfErr};
ghost use Rattle.std.specs.FinMap as finmap;
ghost use Rattle.mk_rule_lines.specs.Explicit.{is_phony};
ghost use Rattle.mk_nodes.specs.Groups.{earlier, earliest, others_in, group_with, times_counted};
ghost use Rattle.mk_nodes.specs.Look.{is_taken_as_old, time_of};
ghost use Rattle.mk_nodes.specs.declared.file_look.FileLook.{FileLook};
ghost use Rattle.mk_sources.specs.Asked.{IsImplicitFault, IsFoundFault, IsOthersFault};
ghost use Rattle.mk_sources.specs.Looks.{Looks};
ghost use Rattle.mk_nodes.specs.Prerequisites.{inputs_of, own_recipes, seen_looks, implicit_source, led_source, is_led, is_run_of, runs_for};

use crate::lookup::{found_source, seen_stamp};
use crate::rules::Rules;
use crate::tree::Tree;
use byte_strings::ByteStrings;
use mk_makefile::Source;
use mk_nodes::{FileLook, FileLooks, Group, is_taken_as_old};
use mk_rule_lines::RuleFault;
use std::alloc::Global;
use std::boxed::Box;

/// Whether the rule of this line makes what has the source by a run for it.
fn is_run_of(rule: usize, source: &Source) -> bool
    ensures { result ≡ is_run_of rule source.now }
{
    source.leader.is_none() && source.rule == rule
}

/// Whether the rule of this line makes the name by a run for it.
#[inline(never)]
fn runs_for<T: Tree>(
    alloc: Global,
    rules: &Rules,
    tree: &mut T,
    rule: usize,
    name: &[u8],
) -> Result<bool, RuleFault>
    ensures runs { IfOk result (λ runs. (looks : List ℕ → Option FileLook) → T.allows tree.new looks
        → runs ≡ runs_for (inputs_of rules.now.lines.now (finmap.get rules.now.state.now) looks) rule name.now) }
    ensures looks { Looks (T.allows tree.old) (T.allows tree.new) (T.refuses tree.old) (T.refuses tree.new) (T.asked tree.old) (T.asked tree.new) (T.firsts tree.old) (T.firsts tree.new) }
    ensures fault { IfErr result (IsFoundFault rules.now.targets.now (T.allows tree.new) (T.refuses tree.new) rules.now.forms.now rules.now.steps rules.now.lines.now name.now) }
{
    let (numbers, own) = rules.named(name);
    let phony = rules.is_phony(numbers);
    match found_source(alloc, rules, tree, name, own, phony)? {
        Some(source) => {
            let runs = is_run_of(rule, &source);
            drop(source);
            Ok(runs)
        }
        None => Ok(false),
    }
}

/// Whether the source is that of a rule's first target, or the rule makes the first one by a run for it.
fn is_led<T: Tree>(
    alloc: Global,
    rules: &Rules,
    tree: &mut T,
    source: &Source,
) -> Result<bool, RuleFault>
    ensures led { IfOk result (λ led. (looks : List ℕ → Option FileLook) → T.allows tree.new looks
        → led ≡ is_led (inputs_of rules.now.lines.now (finmap.get rules.now.state.now) looks) source.now) }
    ensures looks { Looks (T.allows tree.old) (T.allows tree.new) (T.refuses tree.old) (T.refuses tree.new) (T.asked tree.old) (T.asked tree.new) (T.firsts tree.old) (T.firsts tree.new) }
    ensures fault { IfErr result (λ f. (leader : List ℕ) × ((source.now.leader ≡ Some leader)
        × IsFoundFault rules.now.targets.now (T.allows tree.new) (T.refuses tree.new) rules.now.forms.now rules.now.steps rules.now.lines.now leader f)) }
{
    match &source.leader {
        Some(leader) => runs_for(alloc, rules, tree, source.rule, leader.as_slice()),
        None => Ok(true),
    }
}

/// What is found of a name that isn't phony and for which no line has a recipe, where the rule is run for it or for the first of what
/// that makes: `own` is the number of the line that has one.
fn led_source<T: Tree>(
    alloc: Global,
    rules: &Rules,
    tree: &mut T,
    name: &[u8],
    own: Option<usize>,
    phony: bool,
) -> Result<Option<Source>, RuleFault>
    requires own { option_to_list own ≡ own_recipes rules.now.lines.now name.now }
    requires phony { phony ≡ is_phony rules.now.lines.now name.now }
    ensures source { IfOk result (λ found. (looks : List ℕ → Option FileLook) → T.allows tree.new looks
        → found ≡ led_source (inputs_of rules.now.lines.now (finmap.get rules.now.state.now) looks) name.now) }
    ensures looks { Looks (T.allows tree.old) (T.allows tree.new) (T.refuses tree.old) (T.refuses tree.new) (T.asked tree.old) (T.asked tree.new) (T.firsts tree.old) (T.firsts tree.new) }
    ensures fault { IfErr result (IsImplicitFault rules.now.targets.now (T.allows tree.new) (T.refuses tree.new) rules.now.forms.now rules.now.steps rules.now.lines.now
        (finmap.get rules.now.state.now) name.now) }
{
    let Some(source) = found_source(alloc, rules, tree, name, own, phony)? else {
        return Ok(None);
    };
    if is_led(alloc, rules, tree, &source)? {
        Ok(Some(source))
    } else {
        drop(source);
        Ok(None)
    }
}

/// What an implicit rule makes a name from, of which this is seen.
pub(crate) fn implicit_source<T: Tree>(
    alloc: Global,
    rules: &Rules,
    tree: &mut T,
    name: &[u8],
    own: Option<usize>,
    phony: bool,
    seen: Option<FileLook>,
) -> Result<Option<Source>, RuleFault>
    requires own { option_to_list own ≡ own_recipes rules.now.lines.now name.now }
    requires phony { phony ≡ is_phony rules.now.lines.now name.now }
    requires seen { (looks : List ℕ → Option FileLook) → T.allows tree.old looks → seen ≡ seen_looks rules.now.lines.now looks name.now }
    ensures source { IfOk result (λ found. (looks : List ℕ → Option FileLook) → T.allows tree.new looks
        → found ≡ implicit_source (inputs_of rules.now.lines.now (finmap.get rules.now.state.now) looks) name.now) }
    ensures looks { Looks (T.allows tree.old) (T.allows tree.new) (T.refuses tree.old) (T.refuses tree.new) (T.asked tree.old) (T.asked tree.new) (T.firsts tree.old) (T.firsts tree.new) }
    ensures fault { IfErr result (IsImplicitFault rules.now.targets.now (T.allows tree.new) (T.refuses tree.new) rules.now.forms.now rules.now.steps rules.now.lines.now
        (finmap.get rules.now.state.now) name.now) }
{
    if is_taken_as_old(seen) {
        return Ok(None);
    }
    led_source(alloc, rules, tree, name, own, phony)
}

/// The earlier of two times; None where one is missing.
fn earlier(a: Option<i128>, b: Option<i128>) -> Option<i128>
    ensures { result ≡ earlier a b }
{
    match (a, b) {
        (Some(a), Some(b)) if b < a => Some(b),
        (Some(a), Some(_)) => Some(a),
        _ => None,
    }
}

fn time_of(look: &Option<FileLook>) -> Option<i128>
    ensures { result ≡ time_of look.now }
{
    match look {
        Some(file) => Some(file.time),
        None => None,
    }
}

/// The earliest of this time and those of the looks that count.
fn earliest(first: Option<i128>, looks: &[Option<FileLook>]) -> Option<i128>
    ensures { result ≡ earliest first (times_counted looks.now) }
{
    let mut time = first;
    for look in looks {
        if !is_taken_as_old(*look) {
            time = earlier(time, time_of(look));
        }
    }
    time
}

/// What is seen of these names.
#[inline(never)]
fn seen_looks<T: Tree>(
    alloc: Global,
    rules: &Rules,
    tree: &mut T,
    names: &ByteStrings,
) -> Result<FileLooks, RuleFault>
    ensures seen { IfOk result (λ found. (looks : List ℕ → Option FileLook) → T.allows tree.new looks
        → found ≡ map (seen_looks rules.now.lines.now looks) names.now) }
    ensures looks { Looks (T.allows tree.old) (T.allows tree.new) (T.refuses tree.old) (T.refuses tree.new) (T.asked tree.old) (T.asked tree.new) (T.firsts tree.old) (T.firsts tree.new) }
    ensures fault { IfErr result (IsOthersFault (T.refuses tree.new) rules.now.lines.now names.now) }
{
    let mut found = FileLooks::none(alloc);
    for name in names.iter() {
        let (numbers, _) = rules.named(name);
        let phony = rules.is_phony(numbers);
        let seen = seen_stamp(alloc, tree, name, phony)?;
        found.push(seen)?;
    }
    Ok(found)
}

/// What the run for the name of this source makes beside it, where it makes more; `time` is that of the name itself.
pub(crate) fn group_of<T: Tree>(
    alloc: Global,
    rules: &Rules,
    tree: &mut T,
    time: Option<i128>,
    source: &Option<Source>,
) -> Result<Option<Box<Group>>, RuleFault>
    ensures group { IfOk result (λ group. (name : List ℕ) (looks : List ℕ → Option FileLook) → T.allows tree.new looks
        → time ≡ time_of (seen_looks rules.now.lines.now looks name)
        → option_map (λ g. g.value) group ≡ group_with (seen_looks rules.now.lines.now looks) name (others_in source.now)) }
    ensures looks { Looks (T.allows tree.old) (T.allows tree.new) (T.refuses tree.old) (T.refuses tree.new) (T.asked tree.old) (T.asked tree.new) (T.firsts tree.old) (T.firsts tree.new) }
    ensures fault { IfErr result (IsOthersFault (T.refuses tree.new) rules.now.lines.now (others_in source.now)) }
{
    let Some(source) = source else {
        return Ok(None);
    };
    if source.others.is_empty() {
        return Ok(None);
    }
    let looks = seen_looks(alloc, rules, tree, &source.others)?;
    let made = earliest(time, looks.as_slice());
    let others = source.others.copy(alloc)?;
    let group = Group {
        made,
        others,
        looks,
    };
    Ok(Some(Box::new(alloc, group)?))
}
