//! What a rule says, as items.
ghost use Rattle.std.specs.Prelude.{◌≡◌, Ok, Err, [], ◌∷◌, IfOk, OnOk, IfErr};
ghost use Rattle.mk_target_lines.specs.Shown.{pattern_of, rule_of};
ghost use Rattle.mk_gnu_items.specs.Rules.{joined, refusal, plain_items, special_in, is_one, is_plain_special, special_items, target_items, each_target, static_items, kind_items, rule_items};
ghost use Rattle.mk_gnu_items.specs.Shown.{IsRefused};

use crate::fault::{Cause, Refusal, Refused};
use crate::names::{Names, any_has_percent, odd_cause, percent_cause, short_names};
use crate::spelled::with_names;
use crate::stems::{short_front, stem_of, target_names};
use byte_strings::{ByteString, ByteStrings};
use mk_profile::Profile;
use mk_reader::{
    Feature, Item, Recipe, RecipeLine, Rule, Special, SpecialName, StaticCause, is_refused,
    special_name,
};
use mk_target_lines::Rule as GnuRule;
use std::alloc::{AllocError, Global};

/// The fault of a rule's line; the file's name is copied.
fn refuse(alloc: Global, rule: &Rule, cause: Cause) -> Refused
    ensures { IsRefused (λ why. why ≡ refusal rule.now cause) result }
{
    match ByteString::from_slice(alloc, rule.file.as_slice()) {
        Ok(file) => Refused::At(Refusal {
            file,
            line: rule.line,
            cause,
        }),
        Err(_) => Refused::OutOfMemory,
    }
}

/// What a rule says that is neither a static pattern rule nor a special one.
fn plain_item(alloc: Global, rule: Rule, names: &Names) -> Result<Item, Refused>
    ensures ok { IfOk result (λ one. plain_items rule names.now ≡ Ok (one ∷ [])) }
    ensures refused { IfErr result (IsRefused (λ why. plain_items rule names.now ≡ Err why)) }
{
    if let Some(cause) = odd_cause(names) {
        return Err(refuse(alloc, &rule, cause));
    }
    if let Some(cause) = percent_cause(names) {
        return Err(refuse(alloc, &rule, cause));
    }
    let rule = with_names(alloc, rule, names)?;
    Ok(Item::Rule(rule))
}

fn special_in(targets: &ByteStrings) -> Option<SpecialName>
    ensures { result ≡ special_in targets.now }
{
    for target in targets.iter() {
        if let Some(name) = special_name(Profile::Posix, target) {
            return Some(name);
        }
    }
    None
}

fn is_one(names: &ByteStrings) -> bool
    ensures { result ≡ is_one names.now }
{
    let mut left = names.iter();
    match left.next() {
        Some(_) => left.next().is_none(),
        None => false,
    }
}

fn is_plain_special(is_static: bool, names: &Names) -> bool
    ensures { result ≡ is_plain_special is_static names.now }
{
    !is_static && is_one(&names.targets) && names.order_only.is_empty()
}

/// What a rule of a special name says.
fn special_item(
    alloc: Global,
    rule: Rule,
    name: SpecialName,
    is_static: bool,
    names: &Names,
) -> Result<Item, Refused>
    ensures ok { IfOk result (λ one. special_items rule name is_static names.now ≡ Ok (one ∷ [])) }
    ensures refused { IfErr result (IsRefused (λ why. special_items rule name is_static names.now ≡ Err why)) }
{
    if is_refused(Profile::Posix, name) || !is_plain_special(is_static, names) {
        let cause = Cause::Unsupported(Feature::SpecialName(name));
        return Err(refuse(alloc, &rule, cause));
    }
    if let Some(cause) = odd_cause(names) {
        return Err(refuse(alloc, &rule, cause));
    }
    let rule = with_names(alloc, rule, names)?;
    Ok(Item::Special(Special { name, rule }))
}

fn copied_recipe(alloc: Global, recipe: &Recipe) -> Result<Recipe, AllocError>
    ensures { IfOk result (λ copy. copy ≡ recipe.now) }
{
    let mut copy = Recipe::new(alloc);
    let mut rest = recipe.lines();
    while let Some((line, after)) = rest.split_first() {
        copy.push(RecipeLine {
            text: line.text.copy(alloc)?,
            line: line.line,
        })?;
        rest = after;
    }
    Ok(copy)
}

fn copied(alloc: Global, rule: &Rule) -> Result<Rule, AllocError>
    ensures { IfOk result (λ copy. copy ≡ rule.now) }
{
    Ok(Rule {
        file: rule.file.share()?,
        line: rule.line,
        is_double: rule.is_double,
        targets: rule.targets.copy(alloc)?,
        prerequisites: rule.prerequisites.copy(alloc)?,
        recipe: copied_recipe(alloc, &rule.recipe)?,
    })
}

/// The rule of a static pattern rule for one target.
fn target_item(
    alloc: Global,
    rule: &Rule,
    pattern: &(Vec<u8>, Vec<u8>),
    names: &Names,
    target: &[u8],
) -> Result<Item, Refused>
    ensures ok { IfOk result (λ one. target_items rule.now (pattern.now.0.items, pattern.now.1.items) names.now target.now ≡ Ok (one ∷ [])) }
    ensures refused { IfErr result (IsRefused (λ why. target_items rule.now (pattern.now.0.items, pattern.now.1.items) names.now target.now ≡ Err why)) }
{
    let front = short_front(pattern.0.as_slice());
    let Some(stem) = stem_of(front, pattern.1.as_slice(), target) else {
        let target = ByteString::from_slice(alloc, target)?;
        let cause = Cause::Static(StaticCause::Mismatch(target));
        return Err(refuse(alloc, rule, cause));
    };
    let made = target_names(alloc, target, stem, names)?;
    if let Some(cause) = odd_cause(&made) {
        return Err(refuse(alloc, rule, cause));
    }
    let copy = copied(alloc, rule)?;
    let one = with_names(alloc, copy, &made)?;
    Ok(Item::Rule(one))
}

/// Adds the rules of a static pattern rule, one for each target.
#[tactic(auto, using(crate::proofs::JoinedLemmas::joined_one, crate::proofs::JoinedLemmas::joined_fault, crate::proofs::JoinedLemmas::joined_refused))]
fn add_static(
    alloc: Global,
    out: &mut Vec<Item>,
    rule: &Rule,
    pattern: &(Vec<u8>, Vec<u8>),
    names: &Names,
) -> Result<(), Refused>
    ensures ok { OnOk result (joined (Ok out.old.items) (static_items rule.now (pattern.now.0.items, pattern.now.1.items) names.now) ≡ Ok out.new.items) }
    ensures refused { IfErr result (IsRefused (λ why. static_items rule.now (pattern.now.0.items, pattern.now.1.items) names.now ≡ Err why)) }
{
    if any_has_percent(&names.targets) {
        return Err(refuse(alloc, rule, Cause::Static(StaticCause::Mixed)));
    }
    for target in names.targets.iter() {
        let one = target_item(alloc, rule, pattern, names, target)?;
        out.push(one)?;
    }
    Ok(())
}

/// Adds what a rule with these names says, by its kind.
fn add_kind(
    alloc: Global,
    out: &mut Vec<Item>,
    rule: Rule,
    it: &GnuRule,
    names: &Names,
) -> Result<(), Refused>
    ensures ok { OnOk result (joined (Ok out.old.items) (kind_items (special_in names.now.targets) rule (pattern_of it.now.pattern) names.now) ≡ Ok out.new.items) }
    ensures refused { IfErr result (IsRefused (λ why. kind_items (special_in names.now.targets) rule (pattern_of it.now.pattern) names.now ≡ Err why)) }
{
    if let Some(name) = special_in(&names.targets) {
        let one = special_item(alloc, rule, name, it.pattern.is_some(), names)?;
        out.push(one)?;
        return Ok(());
    }
    match &it.pattern {
        None => {
            let one = plain_item(alloc, rule, names)?;
            out.push(one)?;
            Ok(())
        }
        Some(pattern) => add_static(alloc, out, &rule, pattern, names),
    }
}

/// Adds what a rule says, of which the first has the file, the line and the recipe.
pub(crate) fn add_rule(
    alloc: Global,
    out: &mut Vec<Item>,
    rule: Rule,
    it: &GnuRule,
) -> Result<(), Refused>
    ensures ok { OnOk result (joined (Ok out.old.items) (rule_items rule (rule_of it.now)) ≡ Ok out.new.items) }
    ensures refused { IfErr result (IsRefused (λ why. rule_items rule (rule_of it.now) ≡ Err why)) }
{
    if it.is_grouped {
        let cause = Cause::Unsupported(Feature::GroupedTargets);
        return Err(refuse(alloc, &rule, cause));
    }
    let names = short_names(alloc, it)?;
    add_kind(alloc, out, rule, it, &names)
}
