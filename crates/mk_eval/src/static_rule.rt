//! Static pattern rules: one rule for each target.
ghost use Rattle.std.specs.Prelude.{◌≡◌, true, IfOk, IfErr};
ghost use Rattle.byte_strings.specs.Blanks.{words};
ghost use Rattle.mk_macros.specs.Ranks.{Defined, defined_by, rule_meanings};
ghost use Rattle.mk_eval.specs.Static.{has_percent, rule_for};
ghost use Rattle.mk_reader.specs.Form.{Refuses, refusal};
ghost use Rattle.mk_eval.specs.Output.{World};
ghost use Rattle.mk_eval.specs.Makefile.{GivesItem, GivesItems, with_item, with_items, TargetItems, EachTarget, PatternItems, StaticItems, IsTextFault};
ghost use Rattle.mk_macros.specs.Expansion.{gives, ExpandsTo};

use crate::doubled::doubled;
use crate::includes::Includes;
use crate::listed::listed;
use crate::refuse::{refuse, refuse_text};
use crate::short::renamed;
use crate::stem::{pattern_fault, prerequisites_with, stem_of};
use byte_strings::{ByteString, next_word};
use mk_macros::{Dynamic, Macros};
use mk_reader::{Cause, Item, ReadFault, Recipe, RecipeLine, Rule, StaticCause};
use std::alloc::{AllocError, Global};

fn copied_recipe(alloc: Global, recipe: &Recipe) -> Result<Recipe, AllocError>
    ensures { IfOk result (λ copy. copy ≡ recipe.now) }
{
    let mut copy = Recipe::new(alloc);
    let mut rest = recipe.lines();
    while let Some((line, after)) = rest.split_first() {
        copy.push(RecipeLine {
            text: line.text.copy(alloc)?,
            line: line.line,
        })?;
        rest = after;
    }
    Ok(copy)
}

/// What the rule says of this target with this stem, as a rule of its own.
fn rule_for(
    alloc: Global,
    rule: &Rule,
    target: &[u8],
    stem: &[u8],
    patterns: &[u8],
) -> Result<Rule, AllocError>
    ensures { IfOk result (λ one. one ≡ rule_for rule.now target.now stem.now (words patterns.now)) }
{
    let prerequisites = prerequisites_with(alloc, stem, patterns)?;
    Ok(Rule {
        file: rule.file.share()?,
        line: rule.line,
        is_double: rule.is_double,
        targets: ByteString::new(doubled(alloc, target)?),
        prerequisites: ByteString::new(doubled(alloc, prerequisites.as_slice())?),
        recipe: copied_recipe(alloc, &rule.recipe)?,
    })
}

/// The fault of a rule's line.
fn refuse_rule(alloc: Global, rule: &Rule, cause: Cause) -> ReadFault
    ensures { Refuses result (refusal rule.now.file rule.now.line cause) }
{
    refuse(alloc, rule.file.as_slice(), rule.line, cause)
}

/// What the rule gives for one target.
fn target_item(
    alloc: Global,
    rule: &Rule,
    pattern: &[u8],
    prerequisites: &[u8],
    target: &[u8],
) -> Result<Item, ReadFault>
    requires { has_percent pattern.now ≡ true }
    ensures item { GivesItem result (TargetItems rule.now pattern.now (words prerequisites.now) target.now) }
    ensures loose { IfOk result (λ one. (given : Defined) → with_item given one ≡ given) }
{
    let Some(stem) = stem_of(pattern, target) else {
        let target = ByteString::from_slice(alloc, target)?;
        return Err(refuse_rule(alloc, rule, Cause::Static(StaticCause::Mismatch(target))));
    };
    let one = rule_for(alloc, rule, target, stem, prerequisites)?;
    Ok(Item::Rule(one))
}

/// What the rule gives for its targets, in their order.
fn each_target(
    alloc: Global,
    rule: &Rule,
    pattern: &[u8],
    prerequisites: &[u8],
    targets: &[u8],
) -> Result<Vec<Item>, ReadFault>
    requires { has_percent pattern.now ≡ true }
    ensures items { GivesItems result (EachTarget rule.now pattern.now (words prerequisites.now) (words targets.now)) }
    ensures loose { IfOk result (λ items. (given : Defined) → with_items given items.items ≡ given) }
{
    let mut items = Vec::new(alloc);
    let mut rest = targets;
    while let Some((target, after)) = next_word(rest) {
        items.push(target_item(alloc, rule, pattern, prerequisites, target)?)?;
        rest = after;
    }
    Ok(items)
}

/// What the rule gives that has these words.
fn pattern_items(
    alloc: Global,
    rule: &Rule,
    targets: &[u8],
    patterns: &[u8],
    prerequisites: &[u8],
) -> Result<Vec<Item>, ReadFault>
    ensures items { GivesItems result (PatternItems rule.now (words targets.now) (words patterns.now) (words prerequisites.now)) }
    ensures loose { IfOk result (λ items. (given : Defined) → with_items given items.items ≡ given) }
{
    let Some((pattern, rest)) = next_word(patterns) else {
        return Err(refuse_rule(alloc, rule, Cause::Static(StaticCause::NoPattern)));
    };
    if next_word(rest).is_some() {
        return Err(refuse_rule(alloc, rule, Cause::Static(StaticCause::ManyPatterns)));
    }
    if let Some(cause) = pattern_fault(targets, pattern, prerequisites) {
        return Err(refuse_rule(alloc, rule, cause));
    }
    each_target(alloc, rule, pattern, prerequisites, targets)
}

/// What a text of the rule's line comes to.
fn text_of(alloc: Global, rule: &Rule, text: &[u8], macros: &Macros) -> Result<Vec<u8>, ReadFault>
    ensures text { IfOk result (λ v. ExpandsTo (rule_meanings (defined_by macros.now)) text.now (gives v.items)) }
    ensures fault { IfErr result (IsTextFault (defined_by macros.now) rule.now text.now) }
{
    match macros.expand(alloc, text, &Dynamic::RuleLine) {
        Ok(text) => Ok(text),
        Err(fault) => Err(refuse_text(alloc, rule.file.as_slice(), rule.line, fault)),
    }
}

/// What a static pattern rule gives whose second `:` stands between these texts.
pub fn static_items<I: Includes>(
    alloc: Global,
    rule: &Rule,
    left: &[u8],
    right: &[u8],
    macros: &Macros,
    includes: &mut I,
) -> Result<Vec<Item>, ReadFault>
    ensures items { (world : World) → I.allows includes.new world
        → GivesItems result (StaticItems world rule.now left.now right.now (defined_by macros.now)) }
    ensures loose { IfOk result (λ items. (given : Defined) → with_items given items.items ≡ given) }
    ensures grows { (world : World) → I.allows includes.new world → I.allows includes.old world }
{
    let targets = text_of(alloc, rule, rule.targets.as_slice(), macros)?;
    let patterns = text_of(alloc, rule, left, macros)?;
    let prerequisites = text_of(alloc, rule, right, macros)?;
    let targets = listed(alloc, targets, includes)?;
    let patterns = renamed(alloc, patterns)?;
    let prerequisites = listed(alloc, prerequisites, includes)?;
    pattern_items(
        alloc,
        rule,
        targets.as_slice(),
        patterns.as_slice(),
        prerequisites.as_slice(),
    )
}
