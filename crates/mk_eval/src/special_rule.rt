//! Special rules, whose name stands in the makefile or is made by a macro, and plain ones.
ghost use Rattle.std.specs.Prelude.{◌≡◌, IfOk};
ghost use Rattle.mk_macros.specs.Expansion as expansion;
ghost use Rattle.mk_macros.specs.Ranks.{defined_by};
ghost use Rattle.mk_eval.specs.Makefile.{behind, GivesItems, ItemItems, LineNames, PlainItems, special_in};
ghost use Rattle.mk_eval.specs.Output.{World};
ghost use Rattle.mk_reader.specs.declared.item.Item.TheVariants as item;

use crate::definition::take;
use crate::includes::Includes;
use crate::listed::listed_rule;
use crate::names::{has_dollar, ran_out};
use crate::refuse::refuse;
use byte_strings::first_word;
use mk_macros::{Dynamic, Macros};
use mk_reader::{
    Cause, Feature, Item, ReadFault, Rule, Special, SpecialName, is_refused, special_name,
};
use mk_short_names::short_name;
use std::alloc::{AllocError, Global};

/// The special name that stands first among the targets of a rule line, once they are expanded, without a `./` in front.
fn special_of(
    alloc: Global,
    rule: &Rule,
    macros: &Macros,
) -> Result<Option<SpecialName>, AllocError>
    ensures { IfOk result (λ name. (targets : expansion.Outcome) × LineNames (defined_by macros.now) rule.now.targets targets
        × (name ≡ special_in (defined_by macros.now).language targets)) }
{
    let text = rule.targets.as_slice();
    if !has_dollar(text) {
        return Ok(special_name(macros.profile(), short_name(first_word(text))));
    }
    match macros.expand(alloc, text, &Dynamic::RuleLine) {
        Ok(targets) => Ok(special_name(macros.profile(), short_name(first_word(&targets)))),
        Err(fault) => {
            if ran_out(&fault) {
                return Err(AllocError);
            }
            Ok(None)
        }
    }
}

/// What a rule of the wide profile gives that is no static pattern rule and defines nothing.
pub fn plain_items<I: Includes>(
    alloc: Global,
    rule: Rule,
    macros: &mut Macros,
    includes: &mut I,
) -> Result<Vec<Item>, ReadFault>
    ensures items { (world : World) → I.allows includes.new world
        → GivesItems result (PlainItems world rule (defined_by macros.old)) }
    ensures defined { IfOk result (λ items. defined_by macros.new ≡ behind (defined_by macros.old) items.items) }
    ensures grows { (world : World) → I.allows includes.new world → I.allows includes.old world }
{
    let name = special_of(alloc, &rule, macros)?;
    let rule = listed_rule(alloc, rule, macros, includes)?;
    let Some(name) = name else {
        return Ok(take(alloc, Item::Rule(rule), macros)?);
    };
    if is_refused(macros.profile(), name) {
        let cause = Cause::Unsupported(Feature::SpecialName(name));
        return Err(refuse(alloc, rule.file.as_slice(), rule.line, cause));
    }
    Ok(take(alloc, Item::Special(Special { name, rule }), macros)?)
}

/// What a special rule gives whose name stands in the makefile.
pub fn evaluate_special<I: Includes>(
    alloc: Global,
    special: Special,
    macros: &mut Macros,
    includes: &mut I,
) -> Result<Vec<Item>, ReadFault>
    ensures items { (world : World) → I.allows includes.new world
        → GivesItems result (ItemItems world (item.Special special) (defined_by macros.old)) }
    ensures defined { IfOk result (λ items. defined_by macros.new ≡ behind (defined_by macros.old) items.items) }
    ensures grows { (world : World) → I.allows includes.new world → I.allows includes.old world }
{
    if !macros.profile().is_wide() {
        return Ok(take(alloc, Item::Special(special), macros)?);
    }
    let Special { name, rule } = special;
    let rule = listed_rule(alloc, rule, macros, includes)?;
    Ok(take(alloc, Item::Special(Special { name, rule }), macros)?)
}
