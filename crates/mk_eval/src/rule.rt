//! Rules, told by what stands behind their `:`.
ghost use Rattle.std.specs.Prelude.{◌≡◌, true, IfOk};
ghost use Rattle.std.specs.Bool.{Decides};
ghost use Rattle.byte_strings.specs.Blanks.{words};
ghost use Rattle.mk_macros.specs.Ranks.{defined_by};
ghost use Rattle.std.specs.List.{list_all};
ghost use Rattle.mk_eval.specs.Static.{is_sign_byte, name_macro, DefinesMacro};
ghost use Rattle.mk_eval.specs.Output.{World};
ghost use Rattle.mk_eval.specs.Makefile.{behind, GivesItems, ItemItems};
ghost use Rattle.mk_reader.specs.declared.item.Item.TheVariants as item;

use crate::definition::take;
use crate::includes::Includes;
use crate::refuse::refuse;
use crate::special_rule::plain_items;
use crate::static_rule::static_items;
use byte_strings::next_word;
use mk_lines::{split_at_colon, split_outside};
use mk_macros::Macros;
use mk_reader::{Cause, Feature, Item, ReadFault, Rule};
use std::alloc::Global;

fn is_sign(word: &[u8]) -> bool
    ensures { result ≡ list_all is_sign_byte word.now }
{
    word.iter()
        .all(|byte| matches!(*byte, b':' | b'+' | b'?' | b'!'))
}

/// Whether these are one word, with or without a sign behind it.
fn name_macro(text: &[u8]) -> bool
    ensures { result ≡ name_macro (words text.now) }
{
    let Some((_, rest)) = next_word(text) else {
        return false;
    };
    match next_word(rest) {
        None => true,
        Some((sign, behind)) => next_word(behind).is_none() && is_sign(sign),
    }
}

/// Whether what stands behind the `:` of a rule line defines a macro.
fn defines_macro(text: &[u8]) -> bool
    ensures { Decides result (DefinesMacro text.now) }
{
    match split_outside(text, b'=') {
        Some((left, _)) => name_macro(left),
        None => false,
    }
}

/// What a rule gives, which defines nothing.
pub fn evaluate_rule<I: Includes>(
    alloc: Global,
    rule: Rule,
    macros: &mut Macros,
    includes: &mut I,
) -> Result<Vec<Item>, ReadFault>
    ensures items { (world : World) → I.allows includes.new world
        → GivesItems result (ItemItems world (item.Rule rule) (defined_by macros.old)) }
    ensures defined { IfOk result (λ items. defined_by macros.new ≡ behind (defined_by macros.old) items.items) }
    ensures grows { (world : World) → I.allows includes.new world → I.allows includes.old world }
{
    if !macros.profile().is_wide() {
        return Ok(take(alloc, Item::Rule(rule), macros)?);
    }
    if defines_macro(rule.prerequisites.as_slice()) {
        let cause = Cause::Unsupported(Feature::TargetMacro);
        return Err(refuse(alloc, rule.file.as_slice(), rule.line, cause));
    }
    if let Some((left, right)) = split_at_colon(rule.prerequisites.as_slice()) {
        return static_items(alloc, &rule, left, right, macros, includes);
    }
    plain_items(alloc, rule, macros, includes)
}
