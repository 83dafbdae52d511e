//! Definitions that count by what stands above them.
ghost use Rattle.std.specs.Prelude.{◌≡◌, List, [], ◌∷◌, ◌++◌, Ok, Err, IfOk, IfErr, OnOk};
ghost use Rattle.std.specs.List.{list_all};
ghost use Rattle.byte_strings.specs.Blanks.{is_blank};
ghost use Rattle.mk_macros.specs.Ranks.{defined_by};
ghost use Rattle.mk_eval.specs.Output.{World};
ghost use Rattle.mk_reader.specs.declared.item.Item.{Item as One};
ghost use Rattle.mk_eval.specs.Makefile.{behind, GivesItem, GivesItems, KindItems, ItemItems, FixedItems, OutputItems, NothingItems};

use crate::doubled::doubled;
use crate::includes::Includes;
use crate::names::follow;
use crate::output::run_definition;
use crate::quiet::gives_itself;
use crate::refuse::{refuse, refuse_text};
use crate::rule::evaluate_rule;
use crate::special_rule::evaluate_special;
use byte_strings::{ByteString, is_blank};
use mk_macros::{Dynamic, Macros};
use mk_reader::{Cause, Definition, DefinitionKind, DefinitionLine, Item, ReadFault};
use std::alloc::{AllocError, Global};

/// The definition with its text expanded where it stands.
fn fixed(
    alloc: Global,
    definition: Definition,
    is_fixed: bool,
    macros: &Macros,
) -> Result<Item, ReadFault>
    ensures { GivesItem result (FixedItems definition is_fixed (defined_by macros.now)) }
{
    match macros.expand(alloc, definition.value.as_slice(), &Dynamic::RuleLine) {
        Ok(text) => {
            let value = ByteString::new(doubled(alloc, text.as_slice())?);
            Ok(Item::Definition(Definition {
                value,
                is_fixed,
                ..definition
            }))
        }
        Err(fault) => {
            let Definition { file, line, .. } = definition;
            Err(refuse_text(alloc, file.as_slice(), line, fault))
        }
    }
}

/// The item alone, which is taken into the macros.
pub fn take(alloc: Global, item: Item, macros: &mut Macros) -> Result<Vec<Item>, AllocError>
    ensures items { IfOk result (λ items. items.items ≡ item ∷ []) }
    ensures defined { IfOk result (λ items. defined_by macros.new ≡ behind (defined_by macros.old) items.items) }
{
    let mut items = Vec::new(alloc);
    follow(alloc, macros, &item)?;
    items.push(item)?;
    Ok(items)
}

/// As `take`, with the text expanded where the definition stands.
fn take_fixed(
    alloc: Global,
    definition: Definition,
    is_fixed: bool,
    macros: &mut Macros,
) -> Result<Vec<Item>, ReadFault>
    ensures items { GivesItems result (FixedItems definition is_fixed (defined_by macros.old)) }
    ensures defined { IfOk result (λ items. defined_by macros.new ≡ behind (defined_by macros.old) items.items) }
{
    let item = fixed(alloc, definition, is_fixed, macros)?;
    Ok(take(alloc, item, macros)?)
}

/// As `take`, with what the definition's command writes.
fn take_output<I: Includes>(
    alloc: Global,
    definition: Definition,
    macros: &mut Macros,
    includes: &mut I,
) -> Result<Vec<Item>, ReadFault>
    ensures items { (world : World) → I.allows includes.new world
        → GivesItems result (OutputItems world definition (defined_by macros.old)) }
    ensures defined { IfOk result (λ items. defined_by macros.new ≡ behind (defined_by macros.old) items.items) }
    ensures grows { (world : World) → I.allows includes.new world → I.allows includes.old world }
{
    let item = run_definition(alloc, definition, macros, includes)?;
    Ok(take(alloc, item, macros)?)
}

fn all_blank(text: &[u8]) -> bool
    ensures { result ≡ list_all is_blank text.now }
{
    text.iter().all(|byte| is_blank(*byte))
}

/// What a line without a sign gives: nothing, where it comes to nothing.
fn take_nothing(alloc: Global, line: &Definition, macros: &Macros) -> Result<Vec<Item>, ReadFault>
    ensures items { GivesItems result (NothingItems line.now (defined_by macros.now)) }
    ensures none { IfOk result (λ items. items.items ≡ []) }
{
    let file = line.file.as_slice();
    match macros.expand(alloc, line.value.as_slice(), &Dynamic::RuleLine) {
        Ok(text) => {
            if all_blank(&text) {
                return Ok(Vec::new(alloc));
            }
            drop(text);
            Err(refuse(alloc, file, line.line, Cause::MissingSeparator))
        }
        Err(fault) => Err(refuse_text(alloc, file, line.line, fault)),
    }
}

/// What a definition gives that counts by what stands above it: an item, which is taken into the macros, or nothing.
pub fn evaluate_definition<I: Includes>(
    alloc: Global,
    line: DefinitionLine,
    macros: &mut Macros,
    includes: &mut I,
) -> Result<Vec<Item>, ReadFault>
    ensures items { (world : World) → I.allows includes.new world
        → GivesItems result (KindItems world line.kind line.definition (defined_by macros.old)) }
    ensures defined { IfOk result (λ items. defined_by macros.new ≡ behind (defined_by macros.old) items.items) }
    ensures grows { (world : World) → I.allows includes.new world → I.allows includes.old world }
{
    let DefinitionLine { kind, definition } = line;
    match kind {
        DefinitionKind::IfUndefined => {
            if macros.is_defined(definition.name.as_slice()) {
                return Ok(Vec::new(alloc));
            }
            Ok(take(alloc, Item::Definition(definition), macros)?)
        }
        DefinitionKind::AtOnce => take_fixed(alloc, definition, true, macros),
        DefinitionKind::AtOnceAlone => take_fixed(alloc, definition, false, macros),
        DefinitionKind::Output => take_output(alloc, definition, macros, includes),
        DefinitionKind::NoSign => take_nothing(alloc, &definition, macros),
    }
}

/// Adds what an item gives, which is taken into the macros.
pub fn add_item<I: Includes>(
    alloc: Global,
    item: Item,
    macros: &mut Macros,
    includes: &mut I,
    items: &mut Vec<Item>,
) -> Result<(), ReadFault>
    ensures added { OnOk result ((front : List One) × (items.new.items ≡ items.old.items ++ front)
        × (defined_by macros.new ≡ behind (defined_by macros.old) front)
        × ((world : World) → I.allows includes.new world → ItemItems world item (defined_by macros.old) (Ok front))) }
    ensures fault { IfErr result (λ fault. (world : World) → I.allows includes.new world
        → GivesItems (Err fault) (ItemItems world item (defined_by macros.old))) }
    ensures grows { (world : World) → I.allows includes.new world → I.allows includes.old world }
{
    // The strict profile takes each item as it stands, and has no references in the lines that are read next.
    if !macros.profile().is_wide() {
        items.push(item)?;
        return Ok(());
    }
    // So it is with most rules in the wide one.
    if gives_itself(&item) {
        items.push(item)?;
        return Ok(());
    }
    let mut given = evaluate_item(alloc, item, macros, includes)?;
    items.append(&mut given)?;
    Ok(())
}

/// What an item gives, which is taken into the macros.
fn evaluate_item<I: Includes>(
    alloc: Global,
    item: Item,
    macros: &mut Macros,
    includes: &mut I,
) -> Result<Vec<Item>, ReadFault>
    ensures items { (world : World) → I.allows includes.new world
        → GivesItems result (ItemItems world item (defined_by macros.old)) }
    ensures defined { IfOk result (λ items. defined_by macros.new ≡ behind (defined_by macros.old) items.items) }
    ensures grows { (world : World) → I.allows includes.new world → I.allows includes.old world }
{
    match item {
        Item::Definition(definition) => {
            let is_wide = macros.profile().is_wide();
            if definition.append && is_wide && macros.is_fixed(definition.name.as_slice()) {
                return take_fixed(alloc, definition, true, macros);
            }
            Ok(take(alloc, Item::Definition(definition), macros)?)
        }
        Item::Rule(rule) => evaluate_rule(alloc, rule, macros, includes),
        Item::Special(special) => evaluate_special(alloc, special, macros, includes),
    }
}
