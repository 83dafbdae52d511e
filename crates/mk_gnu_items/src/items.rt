//! The items of a GNU makefile, one behind the other.
ghost use Rattle.std.specs.Prelude.{◌≡◌, Ok, Err, [], ◌∷◌, ◌++◌, IfOk, OnOk, IfErr, map};
ghost use Rattle.mk_gnu_eval.specs.Shown.{item_of, said_by};
ghost use Rattle.mk_reader.specs.Grammar.{first_line};
ghost use Rattle.mk_target_lines.specs.Shown.{rule_of, text_of};
ghost use Rattle.mk_gnu_items.specs.Items.{lines_of, placed, refusal_at, said_items, items_of};
ghost use Rattle.mk_gnu_items.specs.Rules.{joined};
ghost use Rattle.mk_gnu_items.specs.Shown.{IsRefused};

use crate::fault::{Cause, Refusal, Refused};
use crate::rules::add_rule;
use byte_strings::ByteString;
use mk_gnu_eval::{Item as GnuItem, Said};
use mk_reader::{Directive, Feature, FileName, Item, Recipe, RecipeLine, Rule};
use mk_target_lines::Rule as GnuRule;
use std::alloc::{AllocError, Global};

fn push_line(alloc: Global, recipe: &mut Recipe, line: usize, text: &[u8]) -> Result<(), AllocError>
    ensures { OnOk result (recipe.new ≡ recipe.old ++ record { text = text.now; line = line } ∷ []) }
{
    let text = ByteString::from_slice(alloc, text)?;
    recipe.push(RecipeLine { text, line })
}

/// The first line of a recipe, where a rule has one behind a `;`.
fn first_line(alloc: Global, line: usize, first: &Option<Vec<u8>>) -> Result<Recipe, AllocError>
    ensures { IfOk result (λ recipe. recipe ≡ first_line line (text_of first.now)) }
{
    let mut recipe = Recipe::new(alloc);
    if let Some(text) = first {
        push_line(alloc, &mut recipe, line, text.as_slice())?;
    }
    Ok(recipe)
}

/// Adds the lines of a recipe that stand directly in front.
fn push_lines(alloc: Global, recipe: &mut Recipe, items: &[GnuItem]) -> Result<(), AllocError>
    ensures { OnOk result (recipe.new ≡ recipe.old ++ lines_of (map item_of items.now)) }
{
    let mut left = items;
    while let Some((item, rest)) = left.split_first() {
        let Said::Recipe(text) = &item.said else {
            return Ok(());
        };
        push_line(alloc, recipe, item.line, text.as_slice())?;
        left = rest;
    }
    Ok(())
}

/// A rule without names, with its recipe out of what stands behind it.
fn placed(
    alloc: Global,
    file: &[u8],
    line: usize,
    it: &GnuRule,
    behind: &[GnuItem],
) -> Result<Rule, AllocError>
    ensures { IfOk result (λ rule. rule ≡ placed file.now line (rule_of it.now) (lines_of (map item_of behind.now))) }
{
    let mut recipe = first_line(alloc, line, &it.recipe)?;
    push_lines(alloc, &mut recipe, behind)?;
    Ok(Rule {
        file: FileName::new(alloc, file)?,
        line,
        is_double: it.is_double,
        targets: ByteString::new(Vec::new(alloc)),
        prerequisites: ByteString::new(Vec::new(alloc)),
        recipe,
    })
}

/// The fault of a line; the file's name is copied.
fn refuse(alloc: Global, file: &[u8], line: usize, feature: Feature) -> Refused
    ensures { IsRefused (λ why. why ≡ refusal_at file.now line (Cause.Unsupported feature)) result }
{
    match ByteString::from_slice(alloc, file) {
        Ok(file) => Refused::At(Refusal {
            file,
            line,
            cause: Cause::Unsupported(feature),
        }),
        Err(_) => Refused::OutOfMemory,
    }
}

/// Adds what an item says that stands before these.
fn add_item(
    alloc: Global,
    out: &mut Vec<Item>,
    item: &GnuItem,
    behind: &[GnuItem],
) -> Result<(), Refused>
    ensures ok { OnOk result (joined (Ok out.old.items) (said_items item.now.file.items item.now.line (said_by item.now.said) (lines_of (map item_of behind.now))) ≡ Ok out.new.items) }
    ensures refused { IfErr result (IsRefused (λ why. said_items item.now.file.items item.now.line (said_by item.now.said) (lines_of (map item_of behind.now)) ≡ Err why)) }
{
    let file = item.file.as_slice();
    match &item.said {
        Said::Rule(it) => {
            let rule = placed(alloc, file, item.line, it, behind)?;
            add_rule(alloc, out, rule, it)
        }
        Said::Recipe(_) => Ok(()),
        Said::Defines(_) => Err(refuse(alloc, file, item.line, Feature::TargetMacro)),
        Said::Vpath(_) => {
            let feature = Feature::Directive(Directive::Vpath);
            Err(refuse(alloc, file, item.line, feature))
        }
    }
}

/// What the items of a GNU makefile say of targets, in their order, or the first of them that isn't taken.
#[tactic(auto, using(crate::proofs::JoinedLemmas::joined_nothing, crate::proofs::JoinedLemmas::joined_next, crate::proofs::JoinedLemmas::joined_fault))]
pub fn items_of(alloc: Global, items: &[GnuItem]) -> Result<Vec<Item>, Refused>
    ensures ok { IfOk result (λ made. items_of (map item_of items.now) ≡ Ok made.items) }
    ensures refused { IfErr result (IsRefused (λ why. items_of (map item_of items.now) ≡ Err why)) }
{
    let mut made = Vec::new(alloc);
    let mut left = items;
    while let Some((item, rest)) = left.split_first() {
        add_item(alloc, &mut made, item, rest)?;
        left = rest;
    }
    Ok(made)
}
