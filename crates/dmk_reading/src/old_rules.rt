//! Rules of files that are taken as old: they are ignored, and the other targets of their lines keep what these say.
ghost use Rattle.std.specs.Prelude.{◌≡◌, ◌++◌, ◌∷◌, [], List, ℕ, Some, length, IfOk, OnOk};
ghost use Rattle.std.specs.List.{list_any};
ghost use Rattle.byte_strings.specs.Blanks.{words};
ghost use Rattle.mk_macros.specs.Ranks.{defined_by};
ghost use Rattle.mk_reader.specs.declared.item.Item.{Item as MakefileItem};
ghost use Rattle.mk_reader.specs.declared.item.Item.TheVariants as items;
ghost use Rattle.mk_rule_lines.specs.Lines.{behind_items};
ghost use Rattle.mk_rule_lines.specs.Rules.{has, has_percent, comes_out, is_phony_list};
ghost use Rattle.dmk_reading.specs.OldRules.{written, text_with, chosen, any_chosen, bare, with_targets, with_prerequisites, begins_among, in_order, parted, stays, rule_left, phony_left, IsLeft, IsSpecialLeft, AreLeft};

use crate::own_rules::{define, expansion};
use byte_strings::{ByteString, ByteStrings, Words};
use mk_macros::Macros;
use mk_reader::{Item, Recipe, Rule, Special, SpecialName};
use mk_rule_lines::{has, has_percent};
use std::alloc::{AllocError, Global};

/// Whether a word is among the names, or isn't.
fn is_chosen(old: &ByteStrings, among: bool, word: &[u8]) -> bool
    ensures { result ≡ comes_out among (has word.now old.now) }
{
    if among {
        has(old, word)
    } else {
        !has(old, word)
    }
}

/// Adds a word to a text, in which `$$` stands for `$`.
fn append_written(text: &mut Vec<u8>, word: &[u8]) -> Result<(), AllocError>
    ensures { OnOk result (text.new.items ≡ text.old.items ++ written word.now) }
{
    for byte in word {
        if *byte == b'$' {
            text.push(b'$')?;
        }
        text.push(*byte)?;
    }
    Ok(())
}

fn append_word(text: &mut Vec<u8>, word: &[u8]) -> Result<(), AllocError>
    ensures { OnOk result (text.new.items ≡ text.old.items ++ (written word.now ++ 32 ∷ [])) }
{
    append_written(text, word)?;
    text.push(b' ')?;
    Ok(())
}

/// A text of those words of another one that are among the names, or of those that aren't.
fn text_with(
    alloc: Global,
    old: &ByteStrings,
    among: bool,
    text: &[u8],
) -> Result<ByteString, AllocError>
    ensures { IfOk result (λ made. made ≡ text_with (chosen old.now among (words text.now))) }
{
    let mut made = Vec::new(alloc);
    for word in Words::new(text) {
        if is_chosen(old, among, word) {
            append_word(&mut made, word)?;
        }
    }
    Ok(ByteString::new(made))
}

/// Whether some word is among the names, or some isn't.
fn any_chosen(old: &ByteStrings, among: bool, text: &[u8]) -> bool
    ensures { result ≡ any_chosen old.now among (words text.now) }
{
    for word in Words::new(text) {
        if is_chosen(old, among, word) {
            return true;
        }
    }
    false
}

fn any_percent(text: &[u8]) -> bool
    ensures { result ≡ list_any has_percent (words text.now) }
{
    for word in Words::new(text) {
        if has_percent(word) {
            return true;
        }
    }
    false
}

/// Whether the first of the words is among the names.
fn begins_among(old: &ByteStrings, text: &[u8]) -> bool
    ensures { result ≡ begins_among old.now (words text.now) }
{
    let mut left = Words::new(text);
    match left.next() {
        Some(word) => has(old, word),
        None => false,
    }
}

/// A line that says of these targets that there are such, where the rule stands.
fn bare(alloc: Global, rule: &Rule, targets: ByteString) -> Result<Rule, AllocError>
    ensures { IfOk result (λ made. made ≡ bare rule.now targets) }
{
    Ok(Rule {
        file: rule.file.share()?,
        line: rule.line,
        is_double: false,
        targets,
        prerequisites: ByteString::new(Vec::new(alloc)),
        recipe: Recipe::new(alloc),
    })
}

fn with_targets(rule: Rule, targets: ByteString) -> Rule
    ensures { result ≡ with_targets rule targets }
{
    let mut rule = rule;
    rule.targets = targets;
    rule
}

/// Adds two lines, of which the first target stays the first.
fn push_in_order(
    left: &mut Vec<Item>,
    first: bool,
    gone: Item,
    kept: Item,
) -> Result<(), AllocError>
    ensures { OnOk result (left.new.items ≡ left.old.items ++ in_order first gone kept) }
{
    if first {
        left.push(gone)?;
        left.push(kept)?;
    } else {
        left.push(kept)?;
        left.push(gone)?;
    }
    Ok(())
}

/// Adds what is left of a rule line with such a target among these.
fn push_parted(
    alloc: Global,
    left: &mut Vec<Item>,
    old: &ByteStrings,
    rule: Rule,
    targets: &[u8],
) -> Result<(), AllocError>
    ensures { OnOk result (left.new.items ≡ left.old.items ++ parted old.now rule (words targets.now)) }
{
    let gone = Item::Rule(bare(alloc, &rule, text_with(alloc, old, true, targets)?)?);
    if !any_chosen(old, false, targets) {
        left.push(gone)?;
        return Ok(());
    }
    let others = text_with(alloc, old, false, targets)?;
    let kept = Item::Rule(with_targets(rule, others));
    push_in_order(left, begins_among(old, targets), gone, kept)
}

/// Adds what is left of a rule line with these targets.
fn push_rule(
    alloc: Global,
    left: &mut Vec<Item>,
    old: &ByteStrings,
    rule: Rule,
    targets: &[u8],
) -> Result<(), AllocError>
    ensures { OnOk result (left.new.items ≡ left.old.items ++ rule_left old.now rule (words targets.now)) }
{
    if any_percent(targets) || !any_chosen(old, true, targets) {
        left.push(Item::Rule(rule))?;
        return Ok(());
    }
    push_parted(alloc, left, old, rule, targets)
}

/// Adds what is left of a line of `.PHONY` for these names.
fn push_phony(
    alloc: Global,
    left: &mut Vec<Item>,
    old: &ByteStrings,
    special: Special,
    names: &[u8],
) -> Result<(), AllocError>
    ensures { OnOk result (left.new.items ≡ left.old.items ++ phony_left old.now special (words names.now)) }
{
    let mut special = special;
    special.rule.prerequisites = text_with(alloc, old, false, names)?;
    left.push(Item::Special(special))?;
    Ok(())
}

/// Adds what is left of a rule.
fn add_rule(
    alloc: Global,
    left: &mut Vec<Item>,
    old: &ByteStrings,
    macros: &Macros,
    rule: Rule,
) -> Result<(), AllocError>
    ensures { OnOk result ((front : List MakefileItem) × IsLeft old.now (defined_by macros.now) (items.Rule rule) front × (left.new.items ≡ left.old.items ++ front)) }
{
    match expansion(alloc, macros, rule.targets.as_slice())? {
        Some(targets) => push_rule(alloc, left, old, rule, &targets),
        None => {
            left.push(Item::Rule(rule))?;
            Ok(())
        }
    }
}

/// Adds what is left of a special rule.
fn add_special(
    alloc: Global,
    left: &mut Vec<Item>,
    old: &ByteStrings,
    macros: &Macros,
    special: Special,
) -> Result<(), AllocError>
    ensures { OnOk result ((front : List MakefileItem) × IsLeft old.now (defined_by macros.now) (items.Special special) front × (left.new.items ≡ left.old.items ++ front)) }
{
    if special.name != SpecialName::Phony {
        left.push(Item::Special(special))?;
        return Ok(());
    }
    match expansion(alloc, macros, special.rule.prerequisites.as_slice())? {
        Some(names) => push_phony(alloc, left, old, special, &names),
        None => {
            left.push(Item::Special(special))?;
            Ok(())
        }
    }
}

/// Adds what is left of an item. The macros take in a definition.
fn add_item(
    alloc: Global,
    left: &mut Vec<Item>,
    old: &ByteStrings,
    macros: &mut Macros,
    item: Item,
) -> Result<(), AllocError>
    ensures left { OnOk result ((front : List MakefileItem) × IsLeft old.now (defined_by macros.old) item front × (left.new.items ≡ left.old.items ++ front)) }
    ensures macros { OnOk result (defined_by macros.new ≡ behind_items (defined_by macros.old) (item ∷ [])) }
{
    match item {
        Item::Definition(definition) => {
            define(alloc, macros, &definition)?;
            left.push(Item::Definition(definition))?;
            Ok(())
        }
        Item::Rule(rule) => add_rule(alloc, left, old, macros, rule),
        Item::Special(special) => add_special(alloc, left, old, macros, special),
    }
}

/// What is left of the items where the rules of these names are ignored.
pub(crate) fn left_items(
    alloc: Global,
    old: &ByteStrings,
    macros: &mut Macros,
    items: Vec<Item>,
) -> Result<Vec<Item>, AllocError>
    ensures { IfOk result (λ left. AreLeft old.now (defined_by macros.old) items.items left.items) }
{
    let mut left = Vec::with_capacity(alloc, items.len())?;
    for item in items {
        add_item(alloc, &mut left, old, macros, item)?;
    }
    Ok(left)
}
