//! All implicit rules of a makefile, made once.
ghost use Rattle.std.specs.Prelude.{◌≡◌, true, [], ◌∷◌, ◌++◌, map, option_to_list, IfOk, OnOk};
ghost use Rattle.mk_rule_lines.specs.Kinds.{leaves_folders};
ghost use Rattle.mk_rule_lines.specs.Rules.{is_pattern_rule, targets_by};
ghost use Rattle.mk_makefile.specs.Table.{IsTable, recipes_in};
ghost use Rattle.mk_makefile.specs.Forms.{pattern_form, further_form, forms_of_names, forms_of_line, suffix_form, pair_forms, single_forms, forms_from, suffix_forms, pattern_forms, listed_forms, forms_of};
ghost use Rattle.mk_makefile.specs.Order.{in_order_of};

use crate::form::Form;
use crate::order::in_order_of;
use crate::table::TargetTable;
use byte_strings::{ByteString, ByteStrings, Words};
use mk_profile::Profile;
use mk_rule_lines::{RuleLine, before_percent, behind_percent, has_slash, words_by};
use std::alloc::{AllocError, Global};

/// Whether a pattern rule with this target leaves the folders of names aside.
fn leaves_folders(profile: Profile, target: &[u8]) -> bool
    ensures { result ≡ leaves_folders profile target.now }
{
    match profile {
        Profile::Strict => false,
        Profile::Posix => !has_slash(target),
    }
}

/// These names, and behind them the others.
fn joined(names: ByteStrings, others: &ByteStrings) -> Result<ByteStrings, AllocError>
    ensures { IfOk result (λ all. all ≡ names ++ others.now) }
{
    let mut all = names;
    for name in others.iter() {
        all.push(name)?;
    }
    Ok(all)
}

fn pattern_form(
    alloc: Global,
    rule: usize,
    line: &RuleLine,
    target: &[u8],
    leader: Option<ByteString>,
    others: ByteStrings,
) -> Result<Form, AllocError>
    ensures { IfOk result (λ form. form ≡ pattern_form rule line.now target.now leader others) }
{
    let ordinary = words_by(alloc, line, false)?;
    let order_only = words_by(alloc, line, true)?;
    let count = ordinary.len();
    Ok(Form {
        before: ByteString::from_slice(alloc, before_percent(target))?,
        after: ByteString::from_slice(alloc, behind_percent(target))?,
        prerequisites: joined(ordinary, &order_only)?,
        ordinary: count,
        leaves_folders: leaves_folders(line.profile, target),
        takes_empty: false,
        rule,
        leader,
        others,
    })
}

/// The name `%` with this behind it, alone.
fn pattern_to(alloc: Global, back: &[u8]) -> Result<ByteStrings, AllocError>
    ensures { IfOk result (λ names. names ≡ (37 ∷ back.now) ∷ []) }
{
    let mut pattern = Vec::from_slice(alloc, b"%")?;
    pattern.extend_from_slice(back)?;
    let mut names = ByteStrings::empty(alloc);
    names.push(&pattern)?;
    Ok(names)
}

fn suffix_form(
    alloc: Global,
    after: &[u8],
    back: &[u8],
    takes_empty: bool,
    rule: usize,
) -> Result<Form, AllocError>
    ensures { IfOk result (λ form. form ≡ suffix_form after.now back.now takes_empty rule) }
{
    Ok(Form {
        before: ByteString::new(Vec::new(alloc)),
        after: ByteString::from_slice(alloc, after)?,
        prerequisites: pattern_to(alloc, back)?,
        ordinary: 1,
        leaves_folders: false,
        takes_empty,
        rule,
        leader: None,
        others: ByteStrings::empty(alloc),
    })
}

/// The words.
fn listed(alloc: Global, words: Words) -> Result<ByteStrings, AllocError>
    ensures { IfOk result (λ names. names ≡ words.entry) }
{
    let mut names = ByteStrings::empty(alloc);
    for word in words {
        names.push(word)?;
    }
    Ok(names)
}

/// Adds the forms of the targets behind the first.
fn add_further_forms(
    alloc: Global,
    forms: &mut Vec<Form>,
    rule: usize,
    line: &RuleLine,
    leader: &[u8],
    others: &ByteStrings,
) -> Result<(), AllocError>
    ensures { OnOk result (forms.new.items ≡ forms.old.items ++ map (further_form rule line.now leader.now) others.now) }
{
    for other in others.iter() {
        let leader = Some(ByteString::from_slice(alloc, leader)?);
        let none = ByteStrings::empty(alloc);
        forms.push(pattern_form(alloc, rule, line, other, leader, none)?)?;
    }
    Ok(())
}

/// Adds the forms of a pattern rule.
fn add_forms_of_line(
    alloc: Global,
    forms: &mut Vec<Form>,
    rule: usize,
    line: &RuleLine,
) -> Result<(), AllocError>
    requires { is_pattern_rule line.now ≡ true }
    ensures { OnOk result (forms.new.items ≡ forms.old.items ++ forms_of_line rule line.now) }
{
    let mut words = line.targets.iter();
    let Some(target) = words.next() else {
        return Ok(());
    };
    let others = listed(alloc, words)?;
    let beside = others.copy(alloc)?;
    forms.push(pattern_form(alloc, rule, line, target, None, beside)?)?;
    add_further_forms(alloc, forms, rule, line, target, &others)
}

fn add_pattern_forms(
    alloc: Global,
    forms: &mut Vec<Form>,
    lines: &[RuleLine],
) -> Result<(), AllocError>
    ensures { OnOk result (forms.new.items ≡ forms.old.items ++ pattern_forms 0 lines.now) }
{
    for (i, line) in lines.iter().enumerate() {
        if !line.is_pattern_rule() {
            continue;
        }
        add_forms_of_line(alloc, forms, i, line)?;
    }
    Ok(())
}

/// The line of the rule `st`, where the table has it.
fn recipe_of_pair(
    alloc: Global,
    rules: &TargetTable,
    s: &[u8],
    t: &[u8],
) -> Result<Option<usize>, AllocError>
    ensures { IfOk result (λ rule. option_to_list rule ≡ recipes_in rules.now (s.now ++ t.now)) }
{
    let mut name = Vec::from_slice(alloc, s)?;
    name.extend_from_slice(t)?;
    Ok(rules.recipe(&name))
}

/// Adds the form of the rule `st`, where the table has it.
fn add_pair(
    alloc: Global,
    forms: &mut Vec<Form>,
    rules: &TargetTable,
    s: &[u8],
    t: &[u8],
) -> Result<(), AllocError>
    ensures { OnOk result (forms.new.items ≡ forms.old.items ++ pair_forms (recipes_in rules.now) s.now t.now) }
{
    if let Some(rule) = recipe_of_pair(alloc, rules, s, t)? {
        forms.push(suffix_form(alloc, t, s, false, rule)?)?;
    }
    Ok(())
}

/// Adds the form of the rule `s`, where the table has it.
fn add_single(
    alloc: Global,
    forms: &mut Vec<Form>,
    rules: &TargetTable,
    s: &[u8],
) -> Result<(), AllocError>
    ensures { OnOk result (forms.new.items ≡ forms.old.items ++ single_forms (recipes_in rules.now) s.now) }
{
    if let Some(rule) = rules.recipe(s) {
        forms.push(suffix_form(alloc, &[], s, true, rule)?)?;
    }
    Ok(())
}

/// Adds the forms of the rules that begin with a suffix.
fn add_forms_from(
    alloc: Global,
    forms: &mut Vec<Form>,
    rules: &TargetTable,
    suffixes: &ByteStrings,
    s: &[u8],
) -> Result<(), AllocError>
    ensures { OnOk result (forms.new.items ≡ forms.old.items ++ forms_from (recipes_in rules.now) suffixes.now s.now) }
{
    for t in suffixes.iter() {
        add_pair(alloc, forms, rules, s, t)?;
    }
    add_single(alloc, forms, rules, s)
}

fn add_suffix_forms(
    alloc: Global,
    forms: &mut Vec<Form>,
    rules: &TargetTable,
    suffixes: &ByteStrings,
) -> Result<(), AllocError>
    ensures { OnOk result (forms.new.items ≡ forms.old.items ++ suffix_forms (recipes_in rules.now) suffixes.now) }
{
    for s in suffixes.iter() {
        add_forms_from(alloc, forms, rules, suffixes, s)?;
    }
    Ok(())
}

/// The forms of all pattern rules in the order of their lines, then those of the suffix rules in the order of the suffixes.
fn listed_forms(
    alloc: Global,
    lines: &[RuleLine],
    suffixes: &ByteStrings,
    rules: &TargetTable,
) -> Result<Vec<Form>, AllocError>
    requires { IsTable (targets_by true suffixes.now) lines.now rules.now }
    ensures { IfOk result (λ forms. forms.items ≡ listed_forms suffixes.now lines.now) }
{
    let mut forms = Vec::new(alloc);
    add_pattern_forms(alloc, &mut forms, lines)?;
    add_suffix_forms(alloc, &mut forms, rules, suffixes)?;
    Ok(forms)
}

/// The forms of all pattern and suffix rules, in the order in which they are tried. `rules` is the table of the suffix
/// rules.
///
/// Made once, so that pairs of suffixes and the lengths of stems cost nothing for each name; a name takes memory only for the forms
/// that fit it.
pub(crate) fn forms_of(
    alloc: Global,
    lines: &[RuleLine],
    suffixes: &ByteStrings,
    rules: &TargetTable,
) -> Result<Vec<Form>, AllocError>
    requires { IsTable (targets_by true suffixes.now) lines.now rules.now }
    ensures { IfOk result (λ forms. forms.items ≡ forms_of suffixes.now lines.now) }
{
    let listed = listed_forms(alloc, lines, suffixes, rules)?;
    in_order_of(alloc, lines, listed)
}
