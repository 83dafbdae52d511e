//! What a name is made from by name, and whether it is phony.
ghost use Rattle.std.specs.Prelude.{◌≡◌, ◌++◌, ℕ, List, [], false, IfOk, OnOk};
ghost use Rattle.std.specs.List.{flat_map, list_any};
ghost use Rattle.mk_rule_lines.specs.Explicit.{is_wait, is_bar, makes_phony, is_phony, is_phony_at, is_default_at, words_by, names_by, names_in, lines_of, numbers_of, explicit_of, order_only_of};

use crate::rule_line::{RuleLine, is_default_rule, is_phony_list};
use byte_strings::ByteStrings;
use mk_profile::Profile;
use std::alloc::{AllocError, Global};

/// Whether the word is `.WAIT`.
pub fn is_wait(word: &[u8]) -> bool
    ensures { result ≡ is_wait word.now }
{
    word == b".WAIT".as_slice()
}

/// Whether the order-only prerequisites of a line in this language stand behind the word.
pub fn is_bar(profile: Profile, word: &[u8]) -> bool
    ensures { result ≡ is_bar profile word.now }
{
    profile.is_wide() && word == b"|".as_slice()
}

/// Whether a bar may stand in the line, told without cutting it into words. Where it may not, none does.
#[tactic(auto, using(crate::proofs::BarLemmas::no_bar, crate::proofs::BarLemmas::no_bar_strict))]
pub fn may_have_bar(line: &RuleLine) -> bool
    ensures { result ≡ false → list_any (is_bar line.now.profile) line.now.prerequisites ≡ false }
{
    line.profile.is_wide() && line.prerequisites.has_byte(b'|')
}

/// The words of a line's prerequisites, or those of its order-only ones, with `.WAIT`.
pub fn words_by(alloc: Global, line: &RuleLine, order_only: bool) -> Result<ByteStrings, AllocError>
    ensures { IfOk result (λ words. words ≡ words_by order_only line.now) }
{
    let mut words = ByteStrings::empty(alloc);
    let mut is_behind = false;
    for word in line.prerequisites.iter() {
        if !is_behind && is_bar(line.profile, word) {
            is_behind = true;
        } else if is_behind == order_only {
            words.push(word)?;
        }
    }
    Ok(words)
}

/// Adds the prerequisites of a line, or its order-only ones, without `.WAIT`.
#[tactic(auto, using(crate::proofs::BarLemmas::none_order_only))]
fn add_names_by(
    names: &mut ByteStrings,
    line: &RuleLine,
    order_only: bool,
) -> Result<(), AllocError>
    ensures { OnOk result (names.new ≡ names.old ++ names_by order_only line.now) }
{
    if order_only && !may_have_bar(line) {
        return Ok(());
    }
    let mut is_behind = false;
    for word in line.prerequisites.iter() {
        if !is_behind && is_bar(line.profile, word) {
            is_behind = true;
        } else if is_behind == order_only && !is_wait(word) {
            names.push(word)?;
        }
    }
    Ok(())
}

/// The prerequisites of a line, without order-only ones.
pub fn names_in(alloc: Global, line: &RuleLine) -> Result<ByteStrings, AllocError>
    ensures { IfOk result (λ names. names ≡ names_in line.now) }
{
    let mut names = ByteStrings::empty(alloc);
    add_names_by(&mut names, line, false)?;
    Ok(names)
}

/// No names, with room for about as many as the first of these lines has.
fn room_of(alloc: Global, lines: &[RuleLine], numbers: &[usize]) -> Result<ByteStrings, AllocError>
    ensures { IfOk result (λ names. names ≡ []) }
{
    let Some(number) = numbers.first() else {
        return Ok(ByteStrings::empty(alloc));
    };
    match lines.get(*number) {
        Some(line) => line.prerequisites.room(alloc),
        None => Ok(ByteStrings::empty(alloc)),
    }
}

/// The prerequisites of a name's lines, or the order-only ones, joined in order: `numbers` are those of the lines that have the name
/// among their targets.
fn names_of(
    alloc: Global,
    lines: &[RuleLine],
    numbers: &[usize],
    order_only: bool,
) -> Result<ByteStrings, AllocError>
    ensures { IfOk result (λ found. (name : List ℕ) → numbers.now ≡ numbers_of lines.now name
        → found ≡ flat_map (names_by order_only) (lines_of lines.now name)) }
{
    let mut found = if order_only {
        ByteStrings::empty(alloc)
    } else {
        room_of(alloc, lines, numbers)?
    };
    for number in numbers {
        let Some(line) = lines.get(*number) else {
            continue;
        };
        add_names_by(&mut found, line, order_only)?;
    }
    Ok(found)
}

/// What a name is made from by name.
pub fn explicit_of(
    alloc: Global,
    lines: &[RuleLine],
    numbers: &[usize],
) -> Result<ByteStrings, AllocError>
    ensures { IfOk result (λ found. (name : List ℕ) → numbers.now ≡ numbers_of lines.now name → found ≡ explicit_of lines.now name) }
{
    names_of(alloc, lines, numbers, false)
}

/// The order-only prerequisites of a name.
pub fn order_only_of(
    alloc: Global,
    lines: &[RuleLine],
    numbers: &[usize],
) -> Result<ByteStrings, AllocError>
    ensures { IfOk result (λ found. (name : List ℕ) → numbers.now ≡ numbers_of lines.now name → found ≡ order_only_of lines.now name) }
{
    names_of(alloc, lines, numbers, true)
}

/// Whether the line makes its targets phony.
fn makes_phony(line: &RuleLine) -> bool
    ensures { result ≡ makes_phony line.now }
{
    is_phony_list(line.special) || line.is_always()
}

/// Whether the line of this number makes its targets phony.
fn is_phony_at(lines: &[RuleLine], number: usize) -> bool
    ensures { result ≡ is_phony_at lines.now number }
{
    match lines.get(number) {
        Some(line) => makes_phony(line),
        None => false,
    }
}

/// Whether one of these lines makes its targets phony.
fn any_is_phony(lines: &[RuleLine], numbers: &[usize]) -> bool
    ensures { result ≡ list_any (is_phony_at lines.now) numbers.now }
{
    numbers.iter().any(|number| is_phony_at(lines, *number))
}

/// Whether the line of this number is one of `.DEFAULT`.
pub fn is_default_at(lines: &[RuleLine], number: usize) -> bool
    ensures { result ≡ is_default_at lines.now number }
{
    match lines.get(number) {
        Some(line) => is_default_rule(line.special),
        None => false,
    }
}

/// Whether the name is phony: `numbers` are those of the lines that have the name among their targets.
pub fn is_phony(lines: &[RuleLine], numbers: &[usize]) -> bool
    ensures { (name : List ℕ) → numbers.now ≡ numbers_of lines.now name → result ≡ is_phony lines.now name }
{
    any_is_phony(lines, numbers)
}
