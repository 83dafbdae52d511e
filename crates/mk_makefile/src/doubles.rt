//! Rules with `::`: which lines of a name they are, and whether a name has rules with `:` too.
ghost use Rattle.std.specs.Prelude.{◌≡◌, ◌++◌, ◌&&◌, true, false, ℕ, List, IfOk, IfErr, OnOk, MatchOption, map};
ghost use Rattle.std.specs.List.{list_any, flat_map};
ghost use Rattle.std.specs.Option.{option_copied};
ghost use Rattle.mk_names.specs.Names.{has_name, all_added};
ghost use Rattle.mk_makefile.specs.Doubles.{double_lines, is_double_recipe_at, first_double, AreApart, IsKindsFault};
ghost use Rattle.mk_rule_lines.specs.Explicit.{numbers_of};
ghost use Rattle.mk_rule_lines.specs.Rules.{has};
ghost use Rattle.mk_makefile.specs.Kinded.{is_double, double_targets, single_targets, all_single_targets};

use byte_strings::ByteString;
use mk_names::Names;
use mk_rule_lines::{RuleFault, RuleLine};
use std::alloc::{AllocError, Global};

fn is_double_recipe_at(lines: &[RuleLine], number: usize) -> bool
    ensures { result ≡ is_double_recipe_at lines.now number }
{
    match lines.get(number) {
        Some(line) => line.is_double_recipe(),
        None => false,
    }
}

/// The number of the first line with `::` and a recipe of a name: `numbers` are those of the lines that have the name among their
/// targets.
pub fn first_double(lines: &[RuleLine], numbers: &[usize]) -> Option<usize>
    ensures { (name : List ℕ) → numbers.now ≡ numbers_of lines.now name → result ≡ first_double lines.now name }
{
    for number in numbers {
        if is_double_recipe_at(lines, *number) {
            return Some(*number);
        }
    }
    None
}

/// The lines with `::` that have a recipe for a name.
pub fn double_lines<'l>(
    alloc: Global,
    lines: &'l [RuleLine],
    numbers: &[usize],
) -> Result<Vec<&'l RuleLine>, AllocError>
    ensures { IfOk result (λ found. (name : List ℕ) → numbers.now ≡ numbers_of lines.now name
        → map (λ l. l.now) found.items ≡ double_lines lines.now name) }
{
    let mut found = Vec::new(alloc);
    for number in numbers {
        let Some(line) = lines.get(*number) else {
            continue;
        };
        if !line.is_double_recipe() {
            continue;
        }
        found.push(line)?;
    }
    Ok(found)
}

fn any_is_double(lines: &[RuleLine]) -> bool
    ensures { result ≡ list_any is_double lines.now }
{
    lines.iter().any(|line| line.is_double)
}

/// Takes in the targets of a line, where it is a rule with `:`.
fn add_targets(alloc: Global, names: &mut Names, line: &RuleLine) -> Result<(), AllocError>
    ensures { OnOk result (names.new ≡ all_added names.old (single_targets line.now)) }
{
    if line.is_double || !line.is_rule() {
        return Ok(());
    }
    for word in line.targets.iter() {
        let _new = names.mention(alloc, word)?;
    }
    Ok(())
}

/// The targets of the rules with `:`.
fn all_single_targets(alloc: Global, lines: &[RuleLine]) -> Result<Names, AllocError>
    ensures { IfOk result (λ names. names ≡ all_single_targets lines.now) }
{
    let mut names = Names::new(alloc);
    for line in lines {
        add_targets(alloc, &mut names, line)?;
    }
    Ok(names)
}

/// The first target of a rule with `::` that is one of these names.
fn target_among<'l>(names: &Names, line: &'l RuleLine) -> Option<&'l [u8]>
    ensures { MatchOption (option_copied result) (list_any (has_name names.now) (double_targets line.now) ≡ false)
        (λ name. (has name (double_targets line.now) ≡ true) × (has_name names.now name ≡ true)) }
{
    if !line.is_double {
        return None;
    }
    for target in line.targets.iter() {
        if names.number_of(target).is_some() {
            return Some(target);
        }
    }
    None
}

/// Refuses lines of which a name is a target with `:` and with `::`.
pub fn check_kinds(alloc: Global, lines: &[RuleLine]) -> Result<(), RuleFault>
    ensures apart { OnOk result (AreApart lines.now) }
    ensures fault { IfErr result (IsKindsFault lines.now) }
{
    if !any_is_double(lines) {
        return Ok(());
    }
    let names = all_single_targets(alloc, lines)?;
    for line in lines {
        if let Some(target) = target_among(&names, line) {
            let name = ByteString::from_slice(alloc, target)?;
            return Err(RuleFault::BothKinds(name, line.line as usize));
        }
    }
    Ok(())
}
