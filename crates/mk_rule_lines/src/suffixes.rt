//! The suffixes of `.SUFFIXES` rules.
ghost use Rattle.std.specs.Prelude.{◌≡◌, IfOk, OnOk, if◌then◌else◌};
ghost use Rattle.mk_rule_lines.specs.Rules.{added, with_names, is_suffix_list, suffixes_of};

use crate::line_words::LineWords;
use crate::rule_line::{RuleLine, has};
use byte_strings::ByteStrings;
use mk_reader::SpecialName;
use std::alloc::{AllocError, Global};

fn is_suffix_list(special: Option<SpecialName>) -> bool
    ensures { result ≡ is_suffix_list special }
{
    match special {
        Some(SpecialName::Suffixes) => true,
        _ => false,
    }
}

/// Adds the names that are new, in order.
fn add_names(suffixes: &mut ByteStrings, names: &LineWords) -> Result<(), AllocError>
    ensures { OnOk result (suffixes.new ≡ added suffixes.old names.now) }
{
    for name in names.iter() {
        if !has(suffixes, name) {
            suffixes.push(name)?;
        }
    }
    Ok(())
}

/// The suffixes behind a `.SUFFIXES` rule with these names: none where there are no names.
fn with_names(
    alloc: Global,
    suffixes: ByteStrings,
    names: &LineWords,
) -> Result<ByteStrings, AllocError>
    ensures { IfOk result (λ suffixes_after. suffixes_after ≡ with_names suffixes names.now) }
{
    if names.is_empty() {
        return Ok(ByteStrings::empty(alloc));
    }
    let mut suffixes = suffixes;
    add_names(&mut suffixes, names)?;
    Ok(suffixes)
}

/// The suffixes behind a line.
fn behind_line(
    alloc: Global,
    suffixes: ByteStrings,
    line: &RuleLine,
) -> Result<ByteStrings, AllocError>
    ensures { IfOk result (λ suffixes_after. suffixes_after
        ≡ (if is_suffix_list line.now.special then with_names suffixes line.now.prerequisites else suffixes)) }
{
    if is_suffix_list(line.special) {
        return with_names(alloc, suffixes, &line.prerequisites);
    }
    Ok(suffixes)
}

/// The suffixes that count for all lines: those of the list as the last line leaves it.
pub fn suffixes_of(alloc: Global, lines: &[RuleLine]) -> Result<ByteStrings, AllocError>
    ensures { IfOk result (λ suffixes. suffixes ≡ suffixes_of lines.now) }
{
    let mut suffixes = ByteStrings::empty(alloc);
    for line in lines {
        suffixes = behind_line(alloc, suffixes, line)?;
    }
    Ok(suffixes)
}
