//! The rule lines of a makefile's items.
ghost use Rattle.std.specs.Prelude.{◌≡◌, ℕ, List, [], None, Some, false, IfOk, IfErr, OnOk, IsTrue};
ghost use Rattle.std.specs.List.{list_any};
ghost use Rattle.mk_reader.specs.declared.special.SpecialName.TheVariants.{Phony};
ghost use Rattle.mk_macros.specs.Ranks.{defined_by, rule_meanings};
ghost use Rattle.mk_rule_lines.specs.Lines.{behind, behind_items, AreWordsOf, IsRuleLine, AreRuleLines, AreTextsFault, IsRuleLineFault, IsLinesFault, IsToldAt, told_place};
ghost use Rattle.mk_macros.specs.Expansion.{Meanings, ExpandsTo, ExpandsToFault, gives};
ghost use Rattle.mk_rule_lines.specs.Signs.{is_sign};

use crate::fault::{RuleFault, TextFault, TextPlace};
use crate::line_words::{LineWords, any_is_sign};
use crate::rule_line::{RuleLine, is_phony_list};
use byte_strings::ByteString;
use mk_macros::{Dynamic, MAX_EXPANSION_BYTES, MacroFault, Macros, Rank};
use mk_profile::Profile;
use mk_reader::{Definition, FileName, Item, Recipe, Rule, Special, SpecialName};
use std::alloc::{AllocError, Global};

/// The place of a line as it is told in this language.
#[tactic(auto, unfolding(crate::specs::Lines::told_place))]
fn told_place(
    alloc: Global,
    profile: Profile,
    file: &FileName,
    line: usize,
) -> Result<Option<TextPlace>, AllocError>
    ensures { IfOk result (λ place. place ≡ told_place profile file.now line) }
{
    if !profile.is_wide() {
        return Ok(None);
    }
    let file = ByteString::from_slice(alloc, file.as_slice())?;
    Ok(Some(TextPlace { file, line }))
}

/// The fault of a rule's texts, told of this place.
fn fault_at(place: Option<TextPlace>, cause: MacroFault) -> RuleFault
    ensures { IsToldAt place cause result }
{
    match cause {
        MacroFault::OutOfMemory => RuleFault::OutOfMemory,
        cause => RuleFault::Macro(TextFault { place, cause }),
    }
}

/// Whether the text is its own expansion, as most texts are: nothing in it is replaced, and it isn't too long.
#[tactic(auto, using(crate::proofs::PlainLemmas::expands_to_itself))]
fn is_fixed(text: &[u8]) -> bool
    ensures { IsTrue result → (names : Meanings) → ExpandsTo names text.now (gives text.now) }
{
    text.len() <= MAX_EXPANSION_BYTES && !text.contains(&b'$')
}

/// Whether that is told by a look at its bytes for any sign.
#[tactic(auto, using(crate::proofs::PlainLemmas::expands_to_itself, crate::proofs::WordByteLemmas::no_dollar))]
fn is_plain(text: &[u8]) -> bool
    ensures expands { IsTrue result → (names : Meanings) → ExpandsTo names text.now (gives text.now) }
    ensures signs { IsTrue result → list_any is_sign text.now ≡ false }
{
    text.len() <= MAX_EXPANSION_BYTES && !any_is_sign(text)
}

/// The words of what the text of a rule line expands to.
fn words_of(alloc: Global, macros: &Macros, text: ByteString) -> Result<LineWords, MacroFault>
    ensures words { IfOk result (λ words. AreWordsOf (defined_by macros.now) text words) }
    ensures fault { IfErr result (ExpandsToFault (rule_meanings (defined_by macros.now)) text) }
{
    if is_fixed(text.as_slice()) {
        return Ok(LineWords::new(text));
    }
    let expansion = macros.expand(alloc, text.as_slice(), &Dynamic::RuleLine)?;
    Ok(LineWords::new(ByteString::new(expansion)))
}

/// The words of a rule's two texts, in which signs may stand.
#[inline(never)]
fn expanded_words(
    alloc: Global,
    macros: &Macros,
    targets: ByteString,
    prerequisites: ByteString,
) -> Result<(LineWords, LineWords), MacroFault>
    ensures targets { IfOk result (λ both. AreWordsOf (defined_by macros.now) targets both.0) }
    ensures prerequisites { IfOk result (λ both. AreWordsOf (defined_by macros.now) prerequisites both.1) }
    ensures fault { IfErr result (AreTextsFault (defined_by macros.now) targets prerequisites) }
{
    let targets = words_of(alloc, macros, targets)?;
    let prerequisites = words_of(alloc, macros, prerequisites)?;
    Ok((targets, prerequisites))
}

/// The words of a rule's two texts.
#[inline(always)]
fn both_words(
    alloc: Global,
    macros: &Macros,
    targets: ByteString,
    prerequisites: ByteString,
) -> Result<(LineWords, LineWords), MacroFault>
    ensures targets { IfOk result (λ both. AreWordsOf (defined_by macros.now) targets both.0) }
    ensures prerequisites { IfOk result (λ both. AreWordsOf (defined_by macros.now) prerequisites both.1) }
    ensures fault { IfErr result (AreTextsFault (defined_by macros.now) targets prerequisites) }
{
    if is_plain(targets.as_slice()) && is_plain(prerequisites.as_slice()) {
        return Ok((LineWords::plain(targets), LineWords::plain(prerequisites)));
    }
    expanded_words(alloc, macros, targets, prerequisites)
}

/// The line of `.PHONY` as a rule line for the names that it lists.
fn phony_line(
    alloc: Global,
    file: FileName,
    line: u32,
    profile: Profile,
    names: LineWords,
) -> RuleLine
    ensures file { result.file ≡ file }
    ensures line { result.line ≡ line }
    ensures profile { result.profile ≡ profile }
    ensures special { result.special ≡ Some Phony }
    ensures targets { result.targets ≡ names }
    ensures prerequisites { result.prerequisites ≡ [] }
    ensures recipe { result.recipe ≡ [] }
    ensures double { result.is_double ≡ false }
{
    RuleLine {
        file,
        line,
        profile,
        special: Some(SpecialName::Phony),
        targets: names,
        prerequisites: LineWords::new(ByteString::new(Vec::new(alloc))),
        recipe: Recipe::new(alloc),
        is_double: false,
    }
}

/// The line of a rule, expanded. There is no memory for one whose number is 2^32 or above.
#[inline(always)]
fn rule_line(
    alloc: Global,
    macros: &Macros,
    special: Option<SpecialName>,
    rule: Rule,
) -> Result<RuleLine, RuleFault>
    ensures line { IfOk result (IsRuleLine (defined_by macros.now) special rule) }
    ensures fault { IfErr result (IsRuleLineFault (defined_by macros.now) rule) }
{
    let Rule {
        file,
        line,
        is_double,
        targets,
        prerequisites,
        recipe,
    } = rule;
    let (targets, prerequisites) = match both_words(alloc, macros, targets, prerequisites) {
        Ok(both) => both,
        Err(cause) => {
            let place = told_place(alloc, macros.profile(), &file, line)?;
            return Err(fault_at(place, cause));
        }
    };
    let Ok(line) = u32::try_from(line) else {
        return Err(RuleFault::OutOfMemory);
    };
    let profile = macros.profile();
    if is_phony_list(special) {
        return Ok(phony_line(alloc, file, line, profile, prerequisites));
    }
    Ok(RuleLine {
        file,
        line,
        profile,
        special,
        targets,
        prerequisites,
        recipe,
        is_double: special.is_none() && is_double,
    })
}

/// Takes a definition of the makefile into the macros. Without memory each name has what it had.
fn define(alloc: Global, macros: &mut Macros, definition: Definition) -> Result<(), AllocError>
    ensures { OnOk result (defined_by macros.new ≡ behind (defined_by macros.old) definition) }
{
    macros.define(
        alloc,
        Rank::Makefile,
        definition.name.as_slice(),
        definition.value.as_slice(),
        definition.append,
    )
}

/// The rule lines of a makefile's items, in order, each expanded with the definitions above it. The macros take in
/// the definitions as they come, and have all of them in the end.
pub fn rule_lines(
    alloc: Global,
    items: Vec<Item>,
    macros: &mut Macros,
) -> Result<Vec<RuleLine>, RuleFault>
    ensures lines { IfOk result (λ lines. AreRuleLines (defined_by macros.old) items.items lines.items) }
    ensures macros { OnOk result (defined_by macros.new ≡ behind_items (defined_by macros.old) items.items) }
    ensures fault { IfErr result (IsLinesFault (defined_by macros.old) items.items) }
{
    let mut lines = Vec::with_capacity(alloc, items.len())?;
    for item in items {
        match item {
            Item::Definition(definition) => define(alloc, macros, definition)?,
            Item::Rule(rule) => lines.push(rule_line(alloc, macros, None, rule)?)?,
            Item::Special(special) => {
                let Special { name, rule } = special;
                lines.push(rule_line(alloc, macros, Some(name), rule)?)?;
            }
        }
    }
    Ok(lines)
}
