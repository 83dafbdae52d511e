//! Which of the rules that are built in a makefile has none of its own for.
ghost use Rattle.std.specs.Prelude.{◌≡◌, ◌≢◌, ℕ, List, Bool, not, filter, None, IfOk, OnOk, IfSome};
ghost use Rattle.byte_strings.specs.Blanks.{words};
ghost use Rattle.mk_macros.specs.Expansion.{ExpandsTo, gives};
ghost use Rattle.mk_macros.specs.Ranks.{defined_by, rule_meanings};
ghost use Rattle.mk_macros.specs.declared.fault.MacroFault.TheVariants.{OutOfMemory};
ghost use Rattle.mk_rule_lines.specs.Lines.{behind};
ghost use Rattle.mk_rule_lines.specs.Rules.{has};
ghost use Rattle.dmk_reading.specs.BuiltIn.{TellsOwn, texts, standing};

use crate::built_in::RULES;
use byte_strings::Words;
use mk_macros::{Dynamic, MacroFault, Macros, Rank};
use mk_reader::{Definition, Item};
use std::alloc::{AllocError, Global};

/// Whether a text has the word.
fn has_word(name: &[u8], text: &[u8]) -> bool
    ensures { result ≡ has name.now (words text.now) }
{
    for word in Words::new(text) {
        if name == word {
            return true;
        }
    }
    false
}

/// The rules whose names aren't among the words of the text.
fn without<'r>(
    alloc: Global,
    rules: &[(&'r [u8], &'r [u8])],
    text: &[u8],
) -> Result<Vec<(&'r [u8], &'r [u8])>, AllocError>
    ensures { IfOk result (λ left. texts left.items
        ≡ filter (λ rule. not (has rule.0 (words text.now))) (texts rules.now)) }
{
    let mut left = Vec::new(alloc);
    for rule in rules {
        if !has_word(rule.0, text) {
            left.push(*rule)?;
        }
    }
    Ok(left)
}

/// Nothing, unless memory was wanted.
fn unless_out_of_memory(fault: MacroFault) -> Result<(), AllocError>
    ensures { OnOk result (fault ≢ OutOfMemory) }
{
    match fault {
        MacroFault::OutOfMemory => Err(AllocError),
        _ => Ok(()),
    }
}

/// What a rule's targets expand to, if they have an expansion. A line without one is refused once all lines are expanded.
pub(crate) fn expansion(
    alloc: Global,
    macros: &Macros,
    text: &[u8],
) -> Result<Option<Vec<u8>>, AllocError>
    ensures some { IfOk result (λ found. IfSome found (λ v. ExpandsTo (rule_meanings (defined_by macros.now)) text.now (gives v.items))) }
    ensures none { IfOk result (λ found. found ≡ None → (bytes : List ℕ) → ExpandsTo (rule_meanings (defined_by macros.now)) text.now (gives bytes) → ⊥) }
{
    match macros.expand(alloc, text, &Dynamic::RuleLine) {
        Ok(made) => Ok(Some(made)),
        Err(fault) => {
            unless_out_of_memory(fault)?;
            Ok(None)
        }
    }
}

/// Takes a definition of the makefile into the macros.
pub(crate) fn define(
    alloc: Global,
    macros: &mut Macros,
    definition: &Definition,
) -> Result<(), AllocError>
    ensures { OnOk result (defined_by macros.new ≡ behind (defined_by macros.old) definition.now) }
{
    macros.define(
        alloc,
        Rank::Makefile,
        definition.name.as_slice(),
        definition.value.as_slice(),
        definition.append,
    )
}

/// The built-in rules for whose names the makefile has no rule of its own: a rule line has its names by what its targets expand to
/// with the definitions above it. The macros take in the definitions.
pub fn standing_rules(
    alloc: Global,
    macros: &mut Macros,
    items: &[Item],
) -> Result<Vec<(&'static [u8], &'static [u8])>, AllocError>
    ensures { IfOk result (λ left. (own : (name : List ℕ) → Bool) × TellsOwn (defined_by macros.old) items.now own
        × (texts left.items ≡ standing own)) }
{
    let mut left = Vec::from_slice(alloc, &RULES)?;
    for item in items {
        match item {
            Item::Definition(definition) => define(alloc, macros, definition)?,
            Item::Rule(rule) => {
                if let Some(targets) = expansion(alloc, macros, rule.targets.as_slice())? {
                    left = without(alloc, &left, &targets)?;
                }
            }
            Item::Special(_) => {}
        }
    }
    Ok(left)
}
