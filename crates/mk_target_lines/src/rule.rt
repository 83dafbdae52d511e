//! What stands behind the colon of a line.
ghost use Rattle.std.specs.Prelude.{◌≡◌, Ok, Err, ℕ, List, Option, IfOk, IfErr, option_map, option_copied};
ghost use Rattle.std.specs.List.{list_all};
ghost use Rattle.mk_assignments.specs.Steps.{defined_by};
ghost use Rattle.mk_target_lines.specs.Rule.{behind_colons, defined, value_with, with_recipe, is_pattern, mixed, static, static_with, static_named, stripped, ruled};
ghost use Rattle.mk_target_lines.specs.Shown.{IsFaulty, defined_of, found_definition, pattern_of, rule_of, text_of};

use crate::came::{Rule, TargetDefinition};
use crate::cut::{cut, with_colons};
use crate::fault::{Fault, Refusal};
use crate::mark::Mark;
use crate::names::{Form, Names, form_of, names_of};
use crate::one_line::one_line;
use byte_strings::{ByteStrings, Iter};
use mk_assignments::{Definition, Modifiers, Statement, statement_of};
use mk_words::{before_spaces, behind_spaces};
use std::alloc::{AllocError, Global};
use std::marker::Model;

/// Whether a second colon stands in front, and what stands behind it.
pub(crate) fn behind_colons(behind: &[u8]) -> (bool, &[u8])
    ensures { (result.0, result.1.now) ≡ behind_colons behind.now }
{
    match behind.split_first() {
        None => (false, b""),
        Some((byte, rest)) => {
            if *byte == b':' {
                (true, rest)
            } else {
                (false, behind)
            }
        }
    }
}

/// What a text defines for targets, if it is no rule's.
pub(crate) fn definition_in(text: &[u8]) -> Result<Option<(Modifiers, Definition<'_>)>, Fault>
    ensures ok { IfOk result (λ found. defined text.now ≡ Ok (option_map found_definition found)) }
    ensures fault { IfErr result (λ fault. defined text.now ≡ Err fault) }
{
    match statement_of(text) {
        None | Some(Statement::Exports(_)) | Some(Statement::Unexports(_)) => Ok(None),
        Some(Statement::Defines(modifiers, definition)) => Ok(Some((modifiers, definition))),
        Some(Statement::Begins(_, _)) | Some(Statement::Undefines(_, _)) => {
            Err(Fault::MalformedDefinition)
        }
    }
}

fn value_with(alloc: Global, value: &[u8], recipe: Option<&[u8]>) -> Result<Vec<u8>, AllocError>
    ensures { IfOk result (λ v. v.items ≡ value_with value.now (option_copied recipe.entry)) }
{
    let mut out = Vec::from_slice(alloc, value)?;
    if let Some(recipe) = recipe {
        let line = one_line(alloc, recipe)?;
        out.push(b';')?;
        out.extend_from_slice(line.as_slice())?;
    }
    Ok(out)
}

pub(crate) fn definition_for(
    alloc: Global,
    targets: ByteStrings,
    modifiers: Modifiers,
    definition: Definition<'_>,
    recipe: Option<&[u8]>,
) -> Result<TargetDefinition, AllocError>
    ensures targets { IfOk result (λ d. d.targets ≡ targets) }
    ensures modifiers { IfOk result (λ d. d.modifiers ≡ modifiers) }
    ensures definition { IfOk result (λ d. defined_of d ≡ with_recipe (defined_by definition.entry) (option_copied recipe.entry)) }
{
    let name = Vec::from_slice(alloc, definition.name)?;
    let value = value_with(alloc, definition.value, recipe)?;
    Ok(TargetDefinition {
        targets,
        modifiers,
        name,
        sign: definition.sign,
        value,
    })
}

/// The target pattern of a static pattern rule, where there is one, and the text of the prerequisites.
#[derive(Drop)]
struct Static<'a> {
    pattern: Option<(Vec<u8>, Vec<u8>)>,
    text: &'a [u8],
}

impl<'a> Model for Static<'a> {
    ghost Value = { Option (List ℕ × List ℕ) × List ℕ };

    ghost view = { λ s. (pattern_of s.pattern, s.text.now) };
}

fn static_with(form: Form, behind: Option<&[u8]>) -> Result<Static<'_>, Fault>
    ensures ok { IfOk result (λ found. static_with form (option_copied behind.entry) ≡ Ok found) }
    ensures fault { IfErr result (λ fault. static_with form (option_copied behind.entry) ≡ Err fault) }
{
    let Form { front, behind: end } = form;
    match end {
        None => Err(Fault::TargetPatternWithoutPercent),
        Some(end) => Ok(Static {
            pattern: Some((front, end)),
            text: behind.unwrap_or(b"".as_slice()),
        }),
    }
}

fn static_named(alloc: Global, found: Names<'_>) -> Result<Static<'_>, Refusal>
    ensures ok { IfOk result (λ it. static_named found.entry.0 found.entry.1 ≡ Ok it) }
    ensures fault { IfErr result (IsFaulty (λ fault. static_named found.entry.0 found.entry.1 ≡ Err fault)) }
{
    let mut names = found.names.iter();
    let Some(name) = names.next() else {
        return Err(Refusal::Fault(Fault::MissingTargetPattern));
    };
    if names.next().is_some() {
        return Err(Refusal::Fault(Fault::MultipleTargetPatterns));
    }
    let form = form_of(alloc, name)?;
    let it = static_with(form, found.behind)?;
    Ok(it)
}

fn static_in(alloc: Global, text: &[u8]) -> Result<Static<'_>, Refusal>
    ensures ok { IfOk result (λ it. static text.now ≡ Ok it) }
    ensures fault { IfErr result (IsFaulty (λ fault. static text.now ≡ Err fault)) }
{
    let found = cut(alloc, Mark::Byte(b':'), text)?;
    if found.left.is_empty() {
        return Ok(Static {
            pattern: None,
            text,
        });
    }
    let names = names_of(alloc, Some(b':'), text)?;
    static_named(alloc, names)
}

fn is_pattern(alloc: Global, name: &[u8]) -> Result<bool, AllocError>
    ensures { IfOk result (λ is. is ≡ is_pattern name.now) }
{
    let form = form_of(alloc, name)?;
    Ok(form.behind.is_some())
}

fn are_patterns(alloc: Global, names: Iter<'_>) -> Result<bool, AllocError>
    ensures { IfOk result (λ are. are ≡ list_all is_pattern names.entry) }
{
    for name in names {
        if !is_pattern(alloc, name)? {
            return Ok(false);
        }
    }
    Ok(true)
}

fn mixed(alloc: Global, targets: &ByteStrings, is_static: bool) -> Result<Option<Fault>, AllocError>
    ensures { IfOk result (λ fault. fault ≡ mixed targets.now is_static) }
{
    let mut names = targets.iter();
    let Some(first) = names.next() else {
        return Ok(None);
    };
    if !is_pattern(alloc, first)? {
        return Ok(None);
    }
    if is_static {
        return Ok(Some(Fault::MixedWithStatic));
    }
    if are_patterns(alloc, names)? {
        Ok(None)
    } else {
        Ok(Some(Fault::MixedWithNormal))
    }
}

/// The rule of these targets, with this behind its colons.
pub(crate) fn ruled(
    alloc: Global,
    targets: ByteStrings,
    is_double: bool,
    is_grouped: bool,
    recipe: Option<Vec<u8>>,
    text: &[u8],
) -> Result<Rule, Refusal>
    ensures ok { IfOk result (λ it. ruled targets is_double is_grouped (text_of recipe) (static text.now) ≡ Ok (rule_of it)) }
    ensures fault { IfErr result (IsFaulty (λ fault. ruled targets is_double is_grouped (text_of recipe) (static text.now) ≡ Err fault)) }
{
    let found = static_in(alloc, text)?;
    if let Some(fault) = mixed(alloc, &targets, found.pattern.is_some())? {
        return Err(Refusal::Fault(fault));
    }
    let prerequisites = with_colons(alloc, before_spaces(behind_spaces(found.text)))?;
    Ok(Rule {
        targets,
        is_double,
        is_grouped,
        pattern: found.pattern,
        prerequisites,
        recipe,
    })
}
