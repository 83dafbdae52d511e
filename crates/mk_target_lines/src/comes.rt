//! What a line comes to.
ghost use Rattle.byte_strings.specs.Blanks.{is_nonempty};
ghost use Rattle.std.specs.Prelude.{◌≡◌, ◌++◌, ◌∷◌, ◌||◌, not, ℕ, List, [], Ok, IfOk, IfErr, option_copied, is_some, None};
ghost use Rattle.mk_functions.specs.Outcome.{gives};
ghost use Rattle.mk_functions.specs.Values.{Answers};
ghost use Rattle.mk_words.specs.Words.{behind_spaces};
ghost use Rattle.mk_target_lines.specs.Comes.{Told, comes, refused, without_colon, or_else, rule_cut, told_rule, rule_of, rule_with, Says, AtTargets, AtParted, Comes};
ghost use Rattle.mk_target_lines.specs.Cut.{behind_mark};
ghost use Rattle.mk_target_lines.specs.Parts.{colon};
ghost use Rattle.mk_target_lines.specs.Rule.{behind_colons};
ghost use Rattle.mk_target_lines.specs.Shown.{came_of, line_of, text_of, IsFaulty, IsRefused};

use crate::came::Came;
use crate::cut::unquoted;
use crate::fault::{Fault, Refusal};
use crate::mark::Mark;
use crate::names::names_of;
use crate::parts::{Line, parted, recipe_cut};
use crate::rule::{behind_colons, definition_for, definition_in, ruled};
use byte_strings::ByteStrings;
use mk_functions::{Definitions, Outside, expand};
use mk_words::behind_spaces;
use std::alloc::{AllocError, Global};

/// A line without a colon has to be blank.
fn without_colon(names: &[u8]) -> Result<Came, Fault>
    ensures ok { IfOk result (λ came. without_colon (behind_spaces names.now) ≡ comes (came_of came)) }
    ensures fault { IfErr result (λ fault. without_colon (behind_spaces names.now) ≡ refused fault) }
{
    if behind_spaces(names).is_empty() {
        Ok(Came::Nothing)
    } else {
        Err(Fault::MissingSeparator)
    }
}

/// The recipe of a rule: what stands behind the line's `;`, or else behind one that came out of an expansion.
fn recipe_of(
    alloc: Global,
    recipe: Option<&[u8]>,
    own: Option<Vec<u8>>,
    left: &[u8],
) -> Result<Option<Vec<u8>>, AllocError>
    ensures { IfOk result (λ it. text_of it ≡ or_else (option_copied recipe.entry) (or_else (text_of own) (behind_mark left.now))) }
{
    if let Some(recipe) = recipe {
        let recipe = Vec::from_slice(alloc, recipe)?;
        return Ok(Some(recipe));
    }
    if own.is_some() {
        return Ok(own);
    }
    match left.split_first() {
        None => Ok(None),
        Some((_, behind)) => {
            let behind = Vec::from_slice(alloc, behind)?;
            Ok(Some(behind))
        }
    }
}

/// Whether no `;` is looked for in what stands behind a rule's colons.
fn is_whole(recipe: Option<&[u8]>, rest: &[u8]) -> bool
    ensures { result ≡ (is_some (option_copied recipe.entry) || not (is_nonempty rest.now)) }
{
    recipe.is_some() || rest.is_empty()
}

/// The rule of these targets, with this behind its colons.
fn rule_of(
    alloc: Global,
    targets: ByteStrings,
    is_double: bool,
    recipe: Option<&[u8]>,
    line: Line<'_>,
    text: &[u8],
) -> Result<Came, Refusal>
    ensures ok { (names : List ℕ) → IfOk result (λ came. rule_of targets is_double (option_copied recipe.entry) (line_of names line.entry)
        (rule_cut (is_some (option_copied recipe.entry)) (line_of names line.entry) text.now) ≡ comes (came_of came)) }
    ensures fault { (names : List ℕ) → IfErr result (IsFaulty (λ fault. rule_of targets is_double (option_copied recipe.entry) (line_of names line.entry)
        (rule_cut (is_some (option_copied recipe.entry)) (line_of names line.entry) text.now) ≡ refused fault)) }
{
    let found = recipe_cut(alloc, is_whole(recipe, line.rest), text)?;
    let recipe = recipe_of(alloc, recipe, line.recipe, found.left)?;
    let rule = ruled(
        alloc,
        targets,
        is_double,
        line.is_grouped,
        recipe,
        found.front.as_slice(),
    )?;
    Ok(Came::Rule(rule))
}

fn joined(alloc: Global, front: &[u8], rest: &[u8]) -> Result<Vec<u8>, AllocError>
    ensures { IfOk result (λ v. v.items ≡ front.now ++ rest.now) }
{
    let mut text = Vec::from_slice(alloc, front)?;
    text.extend_from_slice(rest)?;
    Ok(text)
}

/// A rule, of which what isn't expanded yet is now.
fn rule_in<V: Definitions, O: Outside>(
    alloc: Global,
    variables: &V,
    outside: &mut O,
    targets: ByteStrings,
    recipe: Option<&[u8]>,
    line: Line<'_>,
) -> Result<Came, Refusal>
    ensures told { (w : Answers) → O.allows outside.new w → (names : List ℕ) → IfOk result (λ came.
        Says w (V.variables variables.now) (option_copied recipe.entry) targets (behind_colons line.entry.behind.items) (line_of names line.entry) (Ok None) (comes (came_of came))) }
    ensures refused { (w : Answers) → O.allows outside.new w → (names : List ℕ) → IfErr result (IsRefused
        (Says w (V.variables variables.now) (option_copied recipe.entry) targets (behind_colons line.entry.behind.items) (line_of names line.entry) (Ok None))) }
    ensures narrows { (w : Answers) → O.allows outside.new w → O.allows outside.old w }
{
    let rest = unquoted(alloc, Mark::Byte(b'='), line.rest)?;
    let more = expand(alloc, variables, outside, rest.as_slice())?;
    let (is_double, behind) = behind_colons(line.behind.as_slice());
    let text = joined(alloc, behind, more.as_slice())?;
    rule_of(alloc, targets, is_double, recipe, line, text.as_slice())
}

/// A line with these targets.
fn line_with<V: Definitions, O: Outside>(
    alloc: Global,
    variables: &V,
    outside: &mut O,
    targets: ByteStrings,
    recipe: Option<&[u8]>,
    line: Line<'_>,
) -> Result<Came, Refusal>
    ensures told { (w : Answers) → O.allows outside.new w → (names : List ℕ) → IfOk result (λ came.
        AtTargets w (V.variables variables.now) (option_copied recipe.entry) targets (line_of names line.entry) (comes (came_of came))) }
    ensures refused { (w : Answers) → O.allows outside.new w → (names : List ℕ) → IfErr result (IsRefused
        (AtTargets w (V.variables variables.now) (option_copied recipe.entry) targets (line_of names line.entry))) }
    ensures narrows { (w : Answers) → O.allows outside.new w → O.allows outside.old w }
{
    if targets.is_empty() {
        return Ok(Came::WithoutTargets);
    }
    let text = joined(alloc, behind_colons(line.behind.as_slice()).1, line.rest)?;
    match definition_in(text.as_slice())? {
        None => rule_in(alloc, variables, outside, targets, recipe, line),
        Some((modifiers, definition)) => {
            let definition = definition_for(alloc, targets, modifiers, definition, recipe)?;
            Ok(Came::Defines(definition))
        }
    }
}

/// What a line comes to that says nothing else, and what stands behind its `;`. It is expanded up to its colon, and as a rule's to its
/// end; a definition's value isn't. The line is without its comment.
#[tactic(auto, using(crate::proofs::ComeLemmas::unparted, crate::proofs::ComeLemmas::at_end, crate::proofs::ComeLemmas::at_line, crate::proofs::ComeLemmas::some_copied))]
pub fn came_to<V: Definitions, O: Outside>(
    alloc: Global,
    variables: &V,
    outside: &mut O,
    text: &[u8],
    recipe: Option<&[u8]>,
) -> Result<Came, Refusal>
    ensures told { (w : Answers) → O.allows outside.new w → IfOk result (λ came.
        Comes w (V.variables variables.now) (option_copied recipe.entry) text.now (comes (came_of came))) }
    ensures refused { (w : Answers) → O.allows outside.new w → IfErr result (IsRefused
        (Comes w (V.variables variables.now) (option_copied recipe.entry) text.now)) }
    ensures narrows { (w : Answers) → O.allows outside.new w → O.allows outside.old w }
{
    let (names, line) = parted(alloc, variables, outside, recipe.is_some(), text)?;
    match line {
        None => {
            let came = without_colon(names.as_slice())?;
            Ok(came)
        }
        Some(line) => {
            let targets = names_of(alloc, None, names.as_slice())?.names;
            line_with(alloc, variables, outside, targets, recipe, line)
        }
    }
}
