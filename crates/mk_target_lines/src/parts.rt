//! A line up to its colon.
ghost use Rattle.std.specs.Prelude.{◌≡◌, ◌++◌, ◌∷◌, ◌<◌, ℕ, List, [], length, None, Some, IfOk, OnOk, IfErr, option_map, is_some, codes};
ghost use Rattle.mk_functions.specs.Expansion.{ExpandsTo};
ghost use Rattle.mk_functions.specs.Outcome.{gives, fails};
ghost use Rattle.mk_functions.specs.Values.{Answers};
ghost use Rattle.mk_words.specs.Patterns.{before_end};
ghost use Rattle.mk_target_lines.specs.Cut.{cut};
ghost use Rattle.mk_target_lines.specs.Parts.{spaced, ungrouped, line_in, recipe_cut, AtValue, AtWord, Parts, stops, meets};
ghost use Rattle.mk_target_lines.specs.Shown.{line_of, text_of, step_of, parted_of, NoValue};
ghost use Rattle.mk_target_lines.specs.declared.mark.Mark.TheVariants.{Byte};

use crate::cut::{CutText, cut};
use crate::mark::Mark;
use crate::words::next_word;
use mk_functions::{Definitions, Outside, Stop, expand};
use std::alloc::{AllocError, Global};

/// A line with a colon, without the text of its names.
#[derive(Drop)]
pub(crate) struct Line<'a> {
    pub(crate) is_grouped: bool,
    /// What was expanded behind the first colon.
    pub(crate) behind: Vec<u8>,
    /// What isn't expanded yet.
    pub(crate) rest: &'a [u8],
    /// What stands behind a `;` that came out of an expansion.
    pub(crate) recipe: Option<Vec<u8>>,
}

/// What a word makes of a line.
#[derive(Drop)]
pub(crate) enum Step<'a> {
    GoesOn,
    /// With its colon, where it has one.
    Stops(Option<Line<'a>>),
}

fn push_spaced(names: &mut Vec<u8>, front: &[u8]) -> Result<(), AllocError>
    ensures { OnOk result (names.new.items ≡ spaced names.old.items front.now) }
{
    names.push(b' ')?;
    names.extend_from_slice(front)
}

/// Adds what stands before a colon. Gives whether a `&` stands there, which is no part of a name.
fn push_ungrouped(names: &mut Vec<u8>, front: &[u8]) -> Result<bool, AllocError>
    ensures names { OnOk result (names.new.items ≡ spaced names.old.items (ungrouped (before_end (codes "&") front.now) front.now)) }
    ensures grouped { IfOk result (λ is. is ≡ is_some (before_end (codes "&") front.now)) }
{
    match front.strip_suffix(b"&".as_slice()) {
        None => {
            push_spaced(names, front)?;
            Ok(false)
        }
        Some(before) => {
            push_spaced(names, before)?;
            Ok(true)
        }
    }
}

/// Takes in what a word came to: the line with a colon, where it came to one.
fn line_in<'a>(
    alloc: Global,
    names: &mut Vec<u8>,
    value: &[u8],
    rest: &'a [u8],
    recipe: Option<Vec<u8>>,
) -> Result<Option<Line<'a>>, AllocError>
    ensures line { IfOk result (λ found. option_map (line_of names.new.items) found
        ≡ line_in names.old.items (cut (Byte 58) value.now) rest.now (text_of recipe)) }
    ensures names { IfOk result (λ found. found ≡ None → names.new.items ≡ spaced names.old.items (cut (Byte 58) value.now).0) }
{
    let found = cut(alloc, Mark::Byte(b':'), value)?;
    match found.left.split_first() {
        None => {
            push_spaced(names, found.front.as_slice())?;
            Ok(None)
        }
        Some((_, behind)) => {
            let behind = Vec::from_slice(alloc, behind)?;
            let is_grouped = push_ungrouped(names, found.front.as_slice())?;
            Ok(Some(Line {
                is_grouped,
                behind,
                rest,
                recipe,
            }))
        }
    }
}

/// A text up to its `;`, where the line has none of its own.
pub(crate) fn recipe_cut(
    alloc: Global,
    has_recipe: bool,
    text: &[u8],
) -> Result<CutText<'_>, AllocError>
    ensures { IfOk result (λ found. found ≡ recipe_cut has_recipe text.now) }
{
    if !has_recipe {
        return cut(alloc, Mark::Byte(b';'), text);
    }
    let front = Vec::from_slice(alloc, text)?;
    Ok(CutText { front, left: b"" })
}

/// A recipe that begins with this, and goes on with what is left of the line.
fn recipe_text<V: Definitions, O: Outside>(
    alloc: Global,
    variables: &V,
    outside: &mut O,
    behind: &[u8],
    rest: &[u8],
) -> Result<Vec<u8>, Stop>
    ensures told { (w : Answers) → O.allows outside.new w → IfOk result (λ recipe.
        (more : List ℕ) × ExpandsTo w (V.variables variables.now) rest.now (gives more) × (recipe.items ≡ behind.now ++ more)) }
    ensures refused { (w : Answers) → O.allows outside.new w
        → IfErr result (NoValue (λ fault. ExpandsTo w (V.variables variables.now) rest.now (fails fault))) }
    ensures narrows { (w : Answers) → O.allows outside.new w → O.allows outside.old w }
{
    let more = expand(alloc, variables, outside, rest)?;
    let mut recipe = Vec::from_slice(alloc, behind)?;
    recipe.extend_from_slice(more.as_slice())?;
    Ok(recipe)
}

/// Takes in what a word came to.
fn take_value<'a, V: Definitions, O: Outside>(
    alloc: Global,
    variables: &V,
    outside: &mut O,
    has_recipe: bool,
    names: &mut Vec<u8>,
    value: &[u8],
    rest: &'a [u8],
) -> Result<Step<'a>, Stop>
    ensures told { (w : Answers) → O.allows outside.new w → IfOk result (λ step.
        AtValue w (V.variables variables.now) has_recipe names.old.items (gives value.now) rest.now (step_of names.new.items rest.now step)) }
    ensures refused { (w : Answers) → O.allows outside.new w → IfErr result (NoValue (λ fault.
        AtValue w (V.variables variables.now) has_recipe names.old.items (gives value.now) rest.now (stops (meets fault)))) }
    ensures narrows { (w : Answers) → O.allows outside.new w → O.allows outside.old w }
{
    let found = recipe_cut(alloc, has_recipe, value)?;
    match found.left.split_first() {
        None => {
            let line = line_in(alloc, names, found.front.as_slice(), rest, None)?;
            match line {
                None => Ok(Step::GoesOn),
                Some(line) => Ok(Step::Stops(Some(line))),
            }
        }
        Some((_, behind)) => {
            let recipe = recipe_text(alloc, variables, outside, behind, rest)?;
            let line = line_in(alloc, names, found.front.as_slice(), b"", Some(recipe))?;
            Ok(Step::Stops(line))
        }
    }
}

/// Expands the next word.
fn take_word<'a, V: Definitions, O: Outside>(
    alloc: Global,
    variables: &V,
    outside: &mut O,
    has_recipe: bool,
    names: &mut Vec<u8>,
    word: &[u8],
    rest: &'a [u8],
) -> Result<Step<'a>, Stop>
    ensures told { (w : Answers) → O.allows outside.new w → IfOk result (λ step.
        AtWord w (V.variables variables.now) has_recipe names.old.items (Some (word.now, rest.now)) (step_of names.new.items rest.now step)) }
    ensures refused { (w : Answers) → O.allows outside.new w → IfErr result (NoValue (λ fault.
        AtWord w (V.variables variables.now) has_recipe names.old.items (Some (word.now, rest.now)) (stops (meets fault)))) }
    ensures narrows { (w : Answers) → O.allows outside.new w → O.allows outside.old w }
{
    let value = expand(alloc, variables, outside, word)?;
    take_value(
        alloc,
        variables,
        outside,
        has_recipe,
        names,
        value.as_slice(),
        rest,
    )
}

#[tactic(auto, using(crate::proofs::PartLemmas::begins, crate::proofs::PartLemmas::ends, crate::proofs::PartLemmas::stopped, crate::proofs::PartLemmas::next))]
/// The line up to its colon: the text of its names, and what stands behind these.
pub(crate) fn parted<'a, V: Definitions, O: Outside>(
    alloc: Global,
    variables: &V,
    outside: &mut O,
    has_recipe: bool,
    text: &'a [u8],
) -> Result<(Vec<u8>, Option<Line<'a>>), Stop>
    ensures told { (w : Answers) → O.allows outside.new w → IfOk result (λ found.
        Parts w (V.variables variables.now) has_recipe (length text.now) [] text.now (parted_of found.0.items found.1)) }
    ensures refused { (w : Answers) → O.allows outside.new w → IfErr result (NoValue (λ fault.
        Parts w (V.variables variables.now) has_recipe (length text.now) [] text.now (meets fault))) }
    ensures narrows { (w : Answers) → O.allows outside.new w → O.allows outside.old w }
{
    let mut names = Vec::new(alloc);
    let mut rest = text;
    while let Some((word, behind)) = next_word(rest) {
        match take_word(
            alloc, variables, outside, has_recipe, &mut names, word, behind,
        )? {
            Step::GoesOn => rest = behind,
            Step::Stops(line) => return Ok((names, line)),
        }
    }
    Ok((names, None))
}
