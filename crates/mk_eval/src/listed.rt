//! Names lose a `./` in front, and words with wildcards give way to the names of the files that fit them.
ghost use Rattle.std.specs.Prelude.{◌≡◌, ◌||◌, ◌++◌, [], ◌∷◌, flat_map, IfOk, OnOk};
ghost use Rattle.byte_strings.specs.Blanks.{words};
ghost use Rattle.mk_wildcards.specs.Found.{steps, parts, found, names_of, line_of};
ghost use Rattle.mk_macros.specs.Expansion as expansion;
ghost use Rattle.mk_macros.specs.Ranks.{defined_by};
ghost use Rattle.mk_eval.specs.Output.{World};
ghost use Rattle.mk_wildcards.specs.Pattern.{has_wildcard};
ghost use Rattle.mk_eval.specs.Listed.{listed, stepped};
ghost use Rattle.mk_eval.specs.Short.{has_other_names};
ghost use Rattle.mk_eval.specs.Makefile.{LineNames, IsListed, IsTold, IsListedText};

use crate::doubled::doubled;
use crate::includes::Includes;
use crate::names::{has_dollar, ran_out};
use crate::short::{has_other_names, renamed};
use byte_strings::{ByteString, ByteStrings, next_word};
use mk_macros::{Dynamic, Macros};
use mk_reader::Rule;
use mk_wildcards::{has_wildcard, in_order, is_pattern, push_steps, split_part};
use std::alloc::{AllocError, Global};

/// The names in a folder, where they are needed for this part of a path.
fn names_for<I: Includes>(
    alloc: Global,
    is_last: bool,
    way: &[u8],
    part: &[u8],
    includes: &mut I,
) -> Result<Option<ByteStrings>, AllocError>
    ensures names { IfOk result (λ names. (world : World) → I.allows includes.new world
        → steps names is_last part.now ≡ steps (world.folders way.now) is_last part.now) }
    ensures grows { (world : World) → I.allows includes.new world → I.allows includes.old world }
{
    if !is_last && !is_pattern(part) {
        return Ok(None);
    }
    includes.names(alloc, way)
}

/// Where one more part of a path leads behind these ways.
fn step<I: Includes>(
    alloc: Global,
    is_last: bool,
    ways: &ByteStrings,
    part: &[u8],
    includes: &mut I,
) -> Result<ByteStrings, AllocError>
    ensures ways { IfOk result (λ next. (world : World) → I.allows includes.new world
        → next ≡ stepped world.folders is_last part.now ways.now) }
    ensures grows { (world : World) → I.allows includes.new world → I.allows includes.old world }
{
    let mut next = ByteStrings::empty(alloc);
    for way in ways.iter() {
        let names = names_for(alloc, is_last, way, part, includes)?;
        push_steps(alloc, &names, is_last, way, part, &mut next)?;
    }
    Ok(next)
}

/// Where a path leads, part by part.
fn found<I: Includes>(
    alloc: Global,
    path: &[u8],
    includes: &mut I,
) -> Result<ByteStrings, AllocError>
    ensures found { IfOk result (λ ways. (world : World) → I.allows includes.new world
        → ways ≡ found world.folders [] (parts path.now)) }
    ensures grows { (world : World) → I.allows includes.new world → I.allows includes.old world }
{
    let mut ways = ByteStrings::empty(alloc);
    ways.push(b"")?;
    let mut left = path;
    while let Some((part, rest)) = split_part(left) {
        ways = step(alloc, false, &ways, part, includes)?;
        left = rest;
    }
    step(alloc, true, &ways, left, includes)
}

fn push_word(line: &mut Vec<u8>, word: &[u8]) -> Result<(), AllocError>
    ensures { OnOk result (line.new.items ≡ line.old.items ++ 32 ∷ word.now) }
{
    line.push(b' ')?;
    line.extend_from_slice(word)?;
    Ok(())
}

fn push_words(line: &mut Vec<u8>, names: &ByteStrings) -> Result<(), AllocError>
    ensures { OnOk result (line.new.items ≡ line.old.items ++ flat_map (λ name. 32 ∷ name) names.now) }
{
    for name in names.iter() {
        push_word(line, name)?;
    }
    Ok(())
}

/// Adds what a word stands for.
fn push_names<I: Includes>(
    alloc: Global,
    word: &[u8],
    line: &mut Vec<u8>,
    includes: &mut I,
) -> Result<(), AllocError>
    ensures names { OnOk result ((world : World) → I.allows includes.new world
        → line.new.items ≡ line.old.items ++ flat_map (λ name. 32 ∷ name) (names_of world.folders word.now)) }
    ensures grows { (world : World) → I.allows includes.new world → I.allows includes.old world }
{
    if !has_wildcard(word) {
        return push_word(line, word);
    }
    let ways = found(alloc, word, includes)?;
    let names = in_order(alloc, &ways)?;
    if names.is_empty() {
        return push_word(line, word);
    }
    push_words(line, &names)
}

/// The line with the names that its words stand for.
fn line_of<I: Includes>(alloc: Global, text: &[u8], includes: &mut I) -> Result<Vec<u8>, AllocError>
    ensures line { IfOk result (λ line. (world : World) → I.allows includes.new world
        → line.items ≡ line_of world.folders text.now) }
    ensures grows { (world : World) → I.allows includes.new world → I.allows includes.old world }
{
    let mut line = Vec::new(alloc);
    let mut rest = text;
    while let Some((word, behind)) = next_word(rest) {
        push_names(alloc, word, &mut line, includes)?;
        rest = behind;
    }
    Ok(line)
}

/// An expanded text of a rule line, with short names, and names in the place of wildcards.
pub fn listed<I: Includes>(
    alloc: Global,
    text: Vec<u8>,
    includes: &mut I,
) -> Result<Vec<u8>, AllocError>
    ensures line { IfOk result (λ line. (world : World) → I.allows includes.new world
        → line.items ≡ listed world.folders text.items) }
    ensures grows { (world : World) → I.allows includes.new world → I.allows includes.old world }
{
    let text = renamed(alloc, text)?;
    if !has_wildcard(text.as_slice()) {
        return Ok(text);
    }
    line_of(alloc, text.as_slice(), includes)
}

/// Whether a name in the text may have another spelling.
fn is_respelled(text: &[u8]) -> bool
    ensures { result ≡ (has_other_names text.now || has_wildcard text.now) }
{
    has_other_names(text) || has_wildcard(text)
}

/// What a text of a rule line comes to, or none where it has a fault, which is told with the line.
fn told(alloc: Global, text: &[u8], macros: &Macros) -> Result<Option<Vec<u8>>, AllocError>
    ensures { IfOk result (λ told. (names : expansion.Outcome) × LineNames (defined_by macros.now) text.now names × IsTold told names) }
{
    if !has_dollar(text) {
        return Ok(Some(Vec::from_slice(alloc, text)?));
    }
    match macros.expand(alloc, text, &Dynamic::RuleLine) {
        Ok(told) => Ok(Some(told)),
        Err(fault) => {
            if ran_out(&fault) {
                return Err(AllocError);
            }
            Ok(None)
        }
    }
}

/// A text of a rule line, with short names, and names in the place of wildcards.
fn listed_text<I: Includes>(
    alloc: Global,
    text: ByteString,
    macros: &Macros,
    includes: &mut I,
) -> Result<ByteString, AllocError>
    ensures text { IfOk result (λ found. (world : World) → I.allows includes.new world
        → IsListedText world text (defined_by macros.now) found) }
    ensures grows { (world : World) → I.allows includes.new world → I.allows includes.old world }
{
    if !has_dollar(text.as_slice()) && !is_respelled(text.as_slice()) {
        return Ok(text);
    }
    let Some(told) = told(alloc, text.as_slice(), macros)? else {
        return Ok(text);
    };
    if !is_respelled(told.as_slice()) {
        return Ok(text);
    }
    let line = listed(alloc, told, includes)?;
    Ok(ByteString::new(doubled(alloc, line.as_slice())?))
}

/// A rule with names in the place of wildcards.
pub fn listed_rule<I: Includes>(
    alloc: Global,
    rule: Rule,
    macros: &Macros,
    includes: &mut I,
) -> Result<Rule, AllocError>
    ensures rule { IfOk result (λ found. (world : World) → I.allows includes.new world
        → (targets : expansion.Outcome) × LineNames (defined_by macros.now) rule.targets targets
        × IsListed world rule (defined_by macros.now) targets found) }
    ensures grows { (world : World) → I.allows includes.new world → I.allows includes.old world }
{
    let Rule {
        file,
        line,
        is_double,
        targets,
        prerequisites,
        recipe,
    } = rule;
    let targets = listed_text(alloc, targets, macros, includes)?;
    let prerequisites = listed_text(alloc, prerequisites, macros, includes)?;
    Ok(Rule {
        file,
        line,
        is_double,
        targets,
        prerequisites,
        recipe,
    })
}
