//! Definitions whose text a command writes.
ghost use Rattle.std.specs.Prelude.{◌≡◌, IfOk, IfErr};
ghost use Rattle.mk_macros.specs.Expansion.{gives, ExpandsTo};
ghost use Rattle.mk_macros.specs.Ranks.{defined_by, rule_meanings};
ghost use Rattle.mk_eval.specs.Output.{World, with_shell, without_newline, blank_for_newline, output_text};
ghost use Rattle.mk_eval.specs.Makefile.{GivesItem, written_as, OutputItems, IsCommandFault};

use crate::includes::Includes;
use crate::refuse::{refuse, refuse_text};
use byte_strings::ByteString;
use mk_lines::is_text;
use mk_macros::{Dynamic, Macros};
use mk_reader::{Cause, Definition, Item, ReadFault};
use std::alloc::{AllocError, Global};

/// Without the newline at its end.
fn without_newline(output: &[u8]) -> &[u8]
    ensures { result.now ≡ without_newline output.now }
{
    match output.split_last() {
        Some((b'\n', front)) => front,
        _ => output,
    }
}

fn blank_for_newline(byte: u8) -> u8
    ensures { result ≡ blank_for_newline byte }
{
    if byte == b'\n' { b' ' } else { byte }
}

/// What an output gives as a text.
pub fn output_text(alloc: Global, output: &[u8]) -> Result<Vec<u8>, AllocError>
    ensures { IfOk result (λ text. text.items ≡ output_text output.now) }
{
    let mut text = Vec::new(alloc);
    let mut rest = without_newline(output);
    while let Some((byte, after)) = rest.split_first() {
        text.push(blank_for_newline(*byte))?;
        rest = after;
    }
    Ok(text)
}

/// The definition with what its command wrote.
fn written(alloc: Global, definition: Definition, output: &[u8]) -> Result<Item, ReadFault>
    ensures { GivesItem result (λ outcome. outcome ≡ written_as definition output.now) }
{
    if !is_text(output) {
        let Definition { file, line, .. } = definition;
        return Err(refuse(alloc, file.as_slice(), line, Cause::NotText));
    }
    Ok(Item::Definition(Definition {
        value: ByteString::new(output_text(alloc, output)?),
        is_fixed: false,
        ..definition
    }))
}

/// A text behind the reference to the shell and the end of its line.
fn with_shell(alloc: Global, text: &[u8]) -> Result<Vec<u8>, AllocError>
    ensures { IfOk result (λ v. v.items ≡ with_shell text.now) }
{
    let mut whole = Vec::from_slice(alloc, b"$(SHELL)\n")?;
    whole.extend_from_slice(text)?;
    Ok(whole)
}

/// The command that the definition's text comes to, behind the shell that runs it.
fn command_of(alloc: Global, definition: &Definition, macros: &Macros) -> Result<Vec<u8>, ReadFault>
    ensures command { IfOk result (λ v. ExpandsTo (rule_meanings (defined_by macros.now)) (with_shell definition.now.value) (gives v.items)) }
    ensures fault { IfErr result (IsCommandFault (defined_by macros.now) definition.now) }
{
    let text = with_shell(alloc, definition.value.as_slice())?;
    match macros.expand(alloc, &text, &Dynamic::RuleLine) {
        Ok(command) => Ok(command),
        Err(fault) => Err(refuse_text(alloc, definition.file.as_slice(), definition.line, fault)),
    }
}

/// Runs the command of a definition. The definition has what it writes as its text.
pub fn run_definition<I: Includes>(
    alloc: Global,
    definition: Definition,
    macros: &Macros,
    includes: &mut I,
) -> Result<Item, ReadFault>
    ensures item { (world : World) → I.allows includes.new world
        → GivesItem result (OutputItems world definition (defined_by macros.now)) }
    ensures grows { (world : World) → I.allows includes.new world → I.allows includes.old world }
{
    let command = command_of(alloc, &definition, macros)?;
    let file = definition.file.as_slice();
    let output = includes.output(alloc, file, definition.line, command.as_slice())?;
    written(alloc, definition, output.as_slice())
}
