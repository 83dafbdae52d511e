//! What lines say of variables.
use crate::texts::{say_text, say_word};
use mk_assignments::{DefineLine, Definition, Modifiers, Sign, Statement, statement_of};
use row_files::Answered;
use std::alloc::AllocError;

fn text_of(sign: Sign) -> &'static str {
    match sign {
        Sign::Recursive => "=",
        Sign::Simple => ":=",
        Sign::Immediate => ":::=",
        Sign::Conditional => "?=",
        Sign::Appending => "+=",
        Sign::Shell => "!=",
    }
}

pub(crate) fn say_if(out: &mut String, is_so: bool, word: &str) -> Result<(), AllocError> {
    if is_so { say_word(out, word) } else { Ok(()) }
}

fn say_modifiers(out: &mut String, modifiers: Modifiers) -> Result<(), AllocError> {
    say_if(out, modifiers.is_exported, "export")?;
    say_if(out, modifiers.is_overriding, "override")?;
    say_if(out, modifiers.is_private, "private")
}

fn say_definition(
    out: &mut String,
    modifiers: Modifiers,
    definition: Definition<'_>,
) -> Result<(), AllocError> {
    say_modifiers(out, modifiers)?;
    say_text(out, definition.name)?;
    say_word(out, text_of(definition.sign))?;
    say_text(out, definition.value)
}

pub(crate) fn say_define(
    out: &mut String,
    modifiers: Modifiers,
    line: DefineLine<'_>,
) -> Result<(), AllocError> {
    say_modifiers(out, modifiers)?;
    say_names(out, "define", line.name)?;
    say_word(out, text_of(line.sign))?;
    say_if(out, line.has_text_behind, "text-behind")
}

fn say_undefine(out: &mut String, modifiers: Modifiers, name: &[u8]) -> Result<(), AllocError> {
    say_modifiers(out, modifiers)?;
    say_names(out, "undefine", name)
}

pub(crate) fn say_names(out: &mut String, word: &str, names: &[u8]) -> Result<(), AllocError> {
    say_word(out, word)?;
    say_text(out, names)
}

pub(crate) fn say_variables(out: &mut String, statement: Statement<'_>) -> Result<(), AllocError> {
    match statement {
        Statement::Defines(modifiers, definition) => say_definition(out, modifiers, definition),
        Statement::Begins(modifiers, line) => say_define(out, modifiers, line),
        Statement::Undefines(modifiers, name) => say_undefine(out, modifiers, name),
        Statement::Exports(names) => say_names(out, "export", names),
        Statement::Unexports(names) => say_names(out, "unexport", names),
    }
}

/// What a line says of variables, or `none`.
pub(crate) fn say_statement(text: &[u8], out: &mut String) -> Answered {
    let said = match statement_of(text) {
        Some(statement) => say_variables(out, statement),
        None => say_word(out, "none"),
    };
    Ok(said?)
}
