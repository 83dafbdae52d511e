//! The statements of a text, with the recipes of rules where nothing is expanded.
use crate::assignments::{say_define, say_if, say_names, say_variables};
use crate::texts::{say_number, say_text, say_word};
use mk_statements::{Define, Fault, Line, Role, Rule, Said, statements_of};
use row_files::Answered;
use std::alloc::{AllocError, Global};

pub(crate) fn text_of(fault: Fault) -> &'static str {
    match fault {
        Fault::HasNul => "nul",
        Fault::MissingEndef => "missing-endef",
        Fault::DefineBehindTab => "define-behind-tab",
        Fault::RecipeBeforeTarget => "recipe-before-target",
        Fault::RecipeWithoutRule => "recipe-without-rule",
    }
}

fn say_body(out: &mut String, define: Define<'_>) -> Result<(), AllocError> {
    say_define(out, define.modifiers, define.line)?;
    say_text(out, define.body)?;
    say_if(out, define.has_text_behind, "text-behind-endef")
}

fn say_expands(out: &mut String, text: &[u8], recipe: Option<&[u8]>) -> Result<(), AllocError> {
    say_names(out, "expands", text)?;
    match recipe {
        Some(recipe) => say_names(out, "recipe", recipe),
        None => Ok(()),
    }
}

fn say_said(out: &mut String, said: Said<'_>) -> Result<(), AllocError> {
    match said {
        Said::Nothing => Ok(()),
        Said::Conditional(_) => say_word(out, "conditional"),
        Said::Variables(statement) => say_variables(out, statement),
        Said::Define(define) => say_body(out, define),
        Said::Includes(true, names) => say_names(out, "include", names),
        Said::Includes(false, names) => say_names(out, "-include", names),
        Said::Vpath(text) => say_names(out, "vpath", text),
        Said::Loads(true, names) => say_names(out, "load", names),
        Said::Loads(false, names) => say_names(out, "-load", names),
        Said::Expands(text, recipe) => say_expands(out, text, recipe),
        Said::Refused(fault) => say_word(out, text_of(fault)),
    }
}

/// What a line is that nothing is expanded of.
fn rule_of(said: Said<'_>) -> Rule {
    match said {
        Said::Expands(text, _) if text.starts_with(b":") => Rule::WithoutTargets,
        Said::Expands(text, _) if text.contains(&b':') => Rule::Open,
        _ => Rule::Closed,
    }
}

/// Says a line where this rule is open, and gives what is open behind it.
fn say_line(out: &mut String, rule: Rule, line: &Line<'_>) -> Result<Rule, AllocError> {
    match rule.role_of(line.statement()) {
        Role::Says(Said::Nothing) | Role::PassedOver => Ok(rule),
        Role::Recipe(text) => {
            say_number(out, line.number)?;
            say_names(out, "recipe", text)?;
            Ok(rule)
        }
        Role::Says(said) => {
            say_number(out, line.number)?;
            say_said(out, said)?;
            Ok(rule.behind(said, rule_of(said)))
        }
    }
}

/// The statements of a text, each behind the number of its line, where all count.
pub(crate) fn say_statements(alloc: Global, text: &[u8], out: &mut String) -> Answered {
    let lines = statements_of(alloc, text)?;
    let mut rule = Rule::Closed;
    for line in lines.iter() {
        rule = say_line(out, rule, line)?;
    }
    if out.is_empty() {
        say_word(out, "nothing")?;
    }
    Ok(())
}
