//! What lines come to that name targets, over the variables of a row.
use crate::assignments::say_variables;
use crate::expansions::{Setting, say_stop};
use crate::texts::{say_text, say_word};
use byte_strings::ByteStrings;
use mk_target_lines::{
    Came, Fault, Form, Prerequisites, Refusal, Rule, TargetDefinition, came_to, form_of,
    prerequisite_names,
};
use row_files::Answered;
use std::alloc::{AllocError, Global};

fn text_of(fault: Fault) -> &'static str {
    match fault {
        Fault::MissingSeparator => "missing-separator",
        Fault::MissingTargetPattern => "missing-target-pattern",
        Fault::MultipleTargetPatterns => "multiple-target-patterns",
        Fault::TargetPatternWithoutPercent => "no-percent",
        Fault::MalformedDefinition => "malformed-definition",
        Fault::MixedWithStatic => "mixed-with-static",
        Fault::MixedWithNormal => "mixed-with-normal",
    }
}

fn say_names(out: &mut String, names: &ByteStrings) -> Result<(), AllocError> {
    for name in names.iter() {
        say_text(out, name)?;
    }
    Ok(())
}

/// A target, with a `%` between the parts of a pattern.
fn say_form(out: &mut String, form: Form) -> Result<(), AllocError> {
    let mut text = form.front;
    if let Some(behind) = form.behind {
        text.push(b'%')?;
        text.extend_from_slice(behind.as_slice())?;
    }
    say_text(out, text.as_slice())
}

fn say_targets(alloc: Global, out: &mut String, targets: &ByteStrings) -> Result<(), AllocError> {
    for target in targets.iter() {
        say_form(out, form_of(alloc, target)?)?;
    }
    Ok(())
}

pub(crate) fn say_definition(
    alloc: Global,
    out: &mut String,
    definition: &TargetDefinition,
) -> Result<(), AllocError> {
    say_targets(alloc, out, &definition.targets)?;
    say_word(out, "defines")?;
    say_variables(out, definition.statement())
}

fn say_pattern(out: &mut String, pattern: &(Vec<u8>, Vec<u8>)) -> Result<(), AllocError> {
    let (front, behind) = pattern;
    say_word(out, "pattern")?;
    say_text(out, front.as_slice())?;
    say_text(out, behind.as_slice())
}

fn say_prerequisites(out: &mut String, found: &Prerequisites) -> Result<(), AllocError> {
    say_names(out, &found.names)?;
    if !found.order_only.is_empty() {
        say_word(out, "|")?;
    }
    say_names(out, &found.order_only)
}

fn colon_of(rule: &Rule) -> &'static str {
    match (rule.is_grouped, rule.is_double) {
        (false, false) => ":",
        (false, true) => "::",
        (true, false) => "&:",
        (true, true) => "&::",
    }
}

pub(crate) fn say_rule(alloc: Global, out: &mut String, rule: &Rule) -> Result<(), AllocError> {
    say_targets(alloc, out, &rule.targets)?;
    say_word(out, colon_of(rule))?;
    if let Some(pattern) = &rule.pattern {
        say_pattern(out, pattern)?;
    }
    let found = prerequisite_names(alloc, rule.prerequisites.as_slice())?;
    say_prerequisites(out, &found)?;
    match &rule.recipe {
        Some(recipe) => {
            say_word(out, "recipe")?;
            say_text(out, recipe.as_slice())
        }
        None => Ok(()),
    }
}

fn say_came(alloc: Global, out: &mut String, came: &Came) -> Result<(), AllocError> {
    match came {
        Came::Nothing => say_word(out, "nothing"),
        Came::WithoutTargets => say_word(out, "without-targets"),
        Came::Defines(definition) => say_definition(alloc, out, definition),
        Came::Rule(rule) => say_rule(alloc, out, rule),
    }
}

pub(crate) fn say_refusal(out: &mut String, refusal: Refusal) -> Result<(), AllocError> {
    match refusal {
        Refusal::Stop(stop) => say_stop(out, stop),
        Refusal::Fault(fault) => out.push_str(text_of(fault)),
    }
}

impl Setting {
    /// What a line comes to, with what stands behind its `;`: what was asked and said, and then what it says of targets.
    pub(crate) fn say_line(
        &mut self,
        alloc: Global,
        text: &[u8],
        recipe: Option<&[u8]>,
        out: &mut String,
    ) -> Answered {
        self.outside.said.clear();
        let outcome = came_to(alloc, &self.table, &mut self.outside, text, recipe);
        let mut told = String::new(alloc);
        match outcome {
            Ok(came) => say_came(alloc, &mut told, &came)?,
            Err(refusal) => say_refusal(&mut told, refusal)?,
        }
        out.push_str(self.outside.said.as_str())?;
        Ok(out.push_str(told.as_str())?)
    }
}
