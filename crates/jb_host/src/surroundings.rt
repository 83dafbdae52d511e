//! dmk's own environment, read once for all lines.

use crate::shell::NoCommand;
use std::env::{self, FillError};
use std::process::Command;
use std::rt::Env;

/// The variables of dmk's own environment, the greatest name first: a command keeps its variables in order, and finds the place
/// of a lesser one at the first look.
#[derive(Drop)]
pub(crate) struct Surroundings {
    variables: Vec<(String, String)>,
}

// Whether there are exactly so many entries.
fn are_all(rt: HostRuntime, count: usize) -> bool {
    matches!(rt.var_at(count, &mut [0u8; 1]), Err(FillError::NotPresent))
}

// Whether two of these, which are in order, have one name.
fn has_twice(variables: &[(String, String)]) -> bool {
    let mut last = None;
    for (name, _) in variables {
        if last == Some(name.as_str()) {
            return true;
        }
        last = Some(name.as_str());
    }
    false
}

impl Surroundings {
    /// None where a command can't be given it byte for byte: an entry isn't text, or no variable, or two have one name. Then a
    /// command inherits it.
    pub(crate) fn read(rt: HostRuntime) -> Option<Surroundings> {
        let mut variables = Vec::new(rt.alloc());
        for variable in env::vars(&rt).ok()? {
            variables.push(variable).ok()?;
        }
        variables.sort_unstable_by(|one, other| other.0.cmp(&one.0));
        if has_twice(&variables) || !are_all(rt, variables.len()) {
            return None;
        }
        Some(Surroundings { variables })
    }

    /// Gives the variables to a command, in the place of those that it would inherit.
    pub(crate) fn hand_to(&self, command: &mut Command) -> Result<(), NoCommand> {
        command.env_clear();
        for (name, value) in &self.variables {
            command.env(name.as_str(), value.as_str())?;
        }
        Ok(())
    }
}
