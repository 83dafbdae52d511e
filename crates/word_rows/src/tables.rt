//! What statements make of the variables of a row, and which of these reach recipes.
use crate::expansions::{Setting, say_stop};
use mk_assignments::{Modifiers, definition_of, statement_of};
use mk_functions::Origin;
use mk_variables::{Passed, Refusal};
use row_files::{Answered, RowFault, bytes};
use std::alloc::{AllocError, Global};

/// Why nothing is made of the variables.
pub(crate) fn say_refusal(out: &mut String, refusal: Refusal) -> Result<(), AllocError> {
    match refusal {
        Refusal::NoName => out.push_str("no-name"),
        Refusal::Stop(stop) => say_stop(out, stop),
    }
}

fn say_outcome(out: &mut String, outcome: Result<(), Refusal>) -> Result<(), AllocError> {
    match outcome {
        Ok(()) => out.push_str("taken"),
        Err(refusal) => say_refusal(out, refusal),
    }
}

fn value_of<'a>(passed: &'a [Passed<'_>], name: &[u8]) -> Option<&'a [u8]> {
    for it in passed {
        if it.name == name {
            return Some(it.value.as_slice());
        }
    }
    None
}

impl Setting {
    /// Takes a statement of a makefile, with the lines of a `define` behind it: what was asked and said, and what came of it.
    pub(crate) fn say_taken(
        &mut self,
        alloc: Global,
        text: &[u8],
        lines: &[u8],
        out: &mut String,
    ) -> Answered {
        let Some(statement) = statement_of(text) else {
            return Err(RowFault::Word);
        };
        self.outside.said.clear();
        let outcome = self.table.take(alloc, &mut self.outside, statement, lines);
        say_outcome(&mut self.outside.said, outcome)?;
        Ok(out.push_str(self.outside.said.as_str())?)
    }

    /// Takes a definition of the command line.
    pub(crate) fn say_given(&mut self, alloc: Global, text: &[u8], out: &mut String) -> Answered {
        let Some(definition) = definition_of(text) else {
            return Err(RowFault::Word);
        };
        let modifiers = Modifiers {
            is_exported: false,
            is_overriding: false,
            is_private: false,
        };
        self.outside.said.clear();
        let outcome = self.table.define(
            alloc,
            &mut self.outside,
            modifiers,
            Origin::CommandLine,
            definition,
        );
        say_outcome(&mut self.outside.said, outcome)?;
        Ok(out.push_str(self.outside.said.as_str())?)
    }

    /// All variables reach recipes from here on.
    pub(crate) fn say_all_exported(&mut self, out: &mut String) -> Answered {
        self.table.set_exports_all(true);
        Ok(out.push_str("taken")?)
    }

    /// The value with which a variable reaches recipes, or `hidden`.
    pub(crate) fn say_environment(
        &mut self,
        alloc: Global,
        name: &[u8],
        out: &mut String,
    ) -> Answered {
        self.outside.said.clear();
        match self
            .table
            .environment(alloc, &self.table, &mut self.outside)
        {
            Err(stop) => Ok(say_stop(out, stop)?),
            Ok(passed) => match value_of(passed.as_slice(), name) {
                Some(value) => Ok(bytes::say_all(out, value)?),
                None => Ok(out.push_str("hidden")?),
            },
        }
    }
}
