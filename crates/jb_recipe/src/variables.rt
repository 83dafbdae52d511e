//! The environment of a recipe's lines, beside the one that dmk itself was given.
ghost use Rattle.std.specs.Prelude.{◌≡◌, ◌++◌, IfOk, OnOk, option_map, filter, IfSome};
ghost use Rattle.jb_recipe.specs.Environment.{is_passed_on, set_flags, report_to, environment, NamesReport};

use bd_lists::Variable;
use byte_strings::ByteString;
use std::alloc::{AllocError, Global};

/// What recipes get of MAKEFLAGS.
#[derive(Debug, Drop)]
pub enum Makeflags {
    /// As it came.
    HandedOn,
    /// This value.
    Set(ByteString),
    /// They get none.
    Removed,
}

const MAKEFLAGS: &[u8] = b"MAKEFLAGS";

const REPORTS: &[u8] = b"SUNPRO_DEPENDENCIES";

fn is_passed_on(variable: &Variable) -> bool
    ensures { result ≡ is_passed_on variable.now }
{
    !(variable.name.as_slice().is_empty() || variable.name.as_slice() == MAKEFLAGS)
}

fn variable(alloc: Global, name: &[u8], value: &[u8]) -> Result<Variable, AllocError>
    ensures { IfOk result (λ v. v ≡ record { name = name.now; value = value.now }) }
{
    Ok(Variable {
        name: ByteString::from_slice(alloc, name)?,
        value: ByteString::from_slice(alloc, value)?,
    })
}

fn push_definitions(
    alloc: Global,
    variables: &mut Vec<Variable>,
    definitions: &[Variable],
) -> Result<(), AllocError>
    ensures { OnOk result (variables.new.items ≡ variables.old.items ++ filter is_passed_on definitions.now) }
{
    for definition in definitions {
        if is_passed_on(definition) {
            let name = definition.name.as_slice();
            variables.push(variable(alloc, name, definition.value.as_slice())?)?;
        }
    }
    Ok(())
}

fn push_flags(
    alloc: Global,
    variables: &mut Vec<Variable>,
    flags: &Makeflags,
) -> Result<(), AllocError>
    ensures { OnOk result (variables.new.items ≡ variables.old.items ++ set_flags flags.now) }
{
    match flags {
        Makeflags::HandedOn => {}
        Makeflags::Set(value) => variables.push(variable(alloc, MAKEFLAGS, value.as_slice())?)?,
        Makeflags::Removed => variables.push(variable(alloc, MAKEFLAGS, &[])?)?,
    }
    Ok(())
}

// Where the report goes: its path, a space and the target.
fn push_report(
    alloc: Global,
    variables: &mut Vec<Variable>,
    path: Option<&ByteString>,
    target: &[u8],
) -> Result<(), AllocError>
    ensures { OnOk result (variables.new.items ≡ variables.old.items ++ report_to (option_map (λ p. p.now) path.entry) target.now) }
{
    let Some(path) = path else {
        return Ok(());
    };
    let mut value = Vec::from_slice(alloc, path.as_slice())?;
    value.push(b' ')?;
    value.extend_from_slice(target)?;
    variables.push(variable(alloc, REPORTS, &value)?)?;
    Ok(())
}

/// The variables of a recipe's environment: the definitions of the command line as they were written, then MAKEFLAGS, then
/// where the report of the target goes. Of two with one name the later counts. An empty MAKEFLAGS is one that is taken out.
pub fn environment(
    alloc: Global,
    definitions: &[Variable],
    flags: &Makeflags,
    path: Option<&ByteString>,
    target: &[u8],
) -> Result<Vec<Variable>, AllocError>
    ensures all { IfOk result (λ variables. variables.items
        ≡ environment definitions.now flags.now (option_map (λ p. p.now) path.entry) target.now) }
    ensures named { IfOk result (λ variables. IfSome (option_map (λ p. p.now) path.entry) (NamesReport target.now variables.items)) }
{
    let mut variables = Vec::new(alloc);
    push_definitions(alloc, &mut variables, definitions)?;
    push_flags(alloc, &mut variables, flags)?;
    push_report(alloc, &mut variables, path, target)?;
    Ok(variables)
}
