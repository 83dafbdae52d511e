//! The commands of finished targets with the sources that they name, as a compilation database has them.

ghost use Rattle.std.specs.Prelude.{◌≡◌, ◌++◌, IfOk, OnOk, filter, map as list_map};
ghost use Rattle.std.specs.List.{flat_map};
ghost use Rattle.std.specs.FinMap as map;
ghost use Rattle.st_state.specs.State.{StateMap};
ghost use Rattle.st_answers.specs.Compilations.{compiled, is_source_in, first_or, compiled_by, compiled_from, compiled_for, all_compiled};

use crate::sources::is_source_in;
use st_packed::PackedEntry;
use st_records::{Iter, Phase};
use st_state::Listed;
use std::alloc::{AllocError, Global};

/// A command that was run for a target, and a source that it names.
#[derive(Clone, Copy)]
pub struct Compilation<'a> {
    pub command: &'a [u8],
    pub file: &'a [u8],
    pub output: &'a [u8],
}

/// The commands of all finished targets of a state, those that name no source too where `all` are wanted; a command that names
/// several stands there once for each. Targets are in byte order, commands in that in which they were run.
pub fn compilations<'a>(
    alloc: Global,
    named: &Listed<'a>,
    all: bool,
) -> Result<Vec<Compilation<'a>>, AllocError>
    ensures { (m : StateMap) → named.now ≡ map.entries m → IfOk result (λ found. list_map compiled found.items ≡ all_compiled all m) }
{
    let mut found = Vec::new(alloc);
    for place in 0..named.len() {
        let (name, entry) = named.at(place);
        append_for(&mut found, name, entry, all)?;
    }
    Ok(found)
}

fn append_for<'a>(
    found: &mut Vec<Compilation<'a>>,
    name: &'a [u8],
    entry: &'a PackedEntry,
    all: bool,
) -> Result<(), AllocError>
    ensures { OnOk result (list_map compiled found.new.items ≡ list_map compiled found.old.items ++ compiled_for all (name.now, entry.now)) }
{
    match entry.phase() {
        Phase::Done => append_commands(found, name, entry, all),
        Phase::Begun => Ok(()),
        Phase::Failed(_) => Ok(()),
    }
}

fn append_commands<'a>(
    found: &mut Vec<Compilation<'a>>,
    name: &'a [u8],
    entry: &'a PackedEntry,
    all: bool,
) -> Result<(), AllocError>
    ensures { OnOk result (list_map compiled found.new.items ≡ list_map compiled found.old.items ++ flat_map (compiled_by all (name.now, entry.now)) entry.now.commands) }
{
    for command in entry.commands() {
        append_command(found, command, name, entry, all)?;
    }
    Ok(())
}

/// A command once for each source that it names, or as one that names none.
fn append_command<'a>(
    found: &mut Vec<Compilation<'a>>,
    command: &'a [u8],
    name: &'a [u8],
    entry: &'a PackedEntry,
    all: bool,
) -> Result<(), AllocError>
    ensures { OnOk result (list_map compiled found.new.items ≡ list_map compiled found.old.items ++ compiled_by all (name.now, entry.now) command.now) }
{
    let before = found.len();
    append_sources(found, command, name, entry.names())?;
    append_sources(found, command, name, entry.hidden())?;
    if found.len() > before {
        return Ok(());
    }
    if !all {
        return Ok(());
    }
    let file = first_or(name, entry.names());
    found.push(Compilation {
        command,
        file,
        output: name,
    })?;
    Ok(())
}

/// Once for each of these prerequisites that is a source which the command names.
fn append_sources<'a>(
    found: &mut Vec<Compilation<'a>>,
    command: &'a [u8],
    output: &'a [u8],
    names: Iter<'a>,
) -> Result<(), AllocError>
    ensures { OnOk result (list_map compiled found.new.items ≡ list_map compiled found.old.items ++ compiled_from command.now output.now (filter (is_source_in command.now) names.entry)) }
{
    for file in names {
        if is_source_in(command, file) {
            found.push(Compilation {
                command,
                file,
                output,
            })?;
        }
    }
    Ok(())
}

/// The first of these names, or another one.
fn first_or<'a>(other: &'a [u8], names: Iter<'a>) -> &'a [u8]
    ensures { result.now ≡ first_or other.now names.entry }
{
    let mut left = names;
    match left.next() {
        None => other,
        Some(name) => name,
    }
}
