//! What a run would make, listed or asked for, also beside a run that writes the state.
ghost use Rattle.std.specs.Prelude.{codes};
ghost use Rattle.dmk_reading.specs.Keeping.{value_in};
ghost use Rattle.dmk_reading.specs.Asked.{AsksToLook};

use crate::look::{Look, say};
use crate::shell_asked::ShellSource;
use bd_lists::Variable;
use dmk_files::FileTexts;
use dmk_host::{
    AlwaysLines, HostFiles, IncludeFolders, LineSettings, beside_recipes, tell_definitions,
    with_locks_told,
};
use dmk_messages::Fault;
use dmk_reading::Options;
use dmk_words::Later;
use std::alloc::{AllocError, Global};
use std::thread;
use std::time::Duration;

/// How often a fault is looked for at most, where each time it is another one.
const MAX_LOOKS: usize = 100;

/// How many milliseconds a run has, between two looks, to end the step that the first one met.
const PAUSE_MILLISECONDS: u64 = 2;

/// Tells why nothing is listed.
fn tell_refused(host: HostRuntime, fault: &Fault) -> Result<u8, AllocError> {
    if fault.is_of_memory() {
        return Err(AllocError);
    }
    say(host, fault);
    Ok(2)
}

/// Looks until there is no fault, or two looks, one behind the other, have come to the same one.
fn last_look(
    host: HostRuntime,
    options: Options,
    environment: &[Variable],
    makefiles: &mut FileTexts<HostFiles<'_>>,
) -> Result<Look, AllocError>
    requires { AsksToLook options (value_in environment.now (codes "MAKEFLAGS")) }
{
    let mut look = Look::of(host, options, environment, makefiles)?;
    for _ in 1..MAX_LOOKS {
        if !look.is_fault() {
            break;
        }
        thread::sleep(&host, Duration::from_millis(PAUSE_MILLISECONDS));
        let (next, is_settled) = look.looked_again(host, environment, makefiles)?;
        look = next;
        if is_settled {
            break;
        }
    }
    Ok(look)
}

/// The last look, and the shell of its lines, where it has any.
fn look_and_shell(
    host: HostRuntime,
    options: Options,
    environment: &[Variable],
    makefiles: &mut FileTexts<HostFiles<'_>>,
    source: &ShellSource,
) -> Result<(Look, Result<Vec<u8>, Fault>), AllocError>
    requires { AsksToLook options (value_in environment.now (codes "MAKEFLAGS")) }
{
    let look = last_look(host, options, environment, makefiles)?;
    let shell = if look.runs_any() {
        source.shell(host, environment, makefiles)
    } else {
        Ok(Vec::new(host.alloc()))
    };
    Ok((look, shell))
}

/// What the lines that are run all the same have in their environment, beside dmk's own.
fn beside_lines(
    host: HostRuntime,
    options: &Options,
    later: Later,
    environment: &[Variable],
) -> Result<Vec<Variable>, AllocError> {
    let env = beside_recipes(host, options, later, environment)?;
    with_locks_told(host, options, environment, env)
}

/// What the shell of recipes is read from, and where included files are looked for.
fn read_from(
    alloc: Global,
    options: &Options,
) -> Result<(ShellSource, IncludeFolders), AllocError> {
    let source = ShellSource::of(alloc, options)?;
    let folders = IncludeFolders::of(alloc, &options.makefiles)?;
    Ok((source, folders))
}

/// Lists what a run would make, or asks whether there is anything. A run that writes the state meanwhile may make a reading of it fail;
/// so a fault is told once two looks, one behind the other, have come to the same. The lines that are run all the same are those of the
/// last look, and are run once.
pub fn ask(
    host: HostRuntime,
    options: Options,
    later: Later,
    environment: &[Variable],
    input: Option<&[u8]>,
) -> Result<u8, AllocError>
    requires { AsksToLook options (value_in environment.now (codes "MAKEFLAGS")) }
{
    let env = match beside_lines(host, &options, later, environment) {
        Ok(env) => env,
        Err(error) => {
            drop(options);
            return Err(error);
        }
    };
    let (source, folders) = match read_from(host.alloc(), &options) {
        Ok(read) => read,
        Err(error) => {
            drop(options);
            return Err(error);
        }
    };
    let settings = LineSettings::of(&options);
    let mut makefiles = HostFiles::texts(host, options.profile, input, &env, &folders);
    if let Err(error) = tell_definitions(host, &options, later, environment, &mut makefiles) {
        drop(makefiles);
        drop(source);
        drop(options);
        return Err(error);
    }
    let found = look_and_shell(host, options, environment, &mut makefiles, &source);
    drop(makefiles);
    drop(source);
    let (look, shell) = found?;
    match shell {
        Ok(shell) => Ok(look.tell(host, &AlwaysLines::new(host, settings, &shell, &env))),
        Err(fault) => {
            drop(look);
            tell_refused(host, &fault)
        }
    }
}
