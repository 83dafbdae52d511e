//! The variables of the environment, as bytes.
ghost use Rattle.std.specs.Prelude.{◌≡◌, true, false, codes, IfOk};
ghost use Rattle.mk_profile.specs.Profile.{is_wide};
ghost use Rattle.dmk_reading.specs.Asked.{AsksForLanguage};
ghost use Rattle.dmk_reading.specs.Keeping.{value_in};

use crate::descriptors::with_pool_path;
use crate::flags::flags_seen;
use crate::request::Later;
use bd_lists::Variable;
use byte_strings::ByteString;
use dmk_reading::{Options, usual_state, value_of};
use mk_profile::Profile;
use std::alloc::{AllocError, Global};
use std::env::{self, FillError};
use std::rt::Env;

// How often the room for an entry is doubled: up to 32 MB, and the kernel hands a program no longer one.
const MAX_DOUBLINGS: usize = 17;

/// The entry of this number; None behind the last one.
fn entry(rt: HostRuntime, number: usize) -> Result<Option<Vec<u8>>, AllocError> {
    let alloc = rt.alloc();
    let mut capacity: usize = 256;
    for _ in 0..=MAX_DOUBLINGS {
        let mut bytes = vec![in alloc; 0u8; capacity]?;
        match rt.var_at(number, bytes.as_mut_slice()) {
            Ok(len) => {
                bytes.truncate(len);
                return Ok(Some(bytes));
            }
            Err(FillError::NotPresent) => return Ok(None),
            Err(FillError::TooLong) => capacity = capacity.saturating_mul(2),
        }
    }
    Err(AllocError)
}

/// The name and the value, which the first `=` parts; None where there is no `=`.
fn variable_of(alloc: Global, entry: &[u8]) -> Result<Option<Variable>, AllocError> {
    let Some(at) = entry.iter().position(|byte| *byte == b'=') else {
        return Ok(None);
    };
    let (name, rest) = entry.split_at(at);
    let Some((_equals, value)) = rest.split_first() else {
        return Ok(None);
    };
    Ok(Some(Variable {
        name: ByteString::from_slice(alloc, name)?,
        value: ByteString::from_slice(alloc, value)?,
    }))
}

/// All variables, in their order. What isn't one is passed over.
pub fn read_environment(rt: HostRuntime) -> Result<Vec<Variable>, AllocError> {
    let mut variables = Vec::new(rt.alloc());
    for number in 0..usize::MAX {
        let Some(entry) = entry(rt, number)? else {
            break;
        };
        if let Some(variable) = variable_of(rt.alloc(), &entry)? {
            variables.push(variable)?;
        }
    }
    Ok(variables)
}

/// Whether a variable of the environment is one for macros in this language: in the wide one CURDIR, MAKEFLAGS and SHELL are set by
/// the run itself.
fn is_given(name: &[u8]) -> bool {
    name != b"CURDIR".as_slice() && name != b"MAKEFLAGS".as_slice() && name != b"SHELL".as_slice()
}

fn has_variable(environment: &[Variable], name: &[u8]) -> bool {
    environment
        .iter()
        .any(|variable| variable.name.as_slice() == name)
}

/// How many of the variables that macros see count as definitions where the environment's do: in the wide language those before
/// MAKEFLAGS.
pub(crate) fn given_in(profile: Profile, environment: &[Variable]) -> usize {
    if !profile.is_wide() {
        return environment.len();
    }
    environment
        .iter()
        .position(|variable| variable.name.as_slice() == b"MAKEFLAGS".as_slice())
        .unwrap_or(environment.len())
}

fn push(
    alloc: Global,
    variables: &mut Vec<Variable>,
    name: &[u8],
    value: &[u8],
) -> Result<(), AllocError> {
    variables.push(Variable {
        name: ByteString::from_slice(alloc, name)?,
        value: ByteString::from_slice(alloc, value)?,
    })?;
    Ok(())
}

/// The variables in this language: in the wide one CURDIR is the folder that is worked in, whatever the environment says of it (POSIX
/// make, "Macros"), and SHELL isn't taken, with -e neither. Behind them stand MAKEFLAGS as it is read, and MAKELEVEL, which is 0, and
/// MAKE, unless the environment has them. They aren't handed to recipes. What the folder or the program has no name for isn't there.
fn with_own(
    rt: HostRuntime,
    profile: Profile,
    program: Option<&[u8]>,
    environment: Vec<Variable>,
) -> Result<Vec<Variable>, AllocError>
    ensures strict { is_wide profile ≡ false → IfOk result (λ variables. variables ≡ environment) }
{
    if !profile.is_wide() {
        return Ok(environment);
    }
    let mut variables = environment;
    set_own(rt, program, &mut variables)?;
    Ok(variables)
}

/// The same for variables in the wide language.
fn set_own(
    rt: HostRuntime,
    program: Option<&[u8]>,
    variables: &mut Vec<Variable>,
) -> Result<(), AllocError> {
    let flags = with_pool_path(rt, value_of(variables, b"MAKEFLAGS"))?;
    let has_make = has_variable(variables, b"MAKE");
    let has_level = has_variable(variables, b"MAKELEVEL");
    variables.retain(|variable| is_given(variable.name.as_slice()));
    if let Ok(folder) = env::current_dir(&rt) {
        push(rt.alloc(), variables, b"CURDIR", folder.as_str().as_bytes())?;
    }
    push(rt.alloc(), variables, b"MAKEFLAGS", &flags)?;
    if !has_level {
        push(rt.alloc(), variables, b"MAKELEVEL", b"0")?;
    }
    match program {
        Some(program) if !has_make => push(rt.alloc(), variables, b"MAKE", program),
        _ => Ok(()),
    }
}

/// The variables that macros see, in the language that these options and the environment's MAKEFLAGS ask for. This is what MAKE is
/// where the program is known.
pub fn macro_variables(
    rt: HostRuntime,
    options: &Options,
    program: Option<&[u8]>,
) -> Result<Vec<Variable>, AllocError> {
    let environment = read_environment(rt)?;
    let language = options.language(value_of(&environment, b"MAKEFLAGS"));
    with_own(rt, language, program, environment)
}

/// The variables with MAKEFLAGS as macros see it in the wide profile, behind the one that is read. What else is asked of MAKEFLAGS is asked
/// of the first one.
pub fn with_flags_seen(
    alloc: Global,
    options: &Options,
    later: Later,
    environment: Vec<Variable>,
) -> Result<Vec<Variable>, AllocError>
    ensures strict { is_wide options.now.profile ≡ false → IfOk result (λ variables. variables ≡ environment) }
{
    let before = later.definitions_before(options.profile, &environment);
    let Some(text) = flags_seen(alloc, options, later, before)? else {
        return Ok(environment);
    };
    let mut variables = environment;
    push(alloc, &mut variables, b"MAKEFLAGS", &text)?;
    Ok(variables)
}

/// The first makefile that the words name.
fn first_makefile(options: &Options) -> Option<&str> {
    str::from_utf8(options.makefiles.named.get(0)?).ok()
}

/// The options by this environment: MAKEFLAGS may ask for the wide language, by which the state has its name where the words give it
/// none, and where the environment counts, its variables are definitions of the command line, before those that stand there.
pub fn with_environment(
    alloc: Global,
    later: Later,
    options: Options,
    environment: &[Variable],
) -> Result<Options, AllocError>
    ensures language { IfOk result (λ asked. AsksForLanguage options (value_in environment.now (codes "MAKEFLAGS")) asked.profile) }
    ensures state { later.names_state ≡ true → IfOk result (λ asked. asked.state ≡ options.state) }
    ensures definitions { later.environment_counts ≡ false → IfOk result (λ asked. asked.definitions ≡ options.definitions) }
{
    let mut options = options;
    options.profile = options.language(value_of(environment, b"MAKEFLAGS"));
    if !later.names_state {
        match usual_state(alloc, options.profile, first_makefile(&options)) {
            Ok(state) => options.state = state,
            Err(error) => {
                drop(options);
                return Err(error);
            }
        }
    }
    if !later.environment_counts {
        return Ok(options);
    }
    let given = given_in(options.profile, environment);
    match put_before(alloc, &mut options.definitions, environment, given) {
        Ok(()) => Ok(options),
        Err(error) => {
            drop(options);
            Err(error)
        }
    }
}

/// Puts so many of the environment's variables before these definitions.
fn put_before(
    alloc: Global,
    definitions: &mut Vec<Variable>,
    environment: &[Variable],
    given: usize,
) -> Result<(), AllocError> {
    let mut all = Vec::with_capacity(alloc, given)?;
    for variable in environment.iter().take(given) {
        push(
            alloc,
            &mut all,
            variable.name.as_slice(),
            variable.value.as_slice(),
        )?;
    }
    all.append(definitions)?;
    *definitions = all;
    Ok(())
}
