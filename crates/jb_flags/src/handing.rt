//! What makes below are told of the options and definitions of a run, by MAKEFLAGS, and of its profile.
ghost use Rattle.std.specs.Prelude.{◌≡◌, ◌≤◌, ◌++◌, ◌⊎◌, filter, find, option_copied, option_map, IfOk, OnOk, IsErr};
ghost use Rattle.std.specs.List.{flat_map};
ghost use Rattle.jb_flags.specs.Words.{quoted};
ghost use Rattle.jb_flags.specs.Handed.{variable, is_passed_on, is_makeflags, definition_word, behind_options, definition_words, slot_words, makeflags};
ghost use Rattle.jb_flags.specs.Told.{told_words, told_variables, IsTold, IsToldTo};

use crate::told::{opened_line, opens, pool_in};
use crate::words::push_quoted;
use bd_lists::{Clearance, Ended, Exec, ExecFault, Variable};
use byte_strings::ByteString;
use mk_recipe::Line;
use std::alloc::{AllocError, Global};
use std::sync::OnceLock;

/// The variable that tells makes below of the wide profile, and what it then is.
pub const PROFILE: (&[u8], &[u8]) = (b"DMK_PROFILE", b"posix");

const MAKEFLAGS: &[u8] = b"MAKEFLAGS";

/// The variable that tells makes below how many are above them (GNU make).
const LEVEL: &[u8] = b"MAKELEVEL";

/// What is handed on.
#[derive(Drop)]
pub struct Handed {
    /// The words of options, that of letters first, or nothing.
    pub options: Vec<u8>,
    /// The words of job slots where a recipe shares those of a make above.
    pub slots: Vec<u8>,
    /// Those where a recipe or a line shares none.
    pub alone: Vec<u8>,
    /// Those of a line for which a shell opens the slots.
    pub opened: Vec<u8>,
    /// The definitions, behind `--`.
    pub definitions: Vec<u8>,
    /// How many makes are above those below.
    pub level: Vec<u8>,
}

fn push_definition(text: &mut Vec<u8>, variable: &Variable) -> Result<(), AllocError>
    ensures { OnOk result (text.new.items ≡ text.old.items ++ definition_word variable.now) }
{
    text.push(b' ')?;
    push_quoted(text, variable.name.as_slice())?;
    text.push(b'=')?;
    push_quoted(text, variable.value.as_slice())
}

fn is_passed_on(variable: &Variable) -> bool
    ensures { result ≡ is_passed_on variable.now }
{
    !(variable.name.as_slice().is_empty() || variable.name.as_slice() == MAKEFLAGS)
}

fn push_definitions(text: &mut Vec<u8>, variables: &[Variable]) -> Result<(), AllocError>
    ensures { OnOk result (text.new.items ≡ text.old.items ++ flat_map definition_word (filter is_passed_on variables.now)) }
{
    for variable in variables {
        if is_passed_on(variable) {
            push_definition(text, variable)?;
        }
    }
    Ok(())
}

fn behind_options(alloc: Global, words: Vec<u8>) -> Result<Vec<u8>, AllocError>
    ensures { IfOk result (λ text. text.items ≡ behind_options words.items) }
{
    if words.is_empty() {
        return Ok(words);
    }
    let mut text = Vec::from_slice(alloc, b" --")?;
    text.extend_from_slice(&words)?;
    Ok(text)
}

/// These definitions as words of MAKEFLAGS.
pub fn definition_words(alloc: Global, variables: &[Variable]) -> Result<Vec<u8>, AllocError>
    ensures { IfOk result (λ text. text.items ≡ definition_words variables.now) }
{
    let mut words = Vec::new(alloc);
    push_definitions(&mut words, variables)?;
    behind_options(alloc, words)
}

fn variable(alloc: Global, name: &[u8], value: &[u8]) -> Result<Variable, AllocError>
    ensures { IfOk result (λ v. v ≡ variable name.now value.now) }
{
    Ok(Variable {
        name: ByteString::from_slice(alloc, name)?,
        value: ByteString::from_slice(alloc, value)?,
    })
}

fn is_makeflags(variable: &Variable) -> bool
    ensures { result ≡ is_makeflags variable.now }
{
    MAKEFLAGS == variable.name.as_slice()
}

/// What recipes are given of MAKEFLAGS; None where they have it as it came.
fn makeflags_in(env: &[Variable]) -> Option<&Variable>
    ensures { option_copied result ≡ find is_makeflags env.now }
{
    env.iter().find(|variable| is_makeflags(variable))
}

impl Handed {
    /// The words of job slots of a recipe.
    fn slot_words<'a>(&'a self, env: &'a [Variable]) -> &'a [u8]
        ensures { result.now ≡ slot_words self.now env.now }
    {
        match makeflags_in(env) {
            Some(variable) if variable.value.as_slice().is_empty() => self.alone.as_slice(),
            Some(variable) => variable.value.as_slice(),
            None => self.slots.as_slice(),
        }
    }

    /// The words of job slots of a line, where it may have some, and where the FIFO of a path is opened for it.
    fn told_words<'a>(&'a self, env: &'a [Variable], may: bool, pool: Option<&[u8]>) -> &'a [u8]
        ensures { result.now ≡ told_words self.now env.now may (option_map (λ path. path.now) pool.entry) }
    {
        if pool.is_some() {
            self.opened.as_slice()
        } else if may {
            self.slot_words(env)
        } else {
            self.alone.as_slice()
        }
    }

    fn makeflags(&self, alloc: Global, words: &[u8]) -> Result<Vec<u8>, AllocError>
        ensures { IfOk result (λ value. value.items ≡ makeflags self.now words.now) }
    {
        let mut value = Vec::from_slice(alloc, self.options.as_slice())?;
        value.extend_from_slice(words)?;
        value.extend_from_slice(self.definitions.as_slice())?;
        Ok(value)
    }

    // These variables with what is handed on, with these words of job slots.
    fn environment(
        &self,
        alloc: Global,
        words: &[u8],
        env: &[Variable],
    ) -> Result<Vec<Variable>, AllocError>
        ensures { IfOk result (λ all. all.items ≡ told_variables self.now words.now env.now) }
    {
        let mut all = Vec::new(alloc);
        for given in env {
            let name = given.name.as_slice();
            all.push(variable(alloc, name, given.value.as_slice())?)?;
        }
        let flags = self.makeflags(alloc, words)?;
        all.push(variable(alloc, MAKEFLAGS, &flags)?)?;
        all.push(variable(alloc, LEVEL, &self.level)?)?;
        all.push(variable(alloc, PROFILE.0, PROFILE.1)?)?;
        Ok(all)
    }

    /// These variables with what is handed on to what is run beside recipes, which shares no job slots.
    pub fn beside(&self, alloc: Global, env: &[Variable]) -> Result<Vec<Variable>, AllocError>
        ensures { IfOk result (λ all. all.items ≡ told_variables self.now self.now.alone.items env.now) }
    {
        self.environment(alloc, self.alone.as_slice(), env)
    }
}

/// Runs lines with what is handed on, where something is.
#[derive(Drop)]
pub struct Handing<'a, E> {
    pub alloc: Global,
    pub handed: Option<&'a Handed>,
    /// The shell that the makefile names.
    pub shell: &'a OnceLock<ByteString>,
    pub exec: &'a E,
}

impl<E> Handing<'_, E> {
    /// Whether the shell opens descriptors as POSIX has it.
    fn opens(&self) -> bool {
        match self.shell.get() {
            Some(shell) => opens(shell.as_slice()),
            None => true,
        }
    }
}

/// Runs a line with what is handed on, in a shell that opens descriptors or doesn't.
fn run_told<T, E: Exec<T>>(
    alloc: Global,
    handed: &Handed,
    opens: bool,
    exec: &E,
    clearance: &Clearance<T>,
    line: &Line,
    env: &[Variable],
) -> Result<Ended, ExecFault>
    ensures answered { IsErr result ⊎ IsTold (E.answers exec.now) handed.now opens line.now env.now result }
    ensures status { IfOk result (λ e. e.status ≤ 256) }
{
    let may = line.is_always_run;
    let pool = pool_in(handed.slot_words(env), may && opens);
    let words = handed.told_words(env, may, pool);
    let Ok(all) = handed.environment(alloc, words, env) else {
        return Err(ExecFault);
    };
    let Some(path) = pool else {
        return exec.run(clearance, line, &all);
    };
    match opened_line(alloc, line, path) {
        Ok(opened) => exec.run(clearance, &opened, &all),
        Err(_) => Err(ExecFault),
    }
}

impl<T, E: Exec<T>> Exec<T> for Handing<'_, E> {
    ghost answers = { λ handing env line answer. IsErr answer
        ⊎ IsToldTo (E.answers handing.exec.now) (option_copied handing.handed) line env answer };

    fn run(
        &self,
        clearance: &Clearance<T>,
        line: &Line,
        env: &[Variable],
    ) -> Result<Ended, ExecFault> {
        match self.handed {
            Some(handed) => run_told(
                self.alloc,
                handed,
                self.opens(),
                self.exec,
                clearance,
                line,
                env,
            ),
            None => self.exec.run(clearance, line, env),
        }
    }
}
