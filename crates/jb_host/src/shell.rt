//! Recipe lines run by the shell.
ghost use Rattle.std.specs.Prelude.{◌≡◌, ◌≤◌, ℕ, [], ◌∷◌, ◌++◌, None, Some, pos, IfOk, OnOk, codes};
ghost use Rattle.std.specs.Process.{command_program, command_args, exit_code};
ghost use Rattle.byte_strings.specs.Blanks.{words};
ghost use Rattle.jb_host.specs.Shell.{started};

use crate::heard::status_heard;
use crate::hears::Hears;
use crate::sharing::Sharing;
use crate::stops::Stops;
use crate::surroundings::Surroundings;
use crate::writes::Writes;
use bd_lists::{Clearance, Ended, Exec, ExecFault, Variable};
use byte_strings::{ByteString, next_word};
use jb_janitor::{Janitor, RECIPES};
use jb_recipe::{Signal, Stopped};
use mk_recipe::Line;
use std::alloc::{AllocError, Global};
use std::fs::File;
use std::io::{self, ErrorKind};
use std::os::unix::process::ExitStatusExt;
use std::process::{Command, ExitStatus, Output, Stdio};
use std::sync::{OnceLock, Wait};

/// The lock on a state, as the recipes of the run that keeps it inherit it: who has a handle to the file holds the lock.
pub struct HeldLock {
    /// The locked file, which is empty.
    pub file: File,
    /// What this lock and those of the runs above are known by, with a blank between each two.
    pub names: String,
}

impl Drop for HeldLock {
    fn drop(self) {
        let HeldLock { file: _, names: _ } = self;
    }
}

/// The variable that tells recipes which locks the runs above them hold.
pub const HOLDS: &str = "DMK_HOLDS";

/// What is set before the first line is run.
pub struct BeforeLines {
    /// The lock that the run holds, if it holds one.
    pub held: OnceLock<HeldLock>,
    /// The shell that the makefile names, in the wide profile.
    pub shell: OnceLock<ByteString>,
}

impl Drop for BeforeLines {
    fn drop(self) {
        let BeforeLines { held: _, shell: _ } = self;
    }
}

impl BeforeLines {
    pub fn new() -> BeforeLines {
        BeforeLines {
            held: OnceLock::new(),
            shell: OnceLock::new(),
        }
    }
}

/// Runs each line as `/bin/sh -c TEXT`, or by the shell that the makefile names, with empty standard input unless it has the
/// terminal alone, in dmk's own environment and the recipe's variables. What it writes is collected, unless it is heard as it comes or shares dmk's own streams.
/// Nothing is claimed of the shell.
#[derive(Drop)]
pub struct Shell<'a, R: Wait, H> {
    rt: HostRuntime,
    alloc: Global,
    before: &'a BeforeLines,
    /// Read when the first line is run; None where lines inherit dmk's own environment as it is.
    surroundings: OnceLock<Option<Surroundings>>,
    stops: &'a Stops<'a, R>,
    janitor: &'a Janitor<'a, R>,
    sharing: Sharing<'a>,
    hears: &'a H,
}

/// A line's command can't be made: memory or a descriptor was refused, or a text isn't UTF-8.
#[derive(Drop)]
pub(crate) struct NoCommand(io::Error);

impl From<AllocError> for NoCommand {
    ghost from_gives = { λ _ _. Unit {0} };

    fn from(error: AllocError) -> NoCommand {
        NoCommand(io::Error::from(error))
    }
}

impl From<io::Error> for NoCommand {
    ghost from_gives = { λ _ _. Unit {0} };

    fn from(error: io::Error) -> NoCommand {
        NoCommand(error)
    }
}

fn not_text() -> io::Error {
    io::Error::new(ErrorKind::InvalidData, "not text")
}

fn text_of(bytes: &[u8]) -> Result<&str, NoCommand>
    ensures { IfOk result (λ text. text.now ≡ bytes.now) }
{
    match std::str::from_utf8(bytes) {
        Ok(text) => Ok(text),
        Err(_) => Err(NoCommand(not_text())),
    }
}

// An empty MAKEFLAGS says nothing to a make, and stands for one that is taken out.
fn set_variable(command: &mut Command, variable: &Variable) -> Result<(), NoCommand> {
    let name = text_of(variable.name.as_slice())?;
    let value = text_of(variable.value.as_slice())?;
    if name == "MAKEFLAGS" && value.is_empty() {
        command.env_remove(name)?;
    } else {
        command.env(name, value)?;
    }
    Ok(())
}

fn set_variables(command: &mut Command, env: &[Variable]) -> Result<(), NoCommand> {
    for variable in env {
        set_variable(command, variable)?;
    }
    Ok(())
}

/// Has the shell run this text.
pub(crate) fn set_text(command: &mut Command, text: &str) -> Result<(), AllocError>
    ensures program { OnOk result (command_program command.new ≡ command_program command.old) }
    ensures args { OnOk result (command_args command.new ≡ (command_args command.old ++ codes "-c" ∷ []) ++ text.now ∷ []) }
{
    command.arg("-c")?.arg(text)?;
    Ok(())
}

// The usual shell that runs a text in dmk's own environment.
fn usual_shell(alloc: Global, text: &[u8]) -> Result<Command, NoCommand>
    ensures program { IfOk result (λ command. command_program command ≡ codes "/bin/sh") }
    ensures args { IfOk result (λ command. command_args command ≡ codes "-c" ∷ text.now ∷ []) }
{
    let text = text_of(text)?;
    let mut command = Command::new(alloc, "/bin/sh")?;
    set_text(&mut command, text)?;
    Ok(command)
}

// Adds the words of a text to the arguments.
fn add_words(command: &mut Command, text: &[u8]) -> Result<(), NoCommand>
    ensures program { OnOk result (command_program command.new ≡ command_program command.old) }
    ensures args { OnOk result (command_args command.new ≡ command_args command.old ++ words text.now) }
{
    let mut rest = text;
    while let Some((word, behind)) = next_word(rest) {
        command.arg(text_of(word)?)?;
        rest = behind;
    }
    Ok(())
}

// Has the shell run this text, with the words of another text before that.
fn set_words(command: &mut Command, before: &[u8], text: &str) -> Result<(), NoCommand>
    ensures program { OnOk result (command_program command.new ≡ command_program command.old) }
    ensures args { OnOk result (command_args command.new ≡ ((command_args command.old ++ words before.now) ++ codes "-c" ∷ []) ++ text.now ∷ []) }
{
    add_words(command, before)?;
    set_text(command, text)?;
    Ok(())
}

// The shell of this name, which runs a text in dmk's own environment.
fn shell_of(alloc: Global, shell: &[u8], text: &[u8]) -> Result<Command, NoCommand>
    ensures { IfOk result (λ command. command_program command ∷ command_args command ≡ started shell.now text.now) }
{
    let Some((program, arguments)) = next_word(shell) else {
        return usual_shell(alloc, text);
    };
    let text = text_of(text)?;
    let mut command = Command::new(alloc, text_of(program)?)?;
    match set_words(&mut command, arguments, text) {
        Ok(()) => Ok(command),
        Err(fault) => {
            drop(command);
            Err(fault)
        }
    }
}

/// The shell of this name that runs a text, with these variables beside those of dmk's own environment.
pub(crate) fn shell_command(
    alloc: Global,
    shell: &[u8],
    text: &[u8],
    env: &[Variable],
) -> Result<Command, NoCommand> {
    let mut command = shell_of(alloc, shell, text)?;
    match set_variables(&mut command, env) {
        Ok(()) => Ok(command),
        Err(fault) => {
            drop(command);
            Err(fault)
        }
    }
}

impl<'a, R: Wait, H: Hears> Shell<'a, R, H> {
    pub fn new(
        rt: HostRuntime,
        alloc: Global,
        before: &'a BeforeLines,
        stops: &'a Stops<'a, R>,
        janitor: &'a Janitor<'a, R>,
        sharing: Sharing<'a>,
        hears: &'a H,
    ) -> Shell<'a, R, H> {
        Shell {
            rt,
            alloc,
            before,
            surroundings: OnceLock::new(),
            stops,
            janitor,
            sharing,
            hears,
        }
    }

    // Where another line reads the environment just now, this one inherits it.
    fn surroundings(&self) -> Option<&Surroundings> {
        if self.surroundings.get().is_none() {
            let _ = self.surroundings.try_set(Surroundings::read(self.rt));
        }
        self.surroundings.get()?.as_ref()
    }

    fn command(&self, line: &Line, env: &[Variable]) -> Result<Command, NoCommand> {
        let shell = match self.before.shell.get() {
            Some(shell) => shell.as_slice(),
            None => b"".as_slice(),
        };
        let mut command = shell_of(self.alloc, shell, line.text.as_slice())?;
        match self.set_environment(&mut command, env) {
            Ok(()) => Ok(command),
            Err(fault) => {
                drop(command);
                Err(fault)
            }
        }
    }

    fn set_environment(&self, command: &mut Command, env: &[Variable]) -> Result<(), NoCommand> {
        if let Some(surroundings) = self.surroundings() {
            surroundings.hand_to(command)?;
        }
        set_variables(command, env)?;
        if let Some(recipes) = self.janitor.recipes() {
            command.env(RECIPES, recipes.as_str())?;
        }
        self.hand_on(command)
    }

    // A line that goes on behind a killed run keeps the lock by its standard input, so that the next run waits for it. One that has the
    // terminal doesn't.
    fn hand_on(&self, command: &mut Command) -> Result<(), NoCommand> {
        if let Some(held) = self.before.held.get() {
            command.env(HOLDS, held.names.as_str())?;
        }
        command.stdin(self.input()?);
        Ok(())
    }

    fn input(&self) -> io::Result<Stdio> {
        if self.sharing.turns.is_alone() {
            return Ok(Stdio::inherit());
        }
        match self.before.held.get() {
            Some(held) => Ok(Stdio::from(held.file.try_clone()?)),
            None => Ok(Stdio::null()),
        }
    }

    // What isn't set is collected.
    fn set_output(&self, command: &mut Command, line: &Line) {
        if self.sharing.shares(line) {
            command.stdout(Stdio::from(self.rt.stdout()));
            command.stderr(Stdio::from(self.rt.stderr()));
        }
    }

    // Whether what a line writes is heard, and then under which number.
    fn number(&self, line: &Line) -> Option<u64> {
        if self.sharing.writes != Writes::Heard || self.sharing.shares(line) {
            return None;
        }
        self.hears.number()
    }

    fn note_signal(&self, status: ExitStatus) {
        if let Some(signal) = status.signal() {
            self.stops.note(Stopped::By(Signal(signal)));
        }
    }

    // Why a line has no status is noted.
    fn not_started(&self, error: io::Error) -> ExecFault {
        self.stops.note(Stopped::NotStarted(error));
        ExecFault
    }

    fn ended_by(&self, command: &mut Command) -> Result<Ended, ExecFault>
        ensures { IfOk result (λ ended. ended.status ≤ 256) }
    {
        match command.output(&self.rt) {
            Ok(output) => {
                self.note_signal(output.status);
                Ok(ended(output))
            }
            Err(error) => Err(self.not_started(error)),
        }
    }

    // What it writes is heard, so nothing of it is left to be told.
    fn heard_by(&self, command: Command, number: u64) -> Result<Ended, ExecFault>
        ensures { IfOk result (λ ended. ended.status ≤ 256) }
    {
        match status_heard(self.rt, command, self.hears, number) {
            Ok(status) => {
                self.note_signal(status);
                Ok(ended_silently(self.alloc, status))
            }
            Err(error) => Err(self.not_started(error)),
        }
    }
}

// The status of a process as a state knows it: 256 where a signal ended it.
pub(crate) fn status_of(code: Option<i32>) -> u32
    ensures within { result ≤ 256 }
    ensures ended { (number : ℕ) → code ≡ Some (pos number) → number ≤ 256 → result ≡ number }
    ensures stopped { code ≡ None → result ≡ 256 }
{
    match code {
        Some(code) => match u32::try_from(code) {
            Ok(status) => status.min(256),
            Err(_) => 256,
        },
        None => 256,
    }
}

fn ended(output: Output) -> Ended
    ensures within { result.status ≤ 256 }
    ensures status { (number : ℕ) → exit_code output.status ≡ Some (pos number) → number ≤ 256 → result.status ≡ number }
    ensures out { result.out ≡ output.stdout.items }
    ensures err { result.err ≡ output.stderr.items }
{
    Ended {
        status: status_of(output.status.code()),
        out: ByteString::new(output.stdout),
        err: ByteString::new(output.stderr),
    }
}

// How a line ended of which nothing was collected.
fn ended_silently(alloc: Global, status: ExitStatus) -> Ended
    ensures within { result.status ≤ 256 }
    ensures status { (number : ℕ) → exit_code status ≡ Some (pos number) → number ≤ 256 → result.status ≡ number }
{
    Ended {
        status: status_of(status.code()),
        out: ByteString::new(Vec::new(alloc)),
        err: ByteString::new(Vec::new(alloc)),
    }
}

impl<T, R: Wait, H: Hears> Exec<T> for Shell<'_, R, H> {
    ghost answers = { λ shell env line answer. Unit {0} };

    fn run(
        &self,
        _clearance: &Clearance<T>,
        line: &Line,
        env: &[Variable],
    ) -> Result<Ended, ExecFault> {
        match self.command(line, env) {
            Ok(mut command) => match self.number(line) {
                Some(number) => self.heard_by(command, number),
                None => {
                    self.set_output(&mut command, line);
                    let ended = self.ended_by(&mut command);
                    drop(command);
                    ended
                }
            },
            Err(NoCommand(error)) => Err(self.not_started(error)),
        }
    }
}
