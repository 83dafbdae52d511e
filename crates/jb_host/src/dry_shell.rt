//! Lines that are run in a dry run too, and commands of definitions.
ghost use Rattle.std.specs.Prelude.{◌≤◌, IfOk};

use crate::shell::{shell_command, status_of};
use bd_lists::{ExecFault, Variable};
use std::alloc::Global;
use std::process::{Command, Output, Stdio};

/// What a command wrote on standard output, and its status: 256 where a signal ended it.
#[derive(Drop)]
pub struct Written {
    pub status: u32,
    pub out: Vec<u8>,
}

// The status of a command that is run to its end.
fn end_of(rt: &HostRuntime, command: &mut Command) -> Result<u32, ExecFault>
    ensures { IfOk result (λ status. status ≤ 256) }
{
    match command.status(rt) {
        Ok(status) => Ok(status_of(status.code())),
        Err(_) => Err(ExecFault),
    }
}

fn outcome_of(output: Output) -> Written {
    Written {
        status: status_of(output.status.code()),
        out: output.stdout,
    }
}

fn written_by(rt: &HostRuntime, command: &mut Command) -> Result<Written, ExecFault> {
    match command.output(rt) {
        Ok(output) => Ok(outcome_of(output)),
        Err(_) => Err(ExecFault),
    }
}

/// Runs lines in a dry run, and commands of definitions, by a shell of any name, with empty standard input, in dmk's own environment and
/// these variables. They write where dmk does. What it runs is no recipe: it takes no clearance, so it has
/// none to give, and a recipe is never run by it. Nothing is claimed of the shell.
#[derive(Drop)]
pub struct DryShell<'a> {
    rt: HostRuntime,
    alloc: Global,
    env: &'a [Variable],
}

impl<'a> DryShell<'a> {
    pub fn new(rt: HostRuntime, alloc: Global, env: &'a [Variable]) -> DryShell<'a> {
        DryShell { rt, alloc, env }
    }

    fn command(&self, shell: &[u8], text: &[u8]) -> Result<Command, ExecFault> {
        match shell_command(self.alloc, shell, text, self.env) {
            Ok(mut command) => {
                command.stdin(Stdio::null());
                Ok(command)
            }
            Err(_) => Err(ExecFault),
        }
    }

    /// Runs a line to its end by the shell of this name, and answers its status: 256 where a signal ended it.
    pub fn run(&self, shell: &[u8], text: &[u8]) -> Result<u32, ExecFault>
        ensures { IfOk result (λ status. status ≤ 256) }
    {
        let mut command = self.command(shell, text)?;
        let status = end_of(&self.rt, &mut command);
        drop(command);
        status
    }

    /// Runs a text to its end by the shell of this name, and answers what it writes on standard output, and its status.
    pub fn output(&self, shell: &[u8], text: &[u8]) -> Result<Written, ExecFault> {
        let mut command = self.command(shell, text)?;
        command.stderr(Stdio::inherit());
        let written = written_by(&self.rt, &mut command);
        drop(command);
        written
    }
}
