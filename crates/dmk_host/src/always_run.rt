//! The lines that are run in a dry run too, between the parts of its listing, and the environment of what is run beside recipes.
use crate::standard_streams::with_patience;
use bd_lists::Variable;
use dmk_dry::AlwaysRun;
use dmk_reading::{Options, value_of};
use dmk_words::{Later, handed_on};
use jb_host::DryShell;
use jb_recipe::{Makeflags, environment};
use plain_text::Plain;
use std::alloc::AllocError;
use std::io::{self, Write};

/// The status of a line that a signal ended, or that couldn't be started.
pub const NONE: u32 = 256;

/// How such lines are run.
#[derive(Drop)]
pub struct AlwaysLines<'a> {
    host: HostRuntime,
    /// The shell that runs them; empty where the makefile names none.
    shell: &'a [u8],
    /// Their environment, beside dmk's own.
    env: &'a [Variable],
    settings: LineSettings,
}

/// What the options say of such lines.
#[derive(Clone, Copy)]
pub struct LineSettings {
    /// The statuses of all lines are ignored, as those of makes below that answer a question.
    ignores_statuses: bool,
    /// A line that fails ends nothing.
    goes_on: bool,
}

impl LineSettings {
    pub fn of(options: &Options) -> LineSettings {
        LineSettings {
            ignores_statuses: options.ignores_statuses || options.asks,
            goes_on: options.goes_on,
        }
    }
}

/// What is run beside recipes has this in its environment, beside dmk's own: what recipes have where no job slots are served.
pub fn beside_recipes(
    host: HostRuntime,
    options: &Options,
    later: Later,
    given: &[Variable],
) -> Result<Vec<Variable>, AllocError> {
    let alloc = host.alloc();
    let before = later.definitions_before(options.profile, given);
    let flags = value_of(given, b"MAKEFLAGS");
    let definitions = options.definitions.as_slice();
    let env = environment(alloc, definitions, &Makeflags::Removed, None, b"")?;
    match handed_on(alloc, options, later, before, flags)? {
        Some(handed) => handed.beside(alloc, &env),
        None => Ok(env),
    }
}

impl<'a> AlwaysLines<'a> {
    /// As these settings have it, by this shell and in this environment.
    pub fn new(
        host: HostRuntime,
        settings: LineSettings,
        shell: &'a [u8],
        env: &'a [Variable],
    ) -> AlwaysLines<'a> {
        AlwaysLines {
            host,
            shell,
            env,
            settings,
        }
    }

    /// Runs a line. Whether its status counts as a failure, which is told.
    fn fails(&self, line: &AlwaysRun) -> bool {
        let shell = DryShell::new(self.host, self.host.alloc(), self.env);
        let status = shell.run(self.shell, line.text.as_slice()).unwrap_or(NONE);
        if status == 0 || line.is_ignored || self.settings.ignores_statuses {
            return false;
        }
        self.tell_failed(line, status);
        true
    }

    // The target may be no text.
    fn tell_failed(&self, line: &AlwaysRun, status: u32) {
        let mut stream = with_patience(self.host, self.host.stderr());
        let mut err = Plain::over(&mut stream);
        let _ = err.write_all(b"dmk: target ");
        let _ = err.write_all(line.target.as_slice());
        let _ = if status < NONE {
            writeln!(err, " failed with status {status}")
        } else {
            writeln!(err, " was stopped or not started")
        };
    }

    /// Prints a listing, behind what stands before it, and runs each of these lines where it stands. Whether none failed: where one
    /// does, the listing ends there, or, where a run goes on, no further line of its recipe is run.
    pub fn print(&self, text: &[u8], before: usize, lines: &[AlwaysRun]) -> io::Result<bool> {
        let mut out = with_patience(self.host, self.host.stdout());
        let mut failed = None;
        let mut printed = 0;
        for line in lines {
            let target = line.target.as_slice();
            if failed == Some(target) {
                continue;
            }
            let place = before.saturating_add(line.place);
            out.write_all(text.get(printed..place).unwrap_or(&[]))?;
            out.flush()?;
            printed = place;
            if self.fails(line) {
                if !self.settings.goes_on {
                    return Ok(false);
                }
                failed = Some(target);
            }
        }
        out.write_all(text.get(printed..).unwrap_or(&[]))?;
        out.flush()?;
        Ok(failed.is_none())
    }
}
