//! The words of the command line.

ghost use Rattle.std.specs.Prelude.{◌≡◌};

use clap::error::ErrorKind;
use clap::{Arg, ArgAction, Command};
use std::alloc::{AllocError, Global};
use std::{env, io};
use thiserror::Error;

const DEFAULT_FILE: &str = ".make.state";

/// What the words ask for.
#[derive(Drop)]
pub enum Request {
    /// To list this state file.
    List(String),
    /// Nothing more: what there was to say was said. The program ends with this status.
    Leave(u8),
}

/// Why the words aren't followed, where nothing was said of it yet.
#[derive(Clone, Copy, Debug, PartialEq, Eq, Error)]
pub enum WordsFault {
    #[error("out of memory")]
    OutOfMemory,
    #[error("a word of the command line isn't UTF-8")]
    NotText,
    /// The help or the version was asked for and couldn't be printed.
    #[error("cannot write")]
    Write,
}

impl From<io::Error> for WordsFault {
    fn from(fault: io::Error) -> WordsFault {
        match fault.kind() {
            io::ErrorKind::OutOfMemory => WordsFault::OutOfMemory,
            _ => WordsFault::NotText,
        }
    }
}

impl From<AllocError> for WordsFault {
    fn from(_fault: AllocError) -> WordsFault {
        WordsFault::OutOfMemory
    }
}

/// Reads the words, and prints the help, the version or what is wrong with them.
pub fn read_words(rt: HostRuntime) -> Result<Request, WordsFault> {
    let words = env::args(&rt)?.collect::<Vec<String>>(rt.alloc())?;
    match file_named(rt.alloc(), words.as_slice()) {
        Ok(file) => Ok(Request::List(file)),
        Err(answer) => say(rt, answer),
    }
}

// Prints what clap answers in place of matches. That a mistake can't be printed changes nothing.
fn say(rt: HostRuntime, answer: clap::Error) -> Result<Request, WordsFault> {
    if answer.kind() == ErrorKind::OutOfMemory {
        return Err(WordsFault::OutOfMemory);
    }
    let printed = answer.print(&rt);
    if answer.use_stderr() {
        return Ok(Request::Leave(2));
    }
    match printed {
        Ok(()) => Ok(Request::Leave(0)),
        Err(_) => Err(WordsFault::Write),
    }
}

fn file_named(alloc: Global, words: &[String]) -> Result<String, clap::Error> {
    let file = Arg::new(alloc, "FILE")
        .help("The state file; its other side is FILE.2. A file that isn't there is an empty side")
        .action(ArgAction::Set)
        .default_value(DEFAULT_FILE);
    let command = Command::new(alloc, "dmk_state")
        .bin_name("dmk_state")?
        .version("0.2.0")
        .about("Lists what a state file of dmk remembers of its targets")
        .arg(file)?;
    let found = command.try_get_matches_from(words)?;
    let name = found.get_str("FILE").unwrap_or(DEFAULT_FILE);
    Ok(String::from_str(alloc, name)?)
}
