//! The words of the questions to a build log.

use crate::request::{LogAsked, LogForm, Request, WordsFault};
use crate::words::is_text;
use clap::{Arg, ArgAction, ArgMatches, Command};
use std::alloc::{AllocError, Global};

pub fn stats<'a>(alloc: Global) -> Result<Command<'a>, AllocError> {
    let command = Command::new(alloc, "stats").about(
        "Prints what a run made and what it waited for, by a log that dmk --log wrote",
    );
    let command = command.arg(run(alloc))?;
    command.arg(log(alloc))
}

pub fn timeline<'a>(alloc: Global) -> Result<Command<'a>, AllocError> {
    let command = Command::new(alloc, "timeline").about(
        "Draws the recipes of a run as a page of HTML, by a log that dmk --log wrote",
    );
    let command = command.arg(
        Arg::new(alloc, "output")
            .short('o')
            .long("output")
            .value_name("FILE")
            .help("The page's file, in place of standard output")
            .action(ArgAction::Set),
    )?;
    let command = command.arg(
        Arg::new(alloc, "chrome")
            .long("chrome")
            .value_name("FILE")
            .help("Writes a trace for Perfetto; the page too where -o is given")
            .action(ArgAction::Set),
    )?;
    let command = command.arg(run(alloc))?;
    command.arg(log(alloc))
}

fn run<'a>(alloc: Global) -> Arg<'a> {
    Arg::new(alloc, "run")
        .long("run")
        .value_name("N")
        .help("The Nth run of the log, in place of the last one")
        .value_parser(clap::value_parser!(u32))
        .action(ArgAction::Set)
}

fn log<'a>(alloc: Global) -> Arg<'a> {
    Arg::new(alloc, "LOG")
        .help("The log; - for standard input")
        .required(true)
        .action(ArgAction::Set)
}

/// What is asked by the words of one of these.
pub fn log_asked(alloc: Global, name: &str, found: &ArgMatches<'_>) -> Result<Request, WordsFault> {
    let form = if name == "stats" {
        LogForm::Stats
    } else {
        LogForm::Timeline {
            page: file_in(alloc, found, "output")?,
            trace: file_in(alloc, found, "chrome")?,
        }
    };
    let run = match found.get_str("run") {
        Some(run) => run.parse::<usize>().ok(),
        None => None,
    };
    let Some(log) = file_in(alloc, found, "LOG")? else {
        return Ok(Request::Leave(2));
    };
    Ok(Request::Read(LogAsked { log, run, form }))
}

fn file_in(
    alloc: Global,
    found: &ArgMatches<'_>,
    word: &str,
) -> Result<Option<String>, WordsFault> {
    let Some(file) = found.get_str(word) else {
        return Ok(None);
    };
    if !is_text(file) {
        return Err(WordsFault::NotText);
    }
    Ok(Some(String::from_str(alloc, file)?))
}
