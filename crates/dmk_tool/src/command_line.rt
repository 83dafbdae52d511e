//! The words, as clap reads them.

use crate::log_words::{log_asked, stats, timeline};
use crate::request::{Asked, Cleaning, Question, Request, Topic, WordsFault};
use crate::words::{Words, is_text};
use clap::error::ErrorKind;
use clap::{Arg, ArgAction, ArgMatches, Command};
use st_answers::Extent;
use std::alloc::{AllocError, Global};

const DEFAULT_FILE: &str = ".make.state";

const AFTER: &str = "\
Status: 0 it is answered; 1 a name isn't in the state; 2 a fault, told on
standard error.";

/// Reads the words, and prints the help, the version or what is wrong with them.
pub fn read_request(rt: HostRuntime) -> Result<Request, WordsFault> {
    let words = Words::read(rt)?;
    match matches_of(rt.alloc(), words.texts.as_slice()) {
        Ok(found) => asked(rt.alloc(), &words, &found),
        Err(answer) => say(rt, &words, answer),
    }
}

// Prints what clap answers in place of matches. That a mistake can't be printed changes nothing.
fn say(rt: HostRuntime, words: &Words, answer: clap::Error) -> Result<Request, WordsFault> {
    if answer.kind() == ErrorKind::OutOfMemory {
        return Err(WordsFault::OutOfMemory);
    }
    if !words.texts.iter().all(|word| is_text(word.as_str())) {
        return Err(WordsFault::NotText);
    }
    let is_printed = answer.print(&rt).is_ok();
    let is_mistake = answer.use_stderr();
    drop(answer);
    if is_mistake {
        return Ok(Request::Leave(2));
    }
    if !is_printed {
        return Err(WordsFault::Write);
    }
    Ok(Request::Leave(0))
}

fn matches_of<'a>(alloc: Global, words: &'a [String]) -> Result<ArgMatches<'a>, clap::Error> {
    program(alloc)?.try_get_matches_from(words)
}

// The command goes from call to call, so that where one fails nothing is left to be let go.
fn program<'a>(alloc: Global) -> Result<Command<'a>, AllocError> {
    let command = Command::new(alloc, "dmk_tool").bin_name("dmk_tool")?;
    let command = command
        .version("0.2.0")
        .about(
            "Answers questions to the state that dmk keeps of its targets and to its build logs, and removes the targets' files",
        )
        .after_help(AFTER)
        .subcommand_required(true)
        .arg(state(alloc))?;
    let command = with(command, targets(alloc))?;
    let command = of_targets(alloc, command)?;
    let command = with(command, compdb(alloc))?;
    let command = with(command, list(alloc))?;
    let command = with(command, graph(alloc))?;
    let command = with(command, clean(alloc))?;
    let command = with(command, stats(alloc))?;
    with(command, timeline(alloc))
}

// The questions of names.
fn of_targets<'a>(alloc: Global, command: Command<'a>) -> Result<Command<'a>, AllocError> {
    let command = with(
        command,
        of_names(alloc, "commands", "Prints the recorded commands of targets"),
    )?;
    let command = with(
        command,
        of_names(
            alloc,
            "hidden",
            "Prints what commands read beside what the makefile names",
        ),
    )?;
    let command = with(
        command,
        of_names(
            alloc,
            "query",
            "Prints what names were made of, and what was made of them",
        ),
    )?;
    with(
        command,
        of_names(
            alloc,
            "why",
            "Prints why targets aren't as they were made, down to the first causes",
        ),
    )
}

// The command with this one of its own, if there was memory for it.
fn with<'a>(
    command: Command<'a>,
    known: Result<Command<'a>, AllocError>,
) -> Result<Command<'a>, AllocError> {
    match known {
        Ok(known) => command.subcommand(known),
        Err(fault) => {
            drop(command);
            Err(fault)
        }
    }
}

fn state<'a>(alloc: Global) -> Arg<'a> {
    Arg::new(alloc, "state")
        .long("state")
        .value_name("FILE")
        .help("The state file; its other side is FILE.2. A file that isn't there is an empty side")
        .action(ArgAction::Set)
        .global(true)
        .default_value(DEFAULT_FILE)
}

fn targets<'a>(alloc: Global) -> Result<Command<'a>, AllocError> {
    let stale = Arg::new(alloc, "stale")
        .long("stale")
        .help(
            "Those alone that aren't done, or whose file is gone or another one, and what is wrong",
        )
        .action(ArgAction::SetTrue);
    Command::new(alloc, "targets")
        .about("Prints the names of the targets, and whether each is done")
        .arg(stale)
}

fn list<'a>(alloc: Global) -> Result<Command<'a>, AllocError> {
    let json = Arg::new(alloc, "json")
        .long("json")
        .help("As JSON, an object a line for each target")
        .action(ArgAction::SetTrue);
    Command::new(alloc, "list")
        .about("Prints all that is recorded, as dmk_state lists it")
        .arg(json)
}

fn compdb<'a>(alloc: Global) -> Result<Command<'a>, AllocError> {
    let all = Arg::new(alloc, "all")
        .long("all")
        .help("Commands that name no source too")
        .action(ArgAction::SetTrue);
    Command::new(alloc, "compdb")
        .about("Prints compile_commands.json: the commands that name a source")
        .arg(all)
}

fn graph<'a>(alloc: Global) -> Result<Command<'a>, AllocError> {
    let command = Command::new(alloc, "graph").about(
        "Prints what targets, or all, were made of as a graph in the language of Graphviz' dot",
    );
    let command = command.arg(depth(alloc))?;
    let command = command.arg(counts_hidden(alloc))?;
    let names = Arg::new(alloc, "TARGET")
        .num_args(0..)
        .action(ArgAction::Append);
    command.arg(names)
}

fn depth<'a>(alloc: Global) -> Arg<'a> {
    Arg::new(alloc, "depth")
        .long("depth")
        .value_name("N")
        .help("Names that are no more than N edges away alone")
        .value_parser(clap::value_parser!(u32))
        .action(ArgAction::Set)
}

fn counts_hidden<'a>(alloc: Global) -> Arg<'a> {
    Arg::new(alloc, "hidden")
        .long("hidden")
        .help("Hidden prerequisites too, with dashed edges")
        .action(ArgAction::SetTrue)
}

fn clean<'a>(alloc: Global) -> Result<Command<'a>, AllocError> {
    let command = Command::new(alloc, "clean")
        .about("Removes the files of targets that are as they were made")
        .arg(
            Arg::new(alloc, "dry-run")
                .short('n')
                .long("dry-run")
                .help("Removes nothing, and tells what would be removed")
                .action(ArgAction::SetTrue),
        )?;
    let command = command.arg(
        Arg::new(alloc, "outside")
            .long("outside")
            .help("Files outside the tree below the working folder too")
            .action(ArgAction::SetTrue),
    )?;
    command.arg(
        Arg::new(alloc, "TARGET")
            .long("targets")
            .value_name("TARGET")
            .help("Those of these targets alone")
            .num_args(1..)
            .action(ArgAction::Append),
    )
}

fn of_names<'a>(alloc: Global, name: &'a str, about: &'a str) -> Result<Command<'a>, AllocError> {
    let names = Arg::new(alloc, "TARGET")
        .required(true)
        .num_args(1..)
        .action(ArgAction::Append);
    Command::new(alloc, name).about(about).arg(names)
}

fn asked(alloc: Global, words: &Words, found: &ArgMatches<'_>) -> Result<Request, WordsFault> {
    let Some((name, found)) = found.subcommand() else {
        return Ok(Request::Leave(2));
    };
    if name == "stats" || name == "timeline" {
        return log_asked(alloc, name, found);
    }
    let file = found.get_str("state").unwrap_or(DEFAULT_FILE);
    if !is_text(file) {
        return Err(WordsFault::NotText);
    }
    let file = String::from_str(alloc, file)?;
    let question = question_of(alloc, words, name, found)?;
    Ok(Request::Ask(Asked { file, question }))
}

fn question_of(
    alloc: Global,
    words: &Words,
    name: &str,
    found: &ArgMatches<'_>,
) -> Result<Question, WordsFault> {
    let topic = match name {
        "targets" => {
            return Ok(Question::Targets {
                stale: found.get_flag("stale"),
            });
        }
        "list" => {
            return Ok(Question::List {
                json: found.get_flag("json"),
            });
        }
        "commands" => Topic::Commands,
        "hidden" => Topic::Hidden,
        "query" => Topic::Everything,
        "why" => return Ok(Question::Why(names_in(alloc, words, found)?)),
        "graph" => {
            let extent = extent_of(found);
            return Ok(Question::Graph(names_in(alloc, words, found)?, extent));
        }
        "clean" => return Ok(Question::Clean(cleaning_of(alloc, words, found)?)),
        _ => {
            return Ok(Question::Database {
                all: found.get_flag("all"),
            });
        }
    };
    Ok(Question::Names(topic, names_in(alloc, words, found)?))
}

fn cleaning_of(
    alloc: Global,
    words: &Words,
    found: &ArgMatches<'_>,
) -> Result<Cleaning, AllocError> {
    let names = if found.contains_id("TARGET") {
        Some(names_in(alloc, words, found)?)
    } else {
        None
    };
    Ok(Cleaning {
        names,
        dry_run: found.get_flag("dry-run"),
        outside: found.get_flag("outside"),
    })
}

fn extent_of(found: &ArgMatches<'_>) -> Extent {
    let depth = match found.get_str("depth") {
        Some(depth) => depth.parse::<usize>().ok(),
        None => None,
    };
    Extent {
        depth,
        hidden: found.get_flag("hidden"),
        source: false,
    }
}

fn names_in(
    alloc: Global,
    words: &Words,
    found: &ArgMatches<'_>,
) -> Result<Vec<Vec<u8>>, AllocError> {
    let mut names = Vec::new(alloc);
    if let Some(texts) = found.get_strs("TARGET") {
        for text in texts {
            names.push(Vec::from_slice(alloc, words.named(*text))?)?;
        }
    }
    Ok(names)
}
