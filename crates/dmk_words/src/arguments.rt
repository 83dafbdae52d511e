//! The words of the command line, as `clap` reads them by the options that there are.
use crate::loads::is_load;
use crate::option_table::{LOAD, Role, Row, Takes, options};
use crate::output::Output;
use crate::request::WordsFault;
use clap::{Arg, ArgAction, ArgMatches, Command};
use dmk_reading::MAX_WORKERS;
use std::alloc::{AllocError, Global};

const ABOUT: &str = "\
Makes targets by the rules of a makefile, and remembers in a state file what
each recipe was";

const USAGE: &str = "dmk [OPTIONS] [NAME=VALUE | TARGET]..";

const AFTER: &str = "\
NAME=VALUE defines a macro; any other word is a target to be made, without one
the first target of the makefile is. A long option may be cut short.

Files: the makefile is each FILE of -f, else makefile, else Makefile. Where it
has .KEEP_STATE:, or the environment the variable KEEP_STATE, state is kept in
.make.state and .make.state.2 (-K names others), and under --posix with -f FILE
in FILE.make.state and FILE.make.state.2; dmk_state lists them.

Status: 0 all is well; 1 a target failed, or -q found one out of date; 2 a
fault, told on standard error.";

/// How an option is written.
fn named<'a>(alloc: Global, row: &Row) -> Result<Arg<'a>, AllocError> {
    let arg = match row.letter {
        Some(letter) => Arg::new(alloc, row.id).short(letter),
        None => Arg::new(alloc, row.id),
    };
    match row.words.split_first() {
        Some((word, others)) => arg.long(*word).visible_aliases(others),
        None => Ok(arg),
    }
}

/// Where the help tells it, if it does.
fn told<'a>(arg: Arg<'a>, role: Role) -> Arg<'a> {
    match role {
        Role::Told(group, help) => arg.help_heading(group).help(help),
        Role::Wide(group, help, _) => arg.help_heading(group).help(help),
        Role::Taken | Role::Refused(_) => arg.hide(true),
    }
}

/// With nothing behind it, so that it is there as often as it is used.
fn flag<'a>(arg: Arg<'a>) -> Arg<'a> {
    arg.num_args(0)
        .default_missing_value("")
        .action(ArgAction::Append)
}

/// With how many recipes may run at once behind it, and what a further one does.
fn with_workers<'a>(arg: Arg<'a>, processors: &'a str, jobs: ArgAction) -> Arg<'a> {
    arg.value_name("N")
        .action(jobs)
        .value_parser(clap::value_parser!(u16).range(1..=i64::from(MAX_WORKERS)))
        .num_args(0..=1)
        .default_missing_value(processors)
}

fn argument<'a>(
    alloc: Global,
    row: &Row,
    processors: &'a str,
    jobs: ArgAction,
) -> Result<Arg<'a>, AllocError> {
    let arg = told(named(alloc, row)?, row.role);
    match row.takes {
        Takes::Nothing => Ok(flag(arg)),
        Takes::NothingAfter(other) => flag(arg).overrides_with(other),
        Takes::Value(name) => Ok(arg.value_name(name).action(ArgAction::Set)),
        Takes::Values(name) => Ok(arg.value_name(name).action(ArgAction::Append)),
        Takes::Perhaps(name, value) => Ok(
            arg.value_name(name)
                .num_args(0..=1)
                .default_missing_value(value)
                .action(ArgAction::Append),
        ),
        Takes::Workers => Ok(with_workers(arg, processors, jobs)),
    }
}

/// What stands beside options.
fn operands<'a>(alloc: Global) -> Arg<'a> {
    Arg::new(alloc, "words")
        .action(ArgAction::Append)
        .num_args(0..)
        .hide(true)
}

/// Adds one. Over any type: one that finds no memory is let go by one call.
pub(crate) fn add<T: Drop>(list: &mut Vec<T>, item: T) -> Result<(), AllocError> {
    match list.push(item) {
        Ok(()) => Ok(()),
        Err(_) => Err(AllocError),
    }
}

/// Those of these rows, and what stands beside options.
fn arguments<'a>(
    alloc: Global,
    rows: &[Row],
    processors: &'a str,
    jobs: ArgAction,
) -> Result<Vec<Arg<'a>>, AllocError> {
    let mut arguments = Vec::new(alloc);
    for row in rows {
        add(&mut arguments, argument(alloc, row, processors, jobs)?)?;
    }
    add(&mut arguments, operands(alloc))?;
    Ok(arguments)
}

fn command<'a>(alloc: Global, arguments: Vec<Arg<'a>>) -> Result<Command<'a>, AllocError> {
    Command::new(alloc, "dmk")
        .version("0.2.0")
        .about(ABOUT)
        .override_usage(USAGE)
        .after_help(AFTER)
        .infer_long_args(true)
        .bin_name("dmk")?
        .args(arguments)
}

/// The words by what they are, or clap's answer where there is help, the version or a mistake to be told of. A -j without a number has
/// that of the processors, and `jobs` is what a further one does.
pub fn find<'w>(
    alloc: Global,
    processors: &'w str,
    jobs: ArgAction,
    words: &'w [String],
) -> Result<ArgMatches<'w>, clap::Error> {
    let arguments = arguments(alloc, options(), processors, jobs)?;
    command(alloc, arguments)?.try_get_matches_from(words)
}

/// Why options that were found aren't followed: the first one of them.
pub fn refusal(found: &ArgMatches<'_>) -> Option<WordsFault> {
    let modes = found.get_strs("output").unwrap_or(&[]);
    if modes.iter().any(|mode| Output::of(*mode).is_none()) {
        return Some(WordsFault::OtherOutput);
    }
    let is_wide = found.contains_id("posix");
    let loads = found.get_strs(LOAD).unwrap_or(&[]);
    if is_wide && loads.iter().any(|load| !is_load(*load)) {
        return Some(WordsFault::OtherLoad);
    }
    for row in options() {
        match row.role {
            Role::Wide(_, _, reason) if !is_wide && found.contains_id(row.id) => {
                return Some(WordsFault::Unsupported(row.id, reason));
            }
            Role::Refused(reason) if found.contains_id(row.id) => {
                return Some(WordsFault::Unsupported(row.id, reason));
            }
            _ => {}
        }
    }
    None
}

/// How what recipes write is held together by the words: the last one counts.
pub fn output_of(found: &ArgMatches<'_>) -> Option<Output> {
    Output::of(*found.get_strs("output")?.last()?)
}
