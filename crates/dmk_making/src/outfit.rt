//! What a run has of this machine, found before a makefile is made of anything.

use crate::logging::{HostLog, is_on_output};
use crate::state_lock::LockPlace;
use bd_lists::Variable;
use dmk_asking::HostLevels;
use dmk_files::FileTexts;
use dmk_host::{
    HostFiles, HostTrees, IncludeFolders, Patient, PoolPath, base_asked, beside_recipes, buffered,
    draws_status, locks_above, prints_to_log, reports_path, streams_are_one, tell_definitions,
    with_patience,
};
use dmk_locks::wait_for_janitors;
use dmk_printing::{Front, Printer};
use dmk_reading::{Options, value_of};
use dmk_status::{Shown, Terminal};
use dmk_words::{Later, handed_on};
use jb_flags::Handed;
use jb_host::Writes;
use jb_turns::Turns;
use st_disk::SystemFolder;
use std::alloc::AllocError;
use std::io::{BufWriter, Stderr, Stdout};
use std::sync::Wait;

pub(crate) type HostPrinter<'a, R> = Printer<
    'a,
    R,
    BufWriter<Patient<Stdout>>,
    BufWriter<Patient<Stderr>>,
>;

/// What makefiles are read with, and the log of the run.
#[derive(Drop)]
pub(crate) struct Lent<'a> {
    /// What commands of definitions have in their environment.
    pub(crate) env: Vec<Variable>,
    pub(crate) folders: IncludeFolders,
    pub(crate) trees: HostTrees,
    pub(crate) log: Option<&'a HostLog>,
}

/// What a run has of this machine, found before a makefile is made of anything.
#[derive(Drop)]
pub(crate) struct Outfit<'a, R: Wait> {
    pub(crate) folder: SystemFolder,
    pub(crate) reports: String,
    pub(crate) pool: PoolPath,
    pub(crate) handed: Option<Handed>,
    pub(crate) lock: LockPlace,
    pub(crate) printer: HostPrinter<'a, R>,
    pub(crate) writes: Writes,
    /// Targets are taken as they are before the run, where nothing is recorded of any.
    pub(crate) trusts_files: bool,
    /// The states whose targets are taken over before the run.
    pub(crate) levels: HostLevels,
}

/// Where the state lies, and what stands beside it.
#[derive(Drop)]
struct Places {
    lock: LockPlace,
    folder: SystemFolder,
    reports: String,
    pool: PoolPath,
    levels: HostLevels,
}

impl<'a> Lent<'a> {
    /// A run in the wide profile waits first for who cleans up behind a stopped one.
    pub(crate) fn of(
        host: HostRuntime,
        options: &Options,
        later: Later,
        log: Option<&'a HostLog>,
        environment: &[Variable],
    ) -> Result<Lent<'a>, AllocError> {
        if options.profile.is_wide() {
            wait_for_janitors(host, options.state.as_str())?;
        }
        let env = beside_recipes(host, options, later, environment)?;
        let folders = IncludeFolders::of(host.alloc(), &options.makefiles)?;
        let trees = HostTrees::of(host, options)?;
        Ok(Lent {
            env,
            folders,
            trees,
            log,
        })
    }
}

impl Places {
    fn of(
        host: HostRuntime,
        options: &Options,
        environment: &[Variable],
        flags: &[u8],
    ) -> Result<Places, AllocError> {
        let state = options.state.as_str();
        let lock = LockPlace::of(host, state, locks_above(environment))?;
        let folder = SystemFolder::new(host, host.alloc(), state)?;
        let reports = reports_path(host, options.profile, state)?;
        let pool = PoolPath::new(host, state, flags, usize::from(options.workers))?;
        let levels = HostLevels::of(host, options, environment)?;
        Ok(Places {
            lock,
            folder,
            reports,
            pool,
            levels,
        })
    }
}

/// Tells the makefiles what is defined, and answers what -p prints.
pub(crate) fn base_told(
    host: HostRuntime,
    options: &Options,
    later: Later,
    environment: &[Variable],
    makefiles: &mut FileTexts<HostFiles<'_>>,
) -> Result<Vec<u8>, AllocError> {
    tell_definitions(host, options, later, environment, makefiles)?;
    base_asked(host, options, environment, makefiles)
}

/// Where what recipes write goes.
fn writes_of(options: &Options, later: Later) -> Writes {
    if later.writes_through(options) {
        Writes::Through
    } else if later.writes_at_front(options) {
        Writes::Heard
    } else {
        Writes::Apart
    }
}

/// Where a run shows how far it is: in a status line, unless recipes or the log write on the standard streams too, and in lines between what
/// else is printed, where these were asked for.
fn shown_of(
    host: HostRuntime,
    environment: &[Variable],
    is_silent: bool,
    writes: Writes,
    prints_ends: bool,
) -> Shown {
    let draws = !is_silent && writes != Writes::Through && draws_status(host, environment);
    Shown {
        terminal: draws.then_some(Terminal { host }),
        prints_ends: prints_ends && prints_to_log(host),
    }
}

fn front_of(host: HostRuntime, writes: Writes) -> Option<Front> {
    match writes {
        Writes::Heard => Some(Front::new(host, host.alloc(), streams_are_one(host))),
        _ => None,
    }
}

/// A printer on the standard streams.
fn host_printer<'a, R: Wait>(
    rt: &'a R,
    host: HostRuntime,
    turns: &'a Turns,
    writes: Writes,
    shown: Shown,
    log: Option<&'a HostLog>,
) -> Result<HostPrinter<'a, R>, AllocError> {
    let alloc = host.alloc();
    let out = buffered(alloc, with_patience(host, host.stdout()))?;
    let err = buffered(alloc, with_patience(host, host.stderr()))?;
    let front = front_of(host, writes);
    let mut printer = Printer::new(rt, alloc, turns, out, err, shown, front);
    printer.log_to(log);
    Ok(printer)
}

/// The printer of a run that these words ask for.
fn printer_of<'a, R: Wait>(
    rt: &'a R,
    host: HostRuntime,
    turns: &'a Turns,
    options: &Options,
    later: Later,
    log: Option<&'a HostLog>,
    environment: &[Variable],
) -> Result<HostPrinter<'a, R>, AllocError> {
    let writes = writes_of(options, later);
    let shown = shown_of(
        host,
        environment,
        options.is_silent || is_on_output(log),
        writes,
        later.prints_ends,
    );
    host_printer(rt, host, turns, writes, shown, log)
}

/// What a run has of this machine beside its printer.
fn places_and_handed(
    host: HostRuntime,
    options: &Options,
    later: Later,
    environment: &[Variable],
) -> Result<(Places, Option<Handed>), AllocError> {
    let flags = value_of(environment, b"MAKEFLAGS");
    let before = later.definitions_before(options.profile, environment);
    let handed = handed_on(host.alloc(), options, later, before, flags)?;
    match Places::of(host, options, environment, flags) {
        Ok(places) => Ok((places, handed)),
        Err(error) => {
            drop(handed);
            Err(error)
        }
    }
}

pub(crate) fn outfit_of<'a, R: Wait>(
    rt: &'a R,
    host: HostRuntime,
    turns: &'a Turns,
    options: &Options,
    later: Later,
    log: Option<&'a HostLog>,
    environment: &[Variable],
) -> Result<Outfit<'a, R>, AllocError> {
    let (places, handed) = places_and_handed(host, options, later, environment)?;
    let printer = match printer_of(rt, host, turns, options, later, log, environment) {
        Ok(printer) => printer,
        Err(error) => {
            drop(handed);
            drop(places);
            return Err(error);
        }
    };
    let Places {
        lock,
        folder,
        reports,
        pool,
        levels,
    } = places;
    Ok(Outfit {
        folder,
        reports,
        pool,
        handed,
        lock,
        printer,
        writes: writes_of(options, later),
        trusts_files: later.trusts_files,
        levels,
    })
}
