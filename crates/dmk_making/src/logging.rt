//! The log of a run, if the words ask for one.

use dmk_host::{Patient, buffered, with_patience};
use dmk_log::{Head, Log, LogFault};
use dmk_reading::Options;
use mk_plan::Telling;
use std::alloc::AllocError;
use std::env;
use std::io::{BufWriter, Stdout};

pub(crate) type HostLog = Log<BufWriter<Patient<Stdout>>>;

/// The words of the command line; none where one is no text.
fn words_of(host: HostRuntime) -> Result<Vec<String>, AllocError> {
    match env::args(&host) {
        Ok(words) => Ok(words.collect::<Vec<String>>(host.alloc())?),
        Err(_) => Ok(Vec::new(host.alloc())),
    }
}

fn head_of(host: HostRuntime, options: &Options) -> Result<Head, AllocError> {
    Ok(Head {
        words: words_of(host)?,
        is_wide: options.profile.is_wide(),
        workers: u64::from(options.workers),
        state: None,
        began: 0,
    })
}

/// What a log begins with, and standard output.
fn parts_of(
    host: HostRuntime,
    options: &Options,
) -> Result<(Head, BufWriter<Patient<Stdout>>), AllocError> {
    let head = head_of(host, options)?;
    match buffered(host.alloc(), with_patience(host, host.stdout())) {
        Ok(output) => Ok((head, output)),
        Err(error) => {
            drop(head);
            Err(error)
        }
    }
}

/// Opens the log of a run by these options. Where they don't ask for reasons, these are told to it alone.
pub(crate) fn open_log(
    host: HostRuntime,
    path: String,
    options: &Options,
) -> Result<HostLog, LogFault> {
    let hides = matches!(options.telling, Telling::Nothing);
    match parts_of(host, options) {
        Ok((head, output)) => Log::open(host, path, head, hides, output),
        Err(_) => {
            drop(path);
            Err(LogFault::OutOfMemory)
        }
    }
}

/// Whether it goes to standard output.
pub(crate) fn is_on_output(log: Option<&HostLog>) -> bool {
    match log {
        Some(log) => log.is_output(),
        None => false,
    }
}
