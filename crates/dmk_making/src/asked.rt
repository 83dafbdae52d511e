//! What the words of the command line ask for, done in its folder.

use crate::logging::{HostLog, open_log};
use crate::making::make;
use bd_lists::Variable;
use dmk_asking::ask;
use dmk_host::{
    FolderFault, SignFault, enter, held_streams, keep_blocks, needs_usual_makefile,
    print_other_makefile, print_word_notes, read_input, run_anew, tell, tell_fault, with_signs,
    with_state_below,
};
use dmk_messages::{Fault, Message};
use dmk_reading::{Mode, Options, value_of};
use dmk_words::{
    Asked, Later, Request, macro_variables, processors, read_words, with_environment,
    with_flags_seen,
};
use std::alloc::AllocError;
use std::sync::Wait;
use std::thread::Threads;

/// Does what the words of the command line ask for, and answers the status.
pub fn run_words<R: Threads + Wait + Sync>(rt: &R, host: HostRuntime) -> u8 {
    keep_blocks(host.alloc());
    match read_words(host, processors(rt)) {
        Ok(Request::Make(asked)) => match run_anew(host, asked.reads_input()) {
            Some(status) => {
                drop(asked);
                status
            }
            None => run_asked(rt, host, asked),
        },
        Ok(Request::Leave(status)) => status,
        Err(fault) => {
            tell_fault(host, &fault);
            2
        }
    }
}

/// Runs what the words ask for, with what standard input holds where a makefile is read from it, and answers the status.
fn run_asked<R: Threads + Wait + Sync>(rt: &R, host: HostRuntime, asked: Asked) -> u8 {
    if !asked.reads_input() {
        return run_there(rt, host, asked, None);
    }
    match read_input(host) {
        Ok(input) => run_there(rt, host, asked, Some(&input)),
        Err(error) => {
            drop(asked);
            let _ = eprintln!(host; "dmk: cannot read standard input: {error}");
            2
        }
    }
}

/// Runs in its folder what the words ask for, and answers the status.
fn run_there<R: Threads + Wait + Sync>(
    rt: &R,
    host: HostRuntime,
    asked: Asked,
    input: Option<&[u8]>,
) -> u8 {
    let Asked {
        folders,
        tells_folder,
        program,
        later,
        log,
        options,
    } = asked;
    let begun = begin(host, &folders, tells_folder);
    drop(folders);
    if let Err(fault) = begun {
        drop(options);
        drop(log);
        drop(program);
        return refused(host, fault);
    }
    let status = run_logged(rt, host, options, later, log, program.as_deref(), input);
    drop(program);
    if tells_folder {
        return left(host, status);
    }
    status
}

fn begin(host: HostRuntime, folders: &[String], tells_folder: bool) -> Result<(), FolderFault> {
    enter(host, folders)?;
    if tells_folder {
        tell(host, "Entering")?;
    }
    Ok(())
}

/// Tells that the folder is left behind a run with this status.
fn left(host: HostRuntime, status: u8) -> u8 {
    match tell(host, "Leaving") {
        Ok(()) => status,
        Err(fault) => refused(host, fault),
    }
}

fn refused(host: HostRuntime, fault: FolderFault) -> u8 {
    tell_fault(host, &fault);
    2
}

/// Runs what the words ask for, with a log where they ask for one, and answers the status.
fn run_logged<R: Threads + Wait + Sync>(
    rt: &R,
    host: HostRuntime,
    options: Options,
    later: Later,
    log: Option<String>,
    program: Option<&[u8]>,
    input: Option<&[u8]>,
) -> u8 {
    let Some(path) = log else {
        return run(rt, host, options, later, None, program, input);
    };
    match open_log(host, path, &options) {
        Ok(log) => {
            let status = run(rt, host, options, later, Some(&log), program, input);
            log.end(rt, status);
            drop(log);
            status
        }
        Err(fault) => {
            drop(options);
            tell_fault(host, &fault);
            drop(fault);
            2
        }
    }
}

/// Runs what the words ask for, and answers the status.
fn run<R: Threads + Wait + Sync>(
    rt: &R,
    host: HostRuntime,
    options: Options,
    later: Later,
    log: Option<&HostLog>,
    program: Option<&[u8]>,
    input: Option<&[u8]>,
) -> u8 {
    let held = held_streams(host);
    let ran = run_in(rt, host, options, later, log, program, input);
    drop(held);
    match ran {
        Ok(status) => status,
        Err(_) => {
            tell_no_memory(host);
            2
        }
    }
}

fn tell_no_memory(host: HostRuntime) {
    let fault = Fault::OutOfMemory;
    let message = Message {
        state: "",
        fault: &fault,
    };
    let _ = eprintln!(host; "dmk: {message}");
}

fn run_in<R: Threads + Wait + Sync>(
    rt: &R,
    host: HostRuntime,
    options: Options,
    later: Later,
    log: Option<&HostLog>,
    program: Option<&[u8]>,
    input: Option<&[u8]>,
) -> Result<u8, AllocError> {
    let environment = match macro_variables(host, &options, program) {
        Ok(environment) => environment,
        Err(error) => {
            drop(options);
            return Err(error);
        }
    };
    match settled(host, options, later, &environment) {
        Ok(Some(options)) => run_settled(rt, host, options, later, log, environment, input),
        Ok(None) => {
            drop(environment);
            Ok(2)
        }
        Err(error) => {
            drop(environment);
            Err(error)
        }
    }
}

/// The options with what the environment adds to them, and the definitions by their signs; None where one was refused, which is told.
fn settled(
    host: HostRuntime,
    options: Options,
    later: Later,
    environment: &[Variable],
) -> Result<Option<Options>, AllocError> {
    let options = with_environment(host.alloc(), later, options, environment)?;
    let before = later.definitions_before(options.profile, environment);
    print_word_notes(host, &options, before);
    let is_usual = needs_usual_makefile(&options);
    print_other_makefile(host, &mut host.stderr(), is_usual);
    match with_signs(host, options, before, environment, true) {
        Ok(options) => Ok(Some(options)),
        Err(SignFault::OutOfMemory) => Err(AllocError),
        Err(fault) => {
            tell_fault(host, &fault);
            Ok(None)
        }
    }
}

/// Runs by options that are settled, with what is seen of MAKEFLAGS and of the runs above.
fn run_settled<R: Threads + Wait + Sync>(
    rt: &R,
    host: HostRuntime,
    options: Options,
    later: Later,
    log: Option<&HostLog>,
    environment: Vec<Variable>,
    input: Option<&[u8]>,
) -> Result<u8, AllocError> {
    let environment = match with_flags_seen(host.alloc(), &options, later, environment) {
        Ok(environment) => environment,
        Err(error) => {
            drop(options);
            return Err(error);
        }
    };
    let ran = match with_state_below(host, options, &environment) {
        Ok(options) => run_with(rt, host, options, later, log, &environment, input),
        Err(error) => Err(error),
    };
    drop(environment);
    ran
}

/// Makes or lists what the options ask for, or tells whether there is anything to make.
fn run_with<R: Threads + Wait + Sync>(
    rt: &R,
    host: HostRuntime,
    options: Options,
    later: Later,
    log: Option<&HostLog>,
    environment: &[Variable],
    input: Option<&[u8]>,
) -> Result<u8, AllocError> {
    match options.mode(value_of(environment, b"MAKEFLAGS")) {
        Mode::Run => make(rt, host, options, later, log, environment, input),
        Mode::DryRun | Mode::Question => ask(host, options, later, environment, input),
    }
}
