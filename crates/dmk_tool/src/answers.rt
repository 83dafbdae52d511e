//! The answer to a question: a text on standard output, and a status.

ghost use Rattle.std.specs.Prelude.{◌≡◌, ◌⊎◌};

use crate::causes::causes_of;
use crate::cleaning::{Cleaned, clean};
use crate::drawing::{MAX_NAMES, drawing_of};
use crate::json::database;
use crate::listing::listing_of;
use crate::looks::looks_at_targets;
use crate::request::{Asked, Cleaning, Question, Topic};
use crate::state_lock::{LockFault, lock_state};
use crate::streams::{tell, tell_of};
use st_answers::{commands, compilations, hidden, query, stale_targets, targets};
use st_disk::FailedCallMessage;
use st_file::OpenFault;
use st_listing::ListFault;
use st_programs::{Message, Refusal, read_state, standard_output};
use st_records::HashKey;
use st_state::State;
use std::alloc::AllocError;
use std::io::{self, Write};
use std::{env, fmt, fs};

/// Why there is no answer, or not a whole one.
#[derive(Clone, Copy)]
pub enum Fault {
    OutOfMemory,
    /// The working folder has no name, or one that isn't UTF-8.
    NoFolder,
    Write,
    /// So many names would be drawn, and nothing was given that makes them fewer.
    TooMany(usize),
    /// A file couldn't be removed, which was told.
    NotRemoved,
}

/// The refusal of a graph, as the user reads it.
#[derive(Clone, Copy)]
struct TooMany {
    names: usize,
}

impl fmt::Display for TooMany {
    fn fmt<W: fmt::Write>(&self, f: &mut fmt::Formatter<W>) -> fmt::Result {
        let names = self.names;
        write!(
            f,
            "{names} names are too many for one graph ({MAX_NAMES} at most): name targets, or give --depth N"
        )
    }
}

/// Why a state can't be locked, as the user reads it.
#[derive(Drop)]
struct NotLocked<'a> {
    file: &'a str,
    error: io::Error,
}

impl fmt::Display for NotLocked<'_> {
    fn fmt<W: fmt::Write>(&self, f: &mut fmt::Formatter<W>) -> fmt::Result {
        let file = self.file;
        let error = &self.error;
        write!(f, "{file}: cannot be locked: {error}")
    }
}

impl From<AllocError> for Fault {
    fn from(_fault: AllocError) -> Fault {
        Fault::OutOfMemory
    }
}

/// Answers a question: 0, 1 where the state has not all the names that were asked for, and 2 at a fault, which is told. Nothing is
/// written before the state's files are closed: where standard output is closed, the first file that is opened stands in its place.
pub fn answer(rt: HostRuntime, asked: &Asked) -> u8
    ensures status { (result ≡ 0) ⊎ ((result ≡ 1) ⊎ (result ≡ 2)) }
{
    if !removes(rt, asked) {
        return answer_of(rt, asked);
    }
    match lock_state(rt, asked.file.as_str()) {
        Ok(lock) => {
            let status = answer_of(rt, asked);
            drop(lock);
            status
        }
        Err(fault) => tell_no_lock(rt, asked.file.as_str(), fault),
    }
}

/// Whether files are to be removed, and there may be a state that knows of any: where there is none, no lock file is made.
fn removes(rt: HostRuntime, asked: &Asked) -> bool {
    match &asked.question {
        Question::Clean(cleaning) => !cleaning.dry_run && has_side(rt, asked.file.as_str()),
        _ => false,
    }
}

fn answer_of(rt: HostRuntime, asked: &Asked) -> u8
    ensures { (result ≡ 0) ⊎ ((result ≡ 1) ⊎ (result ≡ 2)) }
{
    let file = asked.file.as_str();
    let state = match read_state(rt, HashKey::from_system(&rt), file) {
        Ok(state) => state,
        Err(refusal) => return refuse(rt, file, refusal),
    };
    match write_answer(rt, file, &state, &asked.question) {
        Ok(true) => 0,
        Ok(false) => 1,
        Err(fault) => tell_fault(rt, file, fault),
    }
}

fn has_side(rt: HostRuntime, file: &str) -> bool {
    if fs::metadata(&rt, file).is_ok() {
        return true;
    }
    match format!(in rt.alloc(); "{file}.2") {
        Ok(other) => fs::metadata(&rt, other.as_str()).is_ok(),
        Err(_) => true,
    }
}

fn refuse(rt: HostRuntime, file: &str, refusal: Refusal) -> u8
    ensures { result ≡ 2 }
{
    let Refusal { fault, failed } = refusal;
    tell_list_fault(rt, file, ListFault::Open(fault));
    if let Some(failed) = failed {
        let message = FailedCallMessage {
            state: file,
            failed,
        };
        tell(rt, "note: ", &message);
    }
    2
}

fn tell_fault(rt: HostRuntime, file: &str, fault: Fault) -> u8
    ensures { result ≡ 2 }
{
    match fault {
        Fault::OutOfMemory => tell_list_fault(rt, file, ListFault::Open(OpenFault::OutOfMemory)),
        Fault::Write => tell_list_fault(rt, file, ListFault::Write),
        Fault::NoFolder => tell(rt, "", &"the working folder has no name that is UTF-8"),
        Fault::TooMany(names) => tell_too_many(rt, names),
        Fault::NotRemoved => {}
    }
    2
}

fn tell_no_lock(rt: HostRuntime, file: &str, fault: LockFault) -> u8
    ensures { result ≡ 2 }
{
    match fault {
        LockFault::OutOfMemory => {
            tell_list_fault(rt, file, ListFault::Open(OpenFault::OutOfMemory));
        }
        LockFault::Taken => tell_of(rt, "", file.as_bytes(), "a run over it goes on"),
        LockFault::NoLockFile => {
            tell_of(
                rt,
                "",
                file.as_bytes(),
                "cannot be locked: its lock file is no empty file",
            );
        }
        LockFault::System(error) => {
            let text = NotLocked { file, error };
            tell(rt, "", &text);
        }
    }
    2
}

fn tell_too_many(rt: HostRuntime, names: usize) {
    let text = TooMany { names };
    tell(rt, "", &text);
}

fn tell_list_fault(rt: HostRuntime, file: &str, fault: ListFault) {
    let message = Message { file, fault };
    tell(rt, "", &message);
}

/// Writes the answer, and tells whether the state has all the names.
fn write_answer(
    rt: HostRuntime,
    file: &str,
    state: &State,
    question: &Question,
) -> Result<bool, Fault> {
    let alloc = rt.alloc();
    let (text, found) = match question {
        Question::Targets { stale: false } => (targets(alloc, state)?, true),
        Question::Targets { stale: true } => (stale_among(rt, state)?, true),
        Question::List { json } => (listing_of(alloc, state, *json)?, true),
        Question::Names(topic, names) => of_names(rt, state, *topic, names.as_slice())?,
        Question::Why(names) => causes_of(rt, state, names.as_slice())?,
        Question::Database { all } => (database_of(rt, state, *all)?, true),
        Question::Graph(names, extent) => drawing_of(rt, file, state, names.as_slice(), *extent)?,
        Question::Clean(cleaning) => return write_cleaned(rt, state, cleaning),
    };
    write_text(rt, text.as_slice())?;
    Ok(found)
}

fn write_text(rt: HostRuntime, text: &[u8]) -> Result<(), Fault> {
    let mut out = standard_output(rt);
    if out.write_all(text).is_err() || out.flush().is_err() {
        return Err(Fault::Write);
    }
    Ok(())
}

/// Removes files, and writes what came of it.
fn write_cleaned(rt: HostRuntime, state: &State, cleaning: &Cleaning) -> Result<bool, Fault> {
    let Cleaned {
        text,
        found,
        removed,
    } = clean(rt, state, cleaning)?;
    write_text(rt, text.as_slice())?;
    if removed {
        Ok(found)
    } else {
        Err(Fault::NotRemoved)
    }
}

/// What the state has of the names, and whether it has all of them. One that it doesn't have is told.
fn of_names(
    rt: HostRuntime,
    state: &State,
    topic: Topic,
    names: &[Vec<u8>],
) -> Result<(Vec<u8>, bool), Fault> {
    let listed = state.in_byte_order(rt.alloc())?;
    let mut text = Vec::new(rt.alloc());
    let mut all = true;
    for name in names {
        let name = name.as_slice();
        let known = match topic {
            Topic::Commands => commands(state, name, &mut text)?,
            Topic::Hidden => hidden(state, name, &mut text)?,
            Topic::Everything => query(state, &listed, name, &mut text)?,
        };
        if !known {
            tell_of(rt, "", name, "not in the state");
            all = false;
        }
    }
    Ok((text, all))
}

/// The targets that aren't finished, or whose files aren't those that were made.
fn stale_among(rt: HostRuntime, state: &State) -> Result<Vec<u8>, AllocError> {
    let looks = looks_at_targets(rt, state)?;
    stale_targets(rt.alloc(), state, looks.as_slice())
}

fn database_of(rt: HostRuntime, state: &State, all: bool) -> Result<Vec<u8>, Fault> {
    let Ok(folder) = env::current_dir(&rt) else {
        return Err(Fault::NoFolder);
    };
    let listed = state.in_byte_order(rt.alloc())?;
    let found = compilations(rt.alloc(), &listed, all)?;
    let (text, left) = database(rt.alloc(), folder.as_str(), found.as_slice())?;
    for output in left {
        tell_of(
            rt,
            "note: ",
            output,
            "left out, for what it is made by isn't UTF-8",
        );
    }
    Ok(text)
}
