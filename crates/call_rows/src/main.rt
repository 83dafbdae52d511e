//! Calls crates as the rows of files say, and tells which answers differ.
//!
//! `call_rows store FILE` has rows of the state file's crates, `call_rows board FILE` those of boards and sites; more such
//! pairs may follow, and without a FILE the rows are those of standard input. cases/store/README.md and
//! cases/board/README.md have the languages of rows, and the first of them the other calls, of files of this machine.
#![tactic(auto)]

mod pair;
mod setup;
mod site_calls;
mod store;

use setup::BoardSetup;
use std::process::ExitCode;
use std::{env, fs, io};

/// Which crates rows call.
#[derive(Clone, Copy)]
enum Kind {
    Store,
    Board,
}

fn kind_of(word: &str) -> Option<Kind> {
    match word {
        "store" => Some(Kind::Store),
        "board" => Some(Kind::Board),
        _ => None,
    }
}

/// Prints which rows of a text differ. Whether none does.
fn print_rows(rt: HostRuntime, kind: Kind, file: &str, text: &str) -> io::Result<bool> {
    match kind {
        Kind::Store => store_rows::print_rows(rt, file, text),
        Kind::Board => row_files::print_rows::<BoardSetup>(rt, file, text),
    }
}

fn print_input(rt: HostRuntime, kind: Kind) -> io::Result<bool> {
    let text = io::read_to_string(rt.alloc(), rt.reader())?;
    print_rows(rt, kind, "standard input", text.as_str())
}

fn print_file(rt: HostRuntime, kind: Kind, file: &str) -> io::Result<bool> {
    let text = fs::read_to_string(&rt, file)?;
    print_rows(rt, kind, file, text.as_str())
}

/// The rows of each file, whose kind stands before it.
fn print_files(rt: HostRuntime, words: &[String]) -> io::Result<bool> {
    let mut are_met = true;
    for place in 1..words.len() {
        if place % 2 == 1 {
            let kind = kind_of(words[place - 1].as_str()).unwrap_or(Kind::Store);
            are_met &= print_file(rt, kind, words[place].as_str())?;
        }
    }
    Ok(are_met)
}

fn status_of(are_met: bool) -> ExitCode {
    ExitCode::from(if are_met { 0 } else { 1 })
}

fn main(rt: HostRuntime) -> anyhow::Result<ExitCode> {
    let words = env::args(&rt)?.collect::<Vec<String>>(rt.alloc())?;
    let [_program, name, rest @ ..] = words.as_slice() else {
        eprintln!(rt; "call_rows: no kind of rows")?;
        return Ok(ExitCode::from(2));
    };
    match kind_of(name.as_str()) {
        None => store_rows::call(rt, name.as_str(), rest),
        Some(kind) if rest.is_empty() => Ok(status_of(print_input(rt, kind)?)),
        Some(_kind) => Ok(status_of(print_files(rt, words.as_slice().get(1..).unwrap_or(&[]))?)),
    }
}
