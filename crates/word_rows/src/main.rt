//! Calls GNU make's functions of words and bytes, its expansions, conditionals, lines of variables, what they make of these, statements
//! and texts that are read, and what reads depfiles, as the rows of files say, and tells which answers differ.
//!
//! `word_rows FILE..`; without a FILE the rows are those of standard input. cases/words/README.md has the language of rows.
#![tactic(auto)]

mod arguments;
mod assignments;
mod conditionals;
mod depfiles;
mod expansions;
mod functions;
mod makefiles;
mod outside;
mod readings;
mod statements;
mod tables;
mod target_lines;
mod texts;
mod variables;

use functions::Functions;
use std::process::ExitCode;
use std::{env, fs, io};

fn print_file(rt: HostRuntime, file: &str) -> io::Result<bool> {
    let text = fs::read_to_string(&rt, file)?;
    row_files::print_rows::<Functions>(rt, file, text.as_str())
}

fn print_input(rt: HostRuntime) -> io::Result<bool> {
    let text = io::read_to_string(rt.alloc(), rt.reader())?;
    row_files::print_rows::<Functions>(rt, "standard input", text.as_str())
}

fn print_files(rt: HostRuntime, files: &[String]) -> io::Result<bool> {
    if files.is_empty() {
        return print_input(rt);
    }
    let mut are_met = true;
    for file in files {
        are_met &= print_file(rt, file.as_str())?;
    }
    Ok(are_met)
}

fn main(rt: HostRuntime) -> anyhow::Result<ExitCode> {
    let words = env::args(&rt)?.collect::<Vec<String>>(rt.alloc())?;
    let are_met = print_files(rt, words.as_slice().get(1..).unwrap_or(&[]))?;
    Ok(ExitCode::from(if are_met { 0 } else { 1 }))
}
