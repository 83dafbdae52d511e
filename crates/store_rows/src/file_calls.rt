//! Calls of files of this machine, and how long some take.
use crate::keys::say_keys;
use crate::times::{commits_in_files, commits_in_memory, compaction_in_files, time_of_begun};
use disk_rows::{say_file, say_system};
use row_files::RowFault;
use std::process::ExitCode;

/// Answers `file ..`, `system ..`, `keys ..`, `commit ..` or `time ..`: the first word, and those behind it.
pub fn call(rt: HostRuntime, name: &str, words: &[String]) -> anyhow::Result<ExitCode> {
    match (name, words) {
        ("time", [what, file]) => print_time(rt, what.as_str(), file.as_str()),
        ("commit", [file, target]) => commit(rt, file.as_str(), target.as_str()),
        (_, [file, calls @ ..]) => print_answers(rt, name, file.as_str(), calls),
        _ => unknown(rt, name),
    }
}

fn unknown(rt: HostRuntime, name: &str) -> anyhow::Result<ExitCode> {
    eprintln!(rt; "call_rows: no such call: {name}")?;
    Ok(ExitCode::from(2))
}

fn commit(rt: HostRuntime, file: &str, target: &str) -> anyhow::Result<ExitCode> {
    let _time = time_of_begun(rt, file, target.as_bytes(), 1)?;
    Ok(ExitCode::from(0))
}

fn print_time(rt: HostRuntime, what: &str, file: &str) -> anyhow::Result<ExitCode> {
    let nanoseconds = match what {
        "commits" => commits_in_files(rt, file)?,
        "memory" => commits_in_memory(rt, file)?,
        "compaction" => compaction_in_files(rt, file)?,
        _ => return unknown(rt, what),
    };
    println!(rt; "{nanoseconds} ns")?;
    Ok(ExitCode::from(0))
}

fn print_answers(
    rt: HostRuntime,
    name: &str,
    file: &str,
    calls: &[String],
) -> anyhow::Result<ExitCode> {
    let mut said = String::new(rt.alloc());
    let answered = say_answers(rt, &mut said, name, file, calls);
    print_said(rt, said.as_str(), answered)
}

fn say_answers(
    rt: HostRuntime,
    said: &mut String,
    name: &str,
    file: &str,
    calls: &[String],
) -> Result<(), RowFault> {
    match name {
        "file" => say_file(rt, said, file, calls),
        "system" => say_system(rt, said, file, calls),
        "keys" => say_keys(rt, said, file),
        _ => Err(RowFault::Word),
    }
}

fn print_said(
    rt: HostRuntime,
    said: &str,
    answered: Result<(), RowFault>,
) -> anyhow::Result<ExitCode> {
    match answered {
        Ok(()) => {
            println!(rt; "{said}")?;
            Ok(ExitCode::from(0))
        }
        Err(fault) => {
            eprintln!(rt; "store_rows: {fault:?}")?;
            Ok(ExitCode::from(2))
        }
    }
}
