//! The lines that say on standard error what a run meets.

use jb_recipe::{News, NotDone, Signal, Stopped};
use mk_plan::LinePlace;
use mk_rule_lines::RuleFault;
use std::fmt::Display;
use std::io::Write;

/// The signal by which the system ends what takes too much memory.
const SIGKILL: i32 = 9;

// The target may be no text.
fn write_of_target<E: Write>(err: &mut E, target: &[u8]) {
    let _ = err.write_all(b"dmk: target ");
    let _ = err.write_all(target);
}

// Where a line stands, in front of what is told of it.
fn write_place<E: Write>(err: &mut E, place: LinePlace<'_>) {
    let LinePlace { file, line } = place;
    let _ = err.write_all(file);
    let _ = write!(err, ":{line}: ");
}

// The target whose recipe failed, behind the place of the line that did, where that is told.
fn write_of_failed<E: Write>(err: &mut E, target: &[u8], place: Option<LinePlace<'_>>) {
    match place {
        Some(place) => {
            let _ = err.write_all(b"dmk: ");
            write_place(err, place);
            let _ = err.write_all(target);
        }
        None => write_of_target(err, target),
    }
}

fn write_killed<E: Write>(err: &mut E, signal: Signal) {
    let _ = if signal.0 == SIGKILL {
        writeln!(err, " was killed by {signal} (out of memory?)")
    } else {
        writeln!(err, " was killed by {signal}")
    };
}

// The signal that ended the line that failed, where its place is told.
fn signal_of(place: Option<LinePlace<'_>>, not_done: Option<&NotDone>) -> Option<Signal> {
    match (place, not_done) {
        (
            Some(_),
            Some(
                NotDone::Stopped(Stopped::By(signal))
                | NotDone::StoppedAndRemoved(Stopped::By(signal)),
            ),
        ) => Some(*signal),
        _ => None,
    }
}

fn write_failed<E: Write>(
    err: &mut E,
    target: &[u8],
    status: u32,
    place: Option<LinePlace<'_>>,
    signal: Option<Signal>,
) {
    write_of_failed(err, target, place);
    if let Some(signal) = signal {
        write_killed(err, signal);
    } else {
        let _ = if status < 256 {
            writeln!(err, " failed with status {status}")
        } else {
            writeln!(err, " was stopped or not started")
        };
    }
}

fn write_note<E: Write, D: Display>(err: &mut E, target: &[u8], why: &D) {
    let _ = err.write_all(b"dmk: note: target ");
    let _ = err.write_all(target);
    let _ = writeln!(err, ": {why}");
}

// What ran and wasn't printed before it failed.
fn write_command<E: Write>(err: &mut E, command: &[u8]) {
    let _ = err.write_all(b"dmk: it was: ");
    let _ = err.write_all(command);
    let _ = err.write_all(b"\n");
}

// What the line before doesn't say.
fn write_not_done<E: Write>(err: &mut E, target: &[u8], not_done: &NotDone, tells_signal: bool) {
    match not_done {
        NotDone::Stopped(_) if tells_signal => {}
        NotDone::StoppedAndRemoved(_) if tells_signal => {
            write_note(err, target, &NotDone::Removed);
        }
        NotDone::StoppedAndRemoved(stopped) => {
            write_note(err, target, stopped);
            write_note(err, target, &NotDone::Removed);
        }
        _ => write_note(err, target, not_done),
    }
}

fn write_not_recorded<E: Write>(err: &mut E, target: &[u8], long: Option<LinePlace<'_>>) {
    write_of_target(err, target);
    let _ = err.write_all(b" cannot be recorded");
    if let Some(LinePlace { file, line }) = long {
        let _ = err.write_all(b": ");
        let _ = err.write_all(file);
        let _ = write!(err, ":{line}: line too long");
    }
    let _ = err.write_all(b"\n");
}

fn write_unreported<E: Write>(err: &mut E, target: &[u8]) {
    let _ = err.write_all(b"dmk: note: target ");
    let _ = err.write_all(target);
    let _ = err.write_all(
        b": no headers are known of it: told -MD or -MMD, gcc writes no report\n",
    );
}

fn write_unwritten<E: Write>(err: &mut E, target: &[u8], path: &[u8]) {
    let _ = err.write_all(b"dmk: note: target ");
    let _ = err.write_all(target);
    let _ = err.write_all(b": its recipe wrote no ");
    let _ = err.write_all(path);
    let _ = err.write_all(b"\n");
}

pub(crate) fn write_goal<E: Write>(err: &mut E, goal: &[u8], became: &str) {
    let _ = err.write_all(b"dmk: note: ");
    let _ = err.write_all(goal);
    let _ = writeln!(err, " was up to date, {became}");
}

pub(crate) fn write_fault<E: Write>(err: &mut E, fault: &RuleFault) {
    let _ = writeln!(err, "dmk: {fault}");
}

/// The line that says that a target isn't made, if this is such news.
pub(crate) fn write_failure<E: Write>(err: &mut E, news: News<'_>) {
    match news {
        News::Failed {
            target,
            status,
            not_done,
            place,
            ..
        } => write_failed(err, target, status, place, signal_of(place, not_done)),
        News::NotRecorded { target, long } => write_not_recorded(err, target, long),
        News::NotExpanded { fault } => {
            let _ = writeln!(err, "dmk: {fault}");
        }
        _ => {}
    }
}

pub(crate) fn is_failure(news: News<'_>) -> bool {
    matches!(
        news,
        News::Failed { .. } | News::NotRecorded { .. } | News::NotExpanded { .. }
    )
}

pub(crate) fn write_news<E: Write>(err: &mut E, news: News<'_>) {
    match news {
        News::Failed {
            target,
            not_done,
            place,
            command,
            ..
        } => {
            write_failure(err, news);
            if let Some(command) = command {
                write_command(err, command);
            }
            if let Some(not_done) = not_done {
                let tells_signal = signal_of(place, Some(not_done)).is_some();
                write_not_done(err, target, not_done, tells_signal);
            }
        }
        News::NotRecorded { .. } | News::NotExpanded { .. } => write_failure(err, news),
        News::Unreported { target } => write_unreported(err, target),
        News::Unwritten { target, path } => write_unwritten(err, target, path),
        News::SlotsUnused => {
            let _ = writeln!(err, "dmk: note: jobserver not used: one slot");
        }
        News::NotServed => {
            let _ = writeln!(err, "dmk: note: no jobserver for recipes");
        }
        News::JobserverFailed => {
            let _ = writeln!(err, "dmk: jobserver fault");
        }
        News::FewerWorkers { workers, asked } => {
            let _ = writeln!(err, "dmk: note: {workers} workers in place of {asked}");
        }
    }
}
