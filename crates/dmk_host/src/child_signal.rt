//! A run that is told how its recipes end, whatever whoever started dmk said of SIGCHLD.
use std::io::{self, PipeReader, PipeWriter, Read};
use std::process::{Child, Command, Stdio};
use std::{env, fs};

/// Runs the words behind its first one as a program that is told how its children end, and tells its own status on standard input.
/// It tells something else where no `env` can see to that: then nothing was run. The first word is `-` where the program is to have
/// the standard input of this one.
const SCRIPT: &str = "\
input=/dev/null
[ \"$1\" = - ] && input=/proc/$PPID/fd/0
shift
if env --default-signal=CHLD true 2>/dev/null; then
    env --default-signal=CHLD \"$0\" \"$@\" <\"$input\"
    echo $? >&0
else
    echo none >&0
fi";

/// What the mask of ignored signals is divided by so that the bit of SIGCHLD, number 17, is the lowest one.
const BELOW_SIGCHLD: u64 = 65_536;

/// The status of dmk run anew with the same words, where this process isn't told how its children end: the kernel then
/// forgets them. None where it is told, and where dmk can't be run anew.
pub fn run_anew(rt: HostRuntime, reads_input: bool) -> Option<u8> {
    if !forgets_children(rt) {
        return None;
    }
    match told_status(rt, reads_input) {
        Ok(text) => status_of(text.as_str()),
        Err(_) => None,
    }
}

// Children are forgotten where SIGCHLD is ignored, which a program takes over from the one that starts it.
fn forgets_children(rt: HostRuntime) -> bool {
    let Ok(text) = fs::read_to_string(&rt, "/proc/self/status") else {
        return false;
    };
    for line in text.as_str().lines() {
        if let Some(mask) = line.strip_prefix("SigIgn:") {
            return holds_sigchld(mask.trim());
        }
    }
    false
}

fn holds_sigchld(mask: &str) -> bool {
    match u64::from_str_radix(mask, 16) {
        Ok(mask) => mask / BELOW_SIGCHLD % 2 == 1,
        Err(_) => false,
    }
}

// What the script tells.
fn told_status(rt: HostRuntime, reads_input: bool) -> io::Result<String> {
    let (told, writer) = io::pipe(&rt)?;
    let mut child = start_script(rt, writer, reads_input)?;
    let text = read_whole(rt, told);
    // How it ended isn't told: that is why the script tells it.
    let _ = child.wait();
    text
}

fn read_whole(rt: HostRuntime, mut told: PipeReader) -> io::Result<String> {
    let mut text = String::new(rt.alloc());
    told.read_to_string(&mut text)?;
    Ok(text)
}

// Starts the script, whose standard input it is that the status is told on.
fn start_script(rt: HostRuntime, told: PipeWriter, reads_input: bool) -> io::Result<Child> {
    let mut command = Command::new(rt.alloc(), "/bin/sh")?;
    command.stdin(Stdio::from(told));
    add_script(rt, &mut command, reads_input)?;
    command.spawn(&rt)
}

// The script's own text, the path of dmk, what it has as standard input, and the words that this one was started with.
fn add_script(rt: HostRuntime, command: &mut Command, reads_input: bool) -> io::Result<()> {
    command.arg("-c")?.arg(SCRIPT)?;
    let program = env::current_exe(&rt)?;
    command.arg(program.as_str())?;
    command.arg(if reads_input { "-" } else { "" })?;
    add_words(rt, command)
}

fn add_words(rt: HostRuntime, command: &mut Command) -> io::Result<()> {
    for word in env::args(&rt)?.skip(1) {
        command.arg(word.as_str())?;
    }
    Ok(())
}

// A run of which nothing is told was ended by a signal together with the script.
fn status_of(told: &str) -> Option<u8> {
    match told.trim() {
        "" => Some(2),
        "none" => None,
        status => Some(status.parse::<u8>().unwrap_or(2)),
    }
}
