//! A line whose output is heard as it comes.

use crate::hears::{Hears, Stream};
use libc::net::{POLLIN, poll};
use libc::types::pollfd;
use std::io::{self, ErrorKind, Read};
use std::os::fd::AsRawFd;
use std::process::{Child, ChildStderr, ChildStdout, Command, ExitStatus, Stdio};

/// How much is heard at a time, in bytes.
const AT_A_TIME: usize = 16_384;

/// Who hears what the lines of one recipe write.
#[derive(Drop)]
struct Ear<'a, H> {
    hears: &'a H,
    number: u64,
}

impl<H: Hears> Ear<'_, H> {
    // Hears what has come; false at the end of the stream.
    fn hear_some<S: Read>(&self, from: &mut S, stream: Stream) -> io::Result<bool> {
        let mut bytes = [0u8; AT_A_TIME];
        match from.read(&mut bytes) {
            Ok(0) => Ok(false),
            Ok(count) => {
                self.hears.hear(self.number, stream, &bytes[..count]);
                Ok(true)
            }
            Err(error) if error.kind() == ErrorKind::Interrupted => Ok(true),
            Err(error) => Err(error),
        }
    }

    // Hears a stream to its end.
    fn hear_all<S: Read>(&self, from: &mut S, stream: Stream) -> io::Result<()> {
        for _ in 0..u64::MAX {
            if !self.hear_some(from, stream)? {
                break;
            }
        }
        Ok(())
    }

    // Hears both to their ends, each as something comes.
    fn hear_both(&self, out: &mut ChildStdout, err: &mut ChildStderr) -> io::Result<()> {
        for _ in 0..u64::MAX {
            let (has_out, has_err) = ready(out.as_raw_fd(), err.as_raw_fd())?;
            if has_out && !self.hear_some(out, Stream::Out)? {
                return self.hear_all(err, Stream::Err);
            }
            if has_err && !self.hear_some(err, Stream::Err)? {
                return self.hear_all(out, Stream::Out);
            }
        }
        Ok(())
    }
}

fn asked(descriptor: i32) -> pollfd {
    pollfd {
        fd: descriptor,
        events: POLLIN,
        revents: 0,
    }
}

// Waits until a read of one of the two doesn't wait, and says of which.
fn ready(first: i32, second: i32) -> io::Result<(bool, bool)> {
    let mut both = [asked(first), asked(second)];
    if poll(&mut both, -1) >= 0 {
        return Ok((both[0].revents != 0, both[1].revents != 0));
    }
    let error = io::Error::from_raw_os_error(os::errno());
    if error.kind() == ErrorKind::Interrupted {
        return Ok((false, false));
    }
    Err(error)
}

// How a child ended that was heard so far. One that can't be heard to its end is killed.
fn ended(mut child: Child, heard: io::Result<()>) -> io::Result<ExitStatus> {
    match heard {
        Ok(()) => child.wait(),
        Err(error) => {
            if child.kill().is_ok() {
                let _ = child.wait();
            }
            Err(error)
        }
    }
}

// The command has to be let go before its output is heard: it has an end of the pipe too.
fn heard_as_one<H: Hears>(
    rt: HostRuntime,
    mut command: Command,
    ear: &Ear<'_, H>,
) -> io::Result<ExitStatus> {
    let (mut reader, writer) = io::pipe(&rt)?;
    let other = writer.try_clone()?;
    command.stdout(Stdio::from(writer));
    command.stderr(Stdio::from(other));
    let child = command.spawn(&rt);
    drop(command);
    let child = child?;
    let heard = ear.hear_all(&mut reader, Stream::Out);
    ended(child, heard)
}

fn heard_apart<H: Hears>(
    rt: HostRuntime,
    mut command: Command,
    ear: &Ear<'_, H>,
) -> io::Result<ExitStatus> {
    command.stdout(Stdio::piped());
    command.stderr(Stdio::piped());
    let child = command.spawn(&rt);
    drop(command);
    let mut child = child?;
    let heard = match (child.stdout.take(), child.stderr.take()) {
        (Some(mut out), Some(mut err)) => ear.hear_both(&mut out, &mut err),
        _ => Ok(()),
    };
    ended(child, heard)
}

/// Runs a command to its end, and has all heard that it writes. What it leaves running with its output is waited for.
pub(crate) fn status_heard<H: Hears>(
    rt: HostRuntime,
    command: Command,
    hears: &H,
    number: u64,
) -> io::Result<ExitStatus> {
    let ear = Ear { hears, number };
    if hears.are_one() {
        heard_as_one(rt, command, &ear)
    } else {
        heard_apart(rt, command, &ear)
    }
}
