//! The lines of a log.

ghost use Rattle.std.specs.Prelude.{◌≡◌, ◌<◌, ◌++◌, ◌∷◌, IfOk, IfSome, IfNone, length, vec_len};

use crate::fault::{Fault, Refusal};
use crate::fields::text;
use crate::reading::Reading;
use crate::run::Run;
use memchr::memchr;
use serde_json::Value;
use std::alloc::Global;

/// Reads a run of a log: that of the number, counted from 1, or the last one.
/// A last line that is cut off, so that it has no end and isn't JSON, is passed over. Lines behind a run that was asked for aren't
/// looked at.
pub fn read_log(alloc: Global, log: &[u8], wanted: Option<usize>) -> Result<Run, Refusal>
    ensures number { IfOk result (λ run. IfSome wanted (λ n. run.number ≡ n)) }
    ensures spans { IfOk result (λ run. vec_len run.spans ≡ vec_len run.recipes) }
    ensures rows { IfOk result (λ run. length run.prerequisites ≡ vec_len run.recipes) }
{
    let mut reading = match Reading::new(alloc) {
        Ok(reading) => reading,
        Err(_) => return Err(Refusal::whole(Fault::OutOfMemory)),
    };
    let cut_off = take_lines(alloc, &mut reading, log, wanted)?;
    if let Some(fault) = missing(reading.number(), wanted) {
        return Err(Refusal::whole(fault));
    }
    match reading.finish(alloc, cut_off) {
        Ok(run) => Ok(run),
        Err(fault) => Err(Refusal::whole(fault)),
    }
}

/// Takes in lines up to the end of the run that is wanted, and answers the number of the last line where that is cut off.
fn take_lines(
    alloc: Global,
    reading: &mut Reading,
    log: &[u8],
    wanted: Option<usize>,
) -> Result<Option<usize>, Refusal> {
    let mut rest = log;
    for number in 1..usize::MAX {
        if rest.is_empty() {
            break;
        }
        let (line, after) = first_line(rest);
        match take_line(alloc, reading, line, wanted) {
            Ok(true) => {}
            Ok(false) => break,
            Err(Fault::NotJson) if after.is_none() => return Ok(Some(number)),
            Err(fault) => {
                return Err(Refusal {
                    line: Some(number),
                    fault,
                });
            }
        }
        rest = after.unwrap_or(&[]);
    }
    Ok(None)
}

/// Why the log doesn't have the run, where it has so many.
fn missing(runs: usize, wanted: Option<usize>) -> Option<Fault>
    ensures any { IfNone result (0 < runs) }
    ensures number { IfNone result (IfSome wanted (λ n. runs ≡ n)) }
{
    match wanted {
        Some(number) if number != runs => Some(Fault::NoSuchRun(number)),
        _ if runs == 0 => Some(Fault::NoRun),
        _ => None,
    }
}

/// The first line, and what is behind its end; None where it has no end.
fn first_line(text: &[u8]) -> (&[u8], Option<&[u8]>)
    ensures whole { IfSome result.1 (λ after. text.now ≡ result.0.now ++ 10 ∷ after.now) }
    ensures last { IfNone result.1 (text.now ≡ result.0.now) }
{
    match memchr(b'\n', text) {
        Some(end) => (&text[..end], Some(&text[end + 1..])),
        None => (text, None),
    }
}

/// Takes in a line, unless it begins a run behind the one that is wanted.
fn take_line(
    alloc: Global,
    reading: &mut Reading,
    line: &[u8],
    wanted: Option<usize>,
) -> Result<bool, Fault> {
    let line = match Value::from_slice(alloc, line) {
        Ok(line) => line,
        Err(error) if error.is_memory() => return Err(Fault::OutOfMemory),
        Err(_) => return Err(Fault::NotJson),
    };
    let event = text(&line, "event")?;
    if event == "run" {
        if wanted == Some(reading.number()) {
            return Ok(false);
        }
        reading.begin_run(alloc, &line)?;
        return Ok(true);
    }
    if reading.number() == 0 {
        return Err(Fault::BeforeRun);
    }
    reading.take(alloc, event, &line)?;
    Ok(true)
}
