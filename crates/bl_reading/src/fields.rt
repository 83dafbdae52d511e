//! The fields of a line. One that isn't there and one of another type are told apart.

use crate::fault::Fault;
use crate::run::Outcome;
use base64::DecodeAllocError;
use base64::engine::general_purpose::STANDARD;
use serde_json::Value;
use std::alloc::Global;

const MAX_STATUS: u64 = 255;

/// A text.
pub fn text<'a>(line: &'a Value, field: &'static str) -> Result<&'a str, Fault> {
    let Some(value) = line.get(field) else {
        return Err(Fault::Missing(field));
    };
    match value.as_str() {
        Some(text) => Ok(text),
        None => Err(Fault::Wrong(field)),
    }
}

/// A number that may be left out.
pub fn number_if_there(line: &Value, field: &'static str) -> Result<Option<u64>, Fault> {
    let Some(value) = line.get(field) else {
        return Ok(None);
    };
    match value.as_u64() {
        Some(number) => Ok(Some(number)),
        None => Err(Fault::Wrong(field)),
    }
}

pub fn number(line: &Value, field: &'static str) -> Result<u64, Fault> {
    match number_if_there(line, field)? {
        Some(number) => Ok(number),
        None => Err(Fault::Missing(field)),
    }
}

/// A list.
pub fn list<'a>(line: &'a Value, field: &'static str) -> Result<&'a [Value], Fault> {
    let Some(value) = line.get(field) else {
        return Err(Fault::Missing(field));
    };
    match value.as_array() {
        Some(list) => Ok(list.as_slice()),
        None => Err(Fault::Wrong(field)),
    }
}

/// How a recipe ended: a signal, or else the status, which is there then.
pub fn outcome(line: &Value) -> Result<Outcome, Fault> {
    if let Some(signal) = number_if_there(line, "signal")? {
        return Ok(Outcome::Signal(signal));
    }
    let status = number(line, "status")?;
    if status > MAX_STATUS {
        return Err(Fault::Wrong("status"));
    }
    Ok(Outcome::Status(status))
}

/// The bytes that a text in base64 stands for.
pub fn decoded(alloc: Global, text: &str, field: &'static str) -> Result<Vec<u8>, Fault> {
    match STANDARD.decode(alloc, text.as_bytes()) {
        Ok(bytes) => Ok(bytes),
        Err(DecodeAllocError::OutOfMemory) => Err(Fault::OutOfMemory),
        Err(_) => Err(Fault::Wrong(field)),
    }
}
