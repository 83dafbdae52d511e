//! Where nodes stand, and how they ended.
use bd_links::Stand;
use bd_places::End;
use row_files::{RowFault, Words};
use std::alloc::AllocError;

pub fn read_end(words: &mut Words<'_>) -> Result<End, RowFault> {
    match words.next() {
        "uptodate" => Ok(End::UpToDate),
        "remade" => Ok(End::Remade),
        "built" => Ok(End::Built),
        "abandoned" => Ok(End::Abandoned),
        "failed" => match words.next().parse::<u32>() {
            Ok(status) => Ok(End::Failed(status)),
            Err(_) => Err(RowFault::Word),
        },
        _ => Err(RowFault::Word),
    }
}

fn list(stand: Option<Stand>) -> &'static str {
    match stand {
        Some(Stand::Waiting) => "waiting",
        Some(Stand::Ready) => "ready",
        Some(Stand::Running) => "running",
        Some(Stand::Unflushed) => "unflushed",
        Some(Stand::Flushing) => "flushing",
        Some(Stand::Settled) => "settled",
        None => "nowhere",
    }
}

/// A list, and the end of a node that has one.
pub fn write_stand(
    stand: Option<Stand>,
    end: Option<End>,
    out: &mut String,
) -> Result<(), AllocError> {
    out.push_str(list(stand))?;
    match end {
        Some(End::UpToDate) => out.push_str(" uptodate"),
        Some(End::Remade) => out.push_str(" remade"),
        Some(End::Built) => out.push_str(" built"),
        Some(End::Failed(status)) => write!(out, " failed {status}"),
        Some(End::Abandoned) => out.push_str(" abandoned"),
        None => Ok(()),
    }
}
