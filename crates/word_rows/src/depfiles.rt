//! What depfiles name, and where they lie.
use crate::texts::say_text;
use byte_strings::ByteStrings;
use mk_depfiles::{Cause, Refusal, depfile_of, names_of};
use row_files::{Answered, bytes};
use std::alloc::Global;

fn cause_of(cause: Cause) -> &'static str {
    match cause {
        Cause::Nul => "nul",
        Cause::Unfinished => "unfinished",
        Cause::RecipeLine => "recipe-line",
        Cause::LoneDollar => "lone-dollar",
        Cause::BareHash => "bare-hash",
        Cause::NoColon => "no-colon",
        Cause::NoTarget => "no-target",
    }
}

fn say_refusal(out: &mut String, refusal: Refusal) -> Answered {
    write!(out, "{}:{}", cause_of(refusal.cause), refusal.line)?;
    Ok(())
}

fn say_list(out: &mut String, names: &ByteStrings) -> Answered {
    for name in names {
        say_text(out, name)?;
    }
    if out.is_empty() {
        out.push_str("nothing")?;
    }
    Ok(())
}

/// The names of a depfile, or why it isn't taken, with the line.
pub(crate) fn say_names(alloc: Global, text: &[u8], out: &mut String) -> Answered {
    match names_of(alloc, text)? {
        Err(refusal) => say_refusal(out, refusal),
        Ok(names) => say_list(out, &names),
    }
}

/// The name of the depfile of a target, by a pattern.
pub(crate) fn say_place(
    alloc: Global,
    pattern: &[u8],
    target: &[u8],
    out: &mut String,
) -> Answered {
    let name = depfile_of(alloc, pattern, target)?;
    Ok(bytes::say_all(out, name.as_slice())?)
}
