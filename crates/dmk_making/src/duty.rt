//! What the janitor of a run has to know of it.

use bd_lists::Variable;
use dmk_locks::{own_name, presence_of};
use dmk_reading::{Options, value_of};
use jb_janitor::{Duty, RECIPES};
use std::alloc::AllocError;

/// What the janitor of a run has to know; None in the strict profile, where a run has none, and where the system doesn't tell of processes.
pub fn duty_of(
    host: HostRuntime,
    options: &Options,
    environment: &[Variable],
    draws: bool,
) -> Result<Option<Duty>, AllocError> {
    if !options.profile.is_wide() {
        return Ok(None);
    }
    let run = own_name(host)?;
    if run.is_empty() {
        return Ok(None);
    }
    let alloc = host.alloc();
    let above = str::from_utf8(value_of(environment, RECIPES.as_bytes())).unwrap_or("");
    let presence = presence_of(host, run.as_str());
    Ok(Some(Duty {
        run,
        presence,
        above: String::from_str(alloc, above)?,
        state: String::from_str(alloc, options.state.as_str())?,
        draws,
    }))
}
