//! The state of a run that a recipe starts over the state of its own run.

use bd_lists::Variable;
use byte_strings::ByteString;
use dmk_locks::{first_free, told_below};
use dmk_reading::{Options, value_of};
use jb_host::HOLDS;
use std::alloc::AllocError;

/// The locks that the runs above hold, as the environment has them.
pub fn locks_above(environment: &[Variable]) -> &str {
    str::from_utf8(value_of(environment, HOLDS.as_bytes())).unwrap_or("")
}

/// In the wide profile, in which a state tells by its marks what was made under another one, a run below one over its own state has the
/// next one to itself.
pub fn with_state_below(
    host: HostRuntime,
    options: Options,
    environment: &[Variable],
) -> Result<Options, AllocError> {
    let above = locks_above(environment);
    if above.is_empty() || !options.profile.is_wide() {
        return Ok(options);
    }
    let mut options = options;
    options.state = first_free(host, above, options.state.as_str())?;
    Ok(options)
}

/// A dry run takes no lock. So that those below look at the states which they would have below a run, they are told that it did.
pub fn with_locks_told(
    host: HostRuntime,
    options: &Options,
    environment: &[Variable],
    env: Vec<Variable>,
) -> Result<Vec<Variable>, AllocError> {
    if !options.profile.is_wide() {
        return Ok(env);
    }
    let mut env = env;
    let names = told_below(host, locks_above(environment), options.state.as_str())?;
    env.push(Variable {
        name: ByteString::from_slice(host.alloc(), HOLDS.as_bytes())?,
        value: ByteString::from_slice(host.alloc(), names.as_bytes())?,
    })?;
    Ok(env)
}
