//! What the words ask for, read once more.
use bd_lists::Variable;
use dmk_host::{SignFault, with_signs, with_state_below};
use dmk_reading::Options;
use dmk_words::{Asked, Later, Request, read_words, with_environment};
use std::alloc::AllocError;

/// The options once more, as the words and this environment have them; None where they ask for nothing that can be made.
pub fn options_again(
    host: HostRuntime,
    environment: &[Variable],
) -> Result<Option<Options>, AllocError> {
    match read_words(host, 1) {
        Ok(Request::Make(Asked { later, options, .. })) => {
            options_with(host, later, options, environment)
        }
        _ => Ok(None),
    }
}

/// These options with what the environment adds and what definitions come to by their signs; None where one comes to nothing.
fn options_with(
    host: HostRuntime,
    later: Later,
    options: Options,
    environment: &[Variable],
) -> Result<Option<Options>, AllocError> {
    let options = with_environment(host.alloc(), later, options, environment)?;
    let before = later.definitions_before(options.profile, environment);
    match with_signs(host, options, before, environment, false) {
        Ok(options) => Ok(Some(with_state_below(host, options, environment)?)),
        Err(SignFault::OutOfMemory) => Err(AllocError),
        Err(_) => Ok(None),
    }
}
