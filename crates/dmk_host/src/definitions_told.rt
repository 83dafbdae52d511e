//! What those who take notes of makefiles are told first.
use crate::host_files::HostFiles;
use bd_lists::Variable;
use dmk_files::FileTexts;
use dmk_reading::{Options, first_macros};
use dmk_words::Later;
use std::alloc::AllocError;

/// Tells what is defined before a makefile is read, and asks for the macros that nothing defines where the words do.
pub fn tell_definitions(
    host: HostRuntime,
    options: &Options,
    later: Later,
    environment: &[Variable],
    makefiles: &mut FileTexts<HostFiles<'_>>,
) -> Result<(), AllocError> {
    makefiles.define(options.profile, &options.definitions);
    makefiles.define(options.profile, environment);
    if !later.tells_undefined {
        return Ok(());
    }
    let alloc = host.alloc();
    let above = first_macros(alloc, options.profile, &options.definitions, environment)?;
    makefiles.ask_undefined(alloc, above);
    Ok(())
}
