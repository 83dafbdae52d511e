//! What is said of the words of the command line before they count.
use crate::always_run::NONE;
use crate::sign::by_sign;
use crate::standard_streams::with_patience;
use bd_lists::Variable;
use byte_strings::ByteString;
use dmk_reading::Options;
use mk_notes::{Subject, is_macro_elsewhere};
use mk_profile::Profile;
use plain_text::Plain;
use std::alloc::Global;
use std::io::Write;

/// Says that the macro of a word means nothing here, as of a definition in a makefile. A note that there is no memory for isn't said.
fn print_meaningless<W: Write>(alloc: Global, err: &mut W, name: &[u8]) {
    if let Ok(name) = ByteString::from_slice(alloc, name) {
        let subject = Subject::Target(name);
        let _ = writeln!(err, "dmk: note: {subject}");
    }
}

/// Says that the command failed that a word defines this macro by.
pub(crate) fn print_failed(host: HostRuntime, name: &[u8], status: u32) {
    if status == 0 {
        return;
    }
    let mut stream = with_patience(host, host.stderr());
    let mut err = Plain::over(&mut stream);
    let _ = err.write_all(b"dmk: note: ");
    let _ = err.write_all(name);
    let _ = if status < NONE {
        writeln!(err, ": the command failed with status {status}")
    } else {
        writeln!(err, ": the command was stopped or not started")
    };
}

/// The macro that a word defines.
fn defined_by(profile: Profile, variable: &Variable) -> &[u8] {
    match by_sign(variable) {
        Some(signed) if profile.is_wide() => signed.name,
        _ => variable.name.as_slice(),
    }
}

/// Whether one of these words defines the macro.
fn are_defining(profile: Profile, words: &[Variable], name: &[u8]) -> bool {
    words.iter().any(|word| defined_by(profile, word) == name)
}

/// Says of each definition, but for the first ones, so many, that another make goes by it and it means nothing here, once of each macro;
/// and in the strict profile of one that has such a sign what its macro is called.
pub fn print_word_notes(host: HostRuntime, options: &Options, first: usize) {
    let profile = options.profile;
    let mut err = with_patience(host, host.stderr());
    let words = options.definitions.as_slice();
    for (place, variable) in words.iter().enumerate().skip(first) {
        let behind = words.get(place.saturating_add(1)..).unwrap_or(&[]);
        let name = defined_by(profile, variable);
        if !profile.is_wide() && by_sign(variable).is_some() {
            let name = &variable.name;
            let _ = writeln!(
                Plain::over(&mut err),
                "dmk: note: the macro is called {name}"
            );
        } else if is_macro_elsewhere(profile, name) && !are_defining(profile, behind, name) {
            print_meaningless(host.alloc(), &mut err, name);
        }
    }
}
