//! What the system said of the files that a fault is about, behind the fault.

use crate::host_files::HostFiles;
use dmk_files::FileTexts;
use dmk_messages::{Cure, CureMessage, print_lines};
use dmk_reading::Options;
use mk_profile::Profile;
use plain_text::Plain;
use st_disk::{FailedCallMessage, FileDisk, SystemFolder, Which};
use std::alloc::Global;
use std::fs;
use std::io::{IsTerminal, Write};

/// Says which makefile couldn't be read, and which call on the state's files failed, if there is one. A line that can't be printed
/// changes nothing.
pub fn print_reasons<W: Write>(
    err: &mut W,
    makefiles: &FileTexts<HostFiles<'_>>,
    disk: &FileDisk<SystemFolder>,
) {
    let mut err = Plain::over(err);
    if let Some(unread) = makefiles.unread() {
        let _ = writeln!(err, "dmk: note: {unread}");
    }
    if let Some(failed) = disk.folder.failed_call() {
        let message = FailedCallMessage {
            state: disk.folder.name(Which::A),
            failed,
        };
        let _ = writeln!(err, "dmk: note: {message}");
    }
    let _ = err.flush();
}

/// Says what helps against a fault that was told: in the wide profile, and what that one has in the strict one on a terminal, where nobody's
/// program reads it. A line that can't be printed changes nothing.
pub fn print_cure<W: Write>(
    host: HostRuntime,
    err: &mut W,
    profile: Profile,
    state: &str,
    cure: Option<Cure>,
) {
    let Some(cure) = cure else {
        return;
    };
    if !cure.is_for(profile) || !(profile.is_wide() || host.stderr().is_terminal()) {
        return;
    }
    let message = CureMessage { state, cure };
    let _ = writeln!(Plain::over(err), "dmk: note: {message}");
    let _ = err.flush();
}

/// Says what the makefiles ask for that has no meaning here, in the order of reading. A line that can't be printed changes nothing.
/// A note that there is no memory for isn't said.
pub fn print_notes<W: Write>(alloc: Global, err: &mut W, makefiles: &FileTexts<HostFiles<'_>>) {
    if let Ok(notes) = makefiles.note_lines(alloc) {
        print_lines(&mut Plain::over(err), &notes);
    }
}

/// Whether the makefile is one that other makes look for under one name more.
pub fn needs_usual_makefile(options: &Options) -> bool {
    options.profile.is_wide() && options.makefiles.named.is_empty()
}

/// The name under which a makefile is looked for, if one is there, and whether it is a file that can be read as one.
fn usual_makefile(rt: HostRuntime) -> Option<(&'static str, bool)> {
    for name in ["makefile", "Makefile"] {
        if let Ok(found) = fs::metadata(&rt, name) {
            return Some((name, found.is_file()));
        }
    }
    None
}

fn has_gnu_makefile(rt: HostRuntime) -> bool {
    fs::metadata(&rt, "GNUmakefile").is_ok()
}

/// Says that GNUmakefile isn't read, where that is looked for and no other makefile can be.
pub fn print_gnu_makefile<W: Write>(rt: HostRuntime, err: &mut W, is_wanted: bool) {
    if !is_wanted || !has_gnu_makefile(rt) {
        return;
    }
    if let None | Some((_, false)) = usual_makefile(rt) {
        let _ = writeln!(
            err,
            "dmk: note: GNUmakefile is not read: -f GNUmakefile names it"
        );
        let _ = err.flush();
    }
}

/// Says in front that GNUmakefile isn't read, where another makefile is, which GNU make then doesn't read.
pub fn print_other_makefile<W: Write>(rt: HostRuntime, err: &mut W, is_wanted: bool) {
    if !is_wanted || !has_gnu_makefile(rt) {
        return;
    }
    if let Some((name, true)) = usual_makefile(rt) {
        let _ = writeln!(
            err,
            "dmk: note: {name} is read, and not GNUmakefile: -f GNUmakefile names it"
        );
        let _ = err.flush();
    }
}
