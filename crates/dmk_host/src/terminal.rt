//! Whether a run shows how far it is on a terminal, or in a log.
use bd_lists::Variable;
use dmk_reading::value_of;
use jb_runner::{Source, source_of};
use std::io::IsTerminal;

/// The kind of a terminal that can't go back in a line.
const DUMB: &[u8] = b"dumb";

/// Whether a status line is to be drawn: not where standard error isn't a terminal, or one that can't go back in a line, or another
/// make that this one works for has it too.
pub fn draws_status(rt: HostRuntime, environment: &[Variable]) -> bool {
    rt.stderr().is_terminal()
        && !is_dumb(value_of(environment, b"TERM"))
        && !is_child(value_of(environment, b"MAKEFLAGS"))
}

/// Whether what is printed goes elsewhere than to a terminal.
pub fn prints_to_log(rt: HostRuntime) -> bool {
    !rt.stdout().is_terminal()
}

fn is_dumb(kind: &[u8]) -> bool {
    kind.is_empty() || kind == DUMB
}

// Whether a make that serves job slots, or says so, has started this one.
fn is_child(makeflags: &[u8]) -> bool {
    matches!(source_of(makeflags, 1), Source::Client(_) | Source::Unused)
}
