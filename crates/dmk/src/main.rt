//! make with a state that remembers what each recipe was, and whether it ended.
#![tactic(auto)]

use dmk_making::run_words;
use std::process::ExitCode;

fn main(rt: HostRuntime) -> ExitCode {
    ExitCode::from(run_words(&rt, rt))
}
