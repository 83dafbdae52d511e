//! Why targets aren't as they were made, down to what is changed behind them.

use crate::looks::looks_at_names;
use crate::streams::tell_of;
use st_answers::{Extent, causes, names_drawn};
use st_records::ByteStrings;
use st_state::State;
use std::alloc::AllocError;

/// All that a target was made of, and what that was made of.
const WHOLE: Extent = Extent {
    depth: None,
    hidden: true,
    source: true,
};

/// What is wrong with these targets and all that they were made of, and whether the state has all of them.
pub fn causes_of(
    rt: HostRuntime,
    state: &State,
    asked: &[Vec<u8>],
) -> Result<(Vec<u8>, bool), AllocError> {
    let starts = targets_among(rt, state, asked)?;
    let all = starts.len() == asked.len();
    let names = names_drawn(rt.alloc(), state, &starts, WHOLE)?;
    let looks = looks_at_names(rt, &names)?;
    let text = causes(rt.alloc(), state, &names, &looks)?;
    drop(looks);
    Ok((text, all))
}

/// Those of the names that are targets of the state. One that isn't is told.
fn targets_among(
    rt: HostRuntime,
    state: &State,
    asked: &[Vec<u8>],
) -> Result<ByteStrings, AllocError> {
    let mut targets = ByteStrings::empty(rt.alloc());
    for name in asked {
        let name = name.as_slice();
        if state.get(name).is_some() {
            targets.push(name)?;
        } else {
            tell_of(rt, "", name, "not in the state");
        }
    }
    Ok(targets)
}
