//! The names of a state that are drawn, with their edges.

use crate::answers::Fault;
use crate::dot::text_of;
use crate::streams::tell_of;
use mk_names::Names;
use st_answers::{Extent, edges_drawn, is_known, names_drawn, target_names};
use st_records::ByteStrings;
use st_state::State;
use std::alloc::AllocError;

/// How many names are drawn where neither names nor a depth are given: no reader has more on a page.
pub const MAX_NAMES: usize = 2000;

/// The graph of what is reached from these names, or from all targets where there are none, and whether the state has all the names.
pub fn drawing_of(
    rt: HostRuntime,
    file: &str,
    state: &State,
    asked: &[Vec<u8>],
    extent: Extent,
) -> Result<(Vec<u8>, bool), Fault> {
    if asked.is_empty() {
        let starts = target_names(rt.alloc(), state)?;
        let text = drawn(rt, file, state, &starts, extent, extent.depth.is_none())?;
        return Ok((text, true));
    }
    let starts = known_among(rt, state, asked)?;
    let all = starts.len() == asked.len();
    let text = drawn(rt, file, state, &starts, extent, false)?;
    Ok((text, all))
}

/// Those of the names that the state has. One that it doesn't have is told.
fn known_among(
    rt: HostRuntime,
    state: &State,
    asked: &[Vec<u8>],
) -> Result<ByteStrings, AllocError> {
    let listed = state.in_byte_order(rt.alloc())?;
    let mut known = ByteStrings::empty(rt.alloc());
    for name in asked {
        let name = name.as_slice();
        if is_known(state, &listed, name) {
            known.push(name)?;
        } else {
            tell_of(rt, "", name, "not in the state");
        }
    }
    Ok(known)
}

fn drawn(
    rt: HostRuntime,
    file: &str,
    state: &State,
    starts: &ByteStrings,
    extent: Extent,
    is_limited: bool,
) -> Result<Vec<u8>, Fault> {
    let names = names_drawn(rt.alloc(), state, starts, extent)?;
    if is_limited && names.len() > MAX_NAMES {
        return Err(Fault::TooMany(names.len()));
    }
    Ok(with_edges(rt, file, state, &names, extent.hidden)?)
}

fn with_edges(
    rt: HostRuntime,
    file: &str,
    state: &State,
    names: &Names,
    hidden: bool,
) -> Result<Vec<u8>, AllocError> {
    let edges = edges_drawn(rt.alloc(), state, names, hidden)?;
    let text = text_of(rt.alloc(), file, state, names, edges.as_slice());
    drop(edges);
    text
}
