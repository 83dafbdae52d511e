//! What a power cut leaves of one side of a disk in memory: where a crash may leave any bytes, those of a filling.
ghost use Rattle.std.specs.Prelude.{◌≡◌, ◌+◌, ◌^◌, ◌<◌, ◌≤◌, IfOk};
ghost use Rattle.st_memory.specs.PowerCut.{is_written, fill_byte, open_below, cut_byte, IsCut};

use std::alloc::{AllocError, Global};

/// A side of this length. The open places take the bytes of the filling in order, again from its start where it is
/// used up, and zeros where it is empty.
pub(crate) fn cut_bytes(
    alloc: Global,
    synced: &[u8],
    ranges: &[(usize, usize)],
    len: usize,
    fill: &[u8],
) -> Result<Vec<u8>, AllocError>
    ensures { IfOk result (λ bytes. IsCut synced.now ranges.now fill.now len bytes.items) }
{
    let mut bytes = Vec::with_capacity(alloc, len)?;
    let mut filled = 0;
    for place in 0..len {
        bytes.push(next_byte(synced, ranges, fill, place, &mut filled))?;
    }
    Ok(bytes)
}

fn next_byte(
    synced: &[u8],
    ranges: &[(usize, usize)],
    fill: &[u8],
    place: usize,
    filled: &mut usize,
) -> u8
    requires count { filled.old ≡ open_below synced.now ranges.now place }
    requires fits { filled.old + 1 < 2 ^ 64 }
    ensures byte { result ≡ cut_byte synced.now ranges.now fill.now place }
    ensures count { filled.new ≡ open_below synced.now ranges.now (place + 1) }
    ensures few { filled.new ≤ filled.old + 1 }
{
    if !holds_place(ranges, place) && place < synced.len() {
        return synced[place];
    }
    let byte = byte_to_fill(fill, *filled);
    *filled += 1;
    byte
}

fn holds_place(ranges: &[(usize, usize)], place: usize) -> bool
    ensures { result ≡ is_written ranges.now place }
{
    for (at, len) in ranges {
        if *at <= place && place - *at < *len {
            return true;
        }
    }
    false
}

fn byte_to_fill(fill: &[u8], k: usize) -> u8
    ensures { result ≡ fill_byte fill.now k }
{
    if fill.is_empty() {
        0
    } else {
        fill[k % fill.len()]
    }
}
