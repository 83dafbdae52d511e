//! A status for the system to fill in.
use libc::types::statx;

// The fields of `libc::types::statx_timestamp`, in its order and of its types.
#[repr(C)]
#[derive(Clone, Copy)]
struct Moment {
    seconds: i64,
    nanoseconds: u32,
    spare: i32,
}

// The fields of `libc::types::statx`, in its order and of its types, so that one may be read as the other.
#[repr(C)]
#[derive(Drop)]
struct Fields {
    mask: u32,
    block_size: u32,
    attributes: u64,
    links: u32,
    user: u32,
    group: u32,
    mode: u16,
    first_spare: [u16; 1],
    inode: u64,
    size: u64,
    blocks: u64,
    attributes_mask: u64,
    accessed: Moment,
    born: Moment,
    changed: Moment,
    modified: Moment,
    special_major: u32,
    special_minor: u32,
    device_major: u32,
    device_minor: u32,
    mount: u64,
    memory_align: u32,
    offset_align: u32,
    last_spare: [u64; 12],
}

const NEVER: Moment = Moment {
    seconds: 0,
    nanoseconds: 0,
    spare: 0,
};

const ZEROS: Fields = Fields {
    mask: 0,
    block_size: 0,
    attributes: 0,
    links: 0,
    user: 0,
    group: 0,
    mode: 0,
    first_spare: [0; 1],
    inode: 0,
    size: 0,
    blocks: 0,
    attributes_mask: 0,
    accessed: NEVER,
    born: NEVER,
    changed: NEVER,
    modified: NEVER,
    special_major: 0,
    special_minor: 0,
    device_major: 0,
    device_minor: 0,
    mount: 0,
    memory_align: 0,
    offset_align: 0,
    last_spare: [0; 12],
};

/// A status in which all fields are 0.
///
/// libc has none to begin with, and the names of its struct's spare fields, which begin with two underscores, may not stand here. So a
/// struct of the same layout is read through a pointer.
pub fn unfilled() -> statx {
    let zeros = ZEROS;
    let place = &raw const zeros as *const statx;
    unsafe { place.read() }
}
