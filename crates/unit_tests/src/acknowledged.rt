//! Records that are waited for.

use bd_flusher::{FlushFault, FlusherIn};
use bd_ledger::Ticket;
use run_doubles::begun;
use st_disk::Disk;
use std::alloc::Global;
use std::sync::Wait;

/// The batch of a target's record, once it was written.
pub fn acknowledged<R: Wait, D: Disk + Drop>(
    rt: &R,
    alloc: Global,
    flusher: &FlusherIn<D>,
    target: &[u8],
    ticket: Ticket,
) -> Result<usize, FlushFault> {
    let Some(note) = begun(alloc, target) else {
        return Err(FlushFault::OutOfMemory);
    };
    match flusher.acknowledge(rt, alloc, ticket, note) {
        Ok(receipt) => Ok(receipt.batch()),
        Err(fault) => Err(fault),
    }
}
