//! Calls of a site, each of many clauses. They stand here once, over any disk, where these are not unfolded.
use bd_flusher::{FlushFault, Receipt, Site};
use bd_ledger::Ticket;
use bd_lists::Board;
use st_disk::Disk;
use st_records::Record;
use std::alloc::Global;

pub(crate) fn looked<D: Disk + Drop>(
    site: &Site<D>,
    ticket: Ticket,
    note: Record,
) -> Result<Receipt, Record> {
    site.look(ticket, note)
}

pub(crate) fn taken_in<D: Disk + Drop>(
    alloc: Global,
    site: &mut Site<D>,
    board: &mut Board<Receipt>,
) -> Result<(), FlushFault> {
    site.take_in(alloc, board)
}

pub(crate) fn flushed<D: Disk + Drop>(alloc: Global, site: &mut Site<D>) -> Result<(), FlushFault> {
    site.flush(alloc)
}

pub(crate) fn tidied<D: Disk + Drop>(alloc: Global, site: &mut Site<D>) -> Result<(), FlushFault> {
    site.tidy(alloc)
}
