//! The two locks, and how a worker comes to a receipt.

ghost use Rattle.std.specs.Prelude.{◌≡◌, ℕ, [], IfOk, IfErr, OnOk, IsErrOf};
ghost use Rattle.bd_flusher.specs.Batches.{StandsAt};
ghost use Rattle.bd_flusher.specs.Flushing.{IsWritten};
ghost use Rattle.bd_flusher.specs.declared.fault.FlushFault.TheVariants as faults;

use crate::{FlushFault, Receipt, Site};
use bd_ledger::Ticket;
use bd_lists::Board;
use st_disk::Disk;
use st_records::Record;
use std::alloc::Global;
use std::sync::{Mutex, Wait};

/// A site and a board, each behind its lock. The site's lock may be held while the board's is taken, never the other way
/// round; no recipe is to be run while either is held.
#[derive(Drop)]
pub struct Flusher<D: Disk + Drop> {
    pub site: Mutex<Site<D>>,
    pub board: Mutex<Board<Receipt>>,
}

impl<D: Disk + Drop> Flusher<D> {
    /// Writes what is held, or else all that waits on the board. Then nothing is held.
    fn write<R: Wait>(&self, rt: &R, alloc: Global, site: &mut Site<D>) -> Result<(), FlushFault>
        ensures written { IsWritten D.honest D.moments D.seen D.faults site.old site.new result }
        ensures ok { OnOk result (site.new.held ≡ []) }
        ensures unknown { (ticket : ℕ) → IsErrOf result (faults.Unknown ticket) → ⊥ }
    {
        {
            let mut board = self.board.lock(rt);
            site.take_in(alloc, &mut board)?;
        }
        site.flush(alloc)
    }

    /// The receipt of a record, or the record again, once all that waits was written.
    fn look_or_write<R: Wait>(
        &self,
        rt: &R,
        alloc: Global,
        site: &mut Site<D>,
        ticket: Ticket,
        note: Record,
    ) -> Result<Result<Receipt, Record>, FlushFault>
        ensures ok { IfOk result (λ found. IfOk found (λ r. (r.ticket ≡ ticket) × (r.noted ≡ note) × (site.new ≡ site.old))) }
        ensures err { IfOk result (λ found. IfErr found (λ back. (back ≡ note) × (site.new.held ≡ []))) }
        ensures there { StandsAt site.old.told ticket note → site.new ≡ site.old }
        ensures unknown { (other : ℕ) → IsErrOf result (faults.Unknown other) → ⊥ }
    {
        let note = match site.look(ticket, note) {
            Ok(receipt) => return Ok(Ok(receipt)),
            Err(note) => note,
        };
        match self.write(rt, alloc, site) {
            Ok(()) => Ok(Err(note)),
            Err(fault) => {
                drop(note);
                Err(fault)
            }
        }
    }

    /// The receipt of a record that was submitted with this ticket. Where another worker has written it meanwhile, the receipt
    /// is there at once; else all that waits is written, and others find theirs. A batch that an earlier call left held is
    /// written first, and the record then with the next one.
    pub fn acknowledge<R: Wait>(
        &self,
        rt: &R,
        alloc: Global,
        ticket: Ticket,
        note: Record,
    ) -> Result<Receipt, FlushFault>
        ensures ok { IfOk result (λ r. (r.ticket ≡ ticket) × (r.noted ≡ note)) }
        ensures unknown { (other : ℕ) → IsErrOf result (faults.Unknown other) → other ≡ ticket }
    {
        let mut site = self.site.lock(rt);
        self.write_until_told(rt, alloc, &mut site, ticket, note)
    }

    /// The same, with the site's lock.
    fn write_until_told<R: Wait>(
        &self,
        rt: &R,
        alloc: Global,
        site: &mut Site<D>,
        ticket: Ticket,
        note: Record,
    ) -> Result<Receipt, FlushFault>
        ensures ok { IfOk result (λ r. (r.ticket ≡ ticket) × (r.noted ≡ note)) }
        ensures unknown { (other : ℕ) → IsErrOf result (faults.Unknown other) → other ≡ ticket }
    {
        let note = match self.look_or_write(rt, alloc, site, ticket, note)? {
            Ok(receipt) => return Ok(receipt),
            Err(note) => note,
        };
        let note = match self.look_or_write(rt, alloc, site, ticket, note)? {
            Ok(receipt) => return Ok(receipt),
            Err(note) => note,
        };
        match site.look(ticket, note) {
            Ok(receipt) => Ok(receipt),
            Err(_) => Err(FlushFault::Unknown(ticket)),
        }
    }
}
