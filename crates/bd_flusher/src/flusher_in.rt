//! The two locks of a run that writes some form, and how a worker comes to a receipt.

ghost use Rattle.std.specs.Prelude.{◌≡◌, ◌⊎◌, ℕ, [], IfOk, IfErr, OnOk, IsErrOf};
ghost use Rattle.bd_flusher.specs.Batches.{StandsAt};
ghost use Rattle.bd_flusher.specs.Flushing.{IsWrittenIn};
ghost use Rattle.bd_flusher.specs.declared.fault.FlushFault.TheVariants as faults;

use crate::{FlushFault, Receipt, SiteIn};
use bd_ledger::Ticket;
use bd_lists::BoardIn;
use st_disk::Disk;
use st_records::{Form, Record};
use std::alloc::Global;
use std::sync::{Mutex, Wait};

/// A `Flusher` of records of this form. Since a lock tells nothing of the value within but its type, each call that wants the
/// site and the board to have that form compares it.
#[derive(Drop)]
pub struct FlusherIn<D: Disk + Drop> {
    pub form: Form,
    pub site: Mutex<SiteIn<D>>,
    pub board: Mutex<BoardIn<Receipt>>,
}

impl<D: Disk + Drop> FlusherIn<D> {
    /// As that of `Flusher`. Where the board's records have another form than the one that the site writes, nothing is written.
    fn write<R: Wait>(&self, rt: &R, alloc: Global, site: &mut SiteIn<D>) -> Result<(), FlushFault>
        ensures written { (IsErrOf result faults.OldVersion × (site.new ≡ site.old))
            ⊎ IsWrittenIn D.honest D.moments D.seen D.faults site.old site.new result }
        ensures ok { OnOk result (site.new.held ≡ []) }
        ensures unknown { (ticket : ℕ) → IsErrOf result (faults.Unknown ticket) → ⊥ }
    {
        {
            let mut board = self.board.lock(rt);
            site.take_in(alloc, &mut board)?;
        }
        site.flush(alloc)
    }

    /// As that of `Flusher`.
    fn look_or_write<R: Wait>(
        &self,
        rt: &R,
        alloc: Global,
        site: &mut SiteIn<D>,
        ticket: Ticket,
        note: Record,
    ) -> Result<Result<Receipt, Record>, FlushFault>
        ensures ok { IfOk result (λ found. IfOk found (λ r. (r.ticket ≡ ticket) × (r.noted ≡ note) × (site.new ≡ site.old))) }
        ensures err { IfOk result (λ found. IfErr found (λ back. (back ≡ note) × (site.new.held ≡ []))) }
        ensures there { StandsAt site.old.told ticket note → site.new ≡ site.old }
        ensures unknown { (other : ℕ) → IsErrOf result (faults.Unknown other) → ⊥ }
    {
        let note = match site.look(ticket, note) {
            Ok(receipt) => return Ok(Ok(receipt)),
            Err(note) => note,
        };
        match self.write(rt, alloc, site) {
            Ok(()) => Ok(Err(note)),
            Err(fault) => {
                drop(note);
                Err(fault)
            }
        }
    }

    /// As `Flusher::acknowledge`.
    pub fn acknowledge<R: Wait>(
        &self,
        rt: &R,
        alloc: Global,
        ticket: Ticket,
        note: Record,
    ) -> Result<Receipt, FlushFault>
        ensures ok { IfOk result (λ r. (r.ticket ≡ ticket) × (r.noted ≡ note)) }
        ensures unknown { (other : ℕ) → IsErrOf result (faults.Unknown other) → other ≡ ticket }
    {
        let mut site = self.site.lock(rt);
        self.write_until_told(rt, alloc, &mut site, ticket, note)
    }

    /// The same, with the site's lock.
    fn write_until_told<R: Wait>(
        &self,
        rt: &R,
        alloc: Global,
        site: &mut SiteIn<D>,
        ticket: Ticket,
        note: Record,
    ) -> Result<Receipt, FlushFault>
        ensures ok { IfOk result (λ r. (r.ticket ≡ ticket) × (r.noted ≡ note)) }
        ensures unknown { (other : ℕ) → IsErrOf result (faults.Unknown other) → other ≡ ticket }
    {
        let note = match self.look_or_write(rt, alloc, site, ticket, note)? {
            Ok(receipt) => return Ok(receipt),
            Err(note) => note,
        };
        let note = match self.look_or_write(rt, alloc, site, ticket, note)? {
            Ok(receipt) => return Ok(receipt),
            Err(note) => note,
        };
        match site.look(ticket, note) {
            Ok(receipt) => Ok(receipt),
            Err(_) => Err(FlushFault::Unknown(ticket)),
        }
    }
}
