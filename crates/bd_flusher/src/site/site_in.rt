//! A site whose store writes some form.

ghost use Rattle.std.specs.Prelude.{◌≡◌, ◌≢◌, ◌↔◌, ◌<◌, ◌⊎◌, false, IfOk, IfErr, IsOk, OnOk, OnErr, IsErrOf, length};
ghost use Rattle.std.specs.FinMap as map;
ghost use Rattle.bd_ledger.specs.Sheet.{drained, AreOf};
ghost use Rattle.bd_flusher.specs.declared.fault.FlushFault.TheVariants as faults;
ghost use Rattle.bd_flusher.specs.Batches.{StandsAt, IsInBatch};
ghost use Rattle.bd_flusher.specs.Tidying.{TidyAnswerIn};
ghost use Rattle.bd_flusher.specs.Flushing.{FlushAnswerIn};
ghost use Rattle.bd_flusher.specs.Site.{IsSiteIn, first_facts_in, holding_in};

use crate::FlushFault;
use crate::site::Receipt;
use crate::site::calls::{flush_over, look_over, open_over, take_in_over, tidy_over};
use crate::site::over::SiteOver;
use bd_ledger::Ticket;
use bd_lists::BoardIn;
use st_disk::Disk;
use st_records::Record;
use st_recovery::StoreIn;
use std::alloc::{AllocError, Global};
use std::marker::Model;

/// A `Site` over a store that writes some form.
pub struct SiteIn<D: Disk + Drop> {
    over: SiteOver<StoreIn<D>>,
}

impl<D: Disk + Drop> Model for SiteIn<D> {
    ghost use Rattle.std.specs.Prelude.{◌+◌, ◌≤◌, vec_len, vec_capacity};
    ghost use Rattle.std.specs.Coded.{codes};
    ghost use Rattle.st_state.specs.State.{state_code};
    ghost use Rattle.bd_flusher.specs.Parts.{parts};
    ghost use Rattle.bd_flusher.specs.Site.{FactsIn, facts_in, IsSiteIn};

    ghost Value = { FactsIn D };

    ghost coded = { Prim.hlevel (codes, state_code) };

    ghost view = { λ s. facts_in (parts s.over.store.log.disk s.over.store.log.side s.over.store.log.form s.over.store.newest
        s.over.store.log.generation s.over.store.log.end s.over.store.log.dead s.over.store.state) s.over.opening
        s.over.records.told.items s.over.records.tickets.items s.over.records.held.items s.over.records.ends.items s.over.size };

    ghost invariant = { λ s. IsSiteIn D.honest D.moments (facts_in (parts s.over.store.log.disk s.over.store.log.side
        s.over.store.log.form s.over.store.newest s.over.store.log.generation s.over.store.log.end s.over.store.log.dead
        s.over.store.state) s.over.opening s.over.records.told.items s.over.records.tickets.items s.over.records.held.items
        s.over.records.ends.items s.over.size)
        × (vec_len s.over.records.told + vec_len s.over.records.held ≤ vec_capacity s.over.records.told) };
}

impl<D: Disk + Drop> Drop for SiteIn<D> {
    fn drop(self) {
        let SiteIn { over: _ } = self;
    }
}

impl<D: Disk + Drop> SiteIn<D> {
    /// As `Site::new`.
    pub fn new(alloc: Global, store: StoreIn<D>) -> Result<SiteIn<D>, (AllocError, StoreIn<D>)>
        requires { store.log.dead ≡ false }
        ensures ok { IfOk result (λ s. s ≡ first_facts_in store.log.disk store.log.side store.log.form store.newest
            store.log.generation store.log.end store.state) }
        ensures err { IfErr result (λ e. e.1 ≡ store) }
        ensures memory { OnErr result (0 < map.len store.state) }
    {
        match open_over(alloc, store) {
            Ok(over) => Ok(SiteIn { over }),
            Err(refused) => Err(refused),
        }
    }

    /// As `Site::into_store`.
    pub fn into_store(self) -> StoreIn<D>
        ensures disk { result.log.disk ≡ self.disk }
        ensures side { (result.log.side ≡ self.side) × (result.log.form ≡ self.form)
            × (result.log.generation ≡ self.generation) × (result.log.end ≡ self.end) }
        ensures newest { result.newest ≡ self.newest }
        ensures dead { result.log.dead ≡ self.dead }
        ensures state { result.state ≡ self.state }
    {
        let SiteIn { over } = self;
        let SiteOver {
            store,
            opening: _,
            records: _,
            size: _,
        } = over;
        store
    }

    /// As `Site::store`.
    pub fn store(&self) -> &StoreIn<D>
        ensures disk { result.now.log.disk ≡ self.now.disk }
        ensures side { (result.now.log.side ≡ self.now.side) × (result.now.log.form ≡ self.now.form)
            × (result.now.log.generation ≡ self.now.generation) × (result.now.log.end ≡ self.now.end) }
        ensures newest { result.now.newest ≡ self.now.newest }
        ensures dead { result.now.log.dead ≡ self.now.dead }
        ensures state { result.now.state ≡ self.now.state }
    {
        &self.over.store
    }

    /// As `Site::told`.
    pub fn told(&self) -> &[Record]
        ensures told { result.now ≡ self.now.told }
        ensures site { IsSiteIn D.honest D.moments self.now }
    {
        &self.over.records.told
    }

    /// As `Site::look`.
    pub fn look(&self, ticket: Ticket, note: Record) -> Result<Receipt, Record>
        ensures stands { OnOk result (StandsAt self.now.told ticket note) }
        ensures ok { IfOk result (λ r. (r.ticket ≡ ticket) × (r.noted ≡ note) × IsInBatch 0 self.now.ends ticket r.batch) }
        ensures err { IfErr result (λ back. (back ≡ note) × (StandsAt self.now.told ticket note → ⊥)) }
    {
        look_over(&self.over.records, ticket, note)
    }

    /// As `Site::take_in`. Where a board's records have another form than the one that is written, none are taken in.
    pub fn take_in(&mut self, alloc: Global, board: &mut BoardIn<Receipt>) -> Result<(), FlushFault>
        ensures all { length self.old.held ≡ 0 → OnOk result ((self.new ≡ holding_in board.old.notes self.old)
            × (board.new ≡ drained board.old)) }
        ensures own { length self.old.held ≡ 0 → OnOk result (AreOf board.old.names board.old.sent
            board.old.standing.lists.unflushed board.old.notes) }
        ensures form { OnOk result (board.old.form ≡ self.old.newest) }
        ensures held { 0 < length self.old.held → board.old.form ≡ self.old.newest
            → IsOk result × (self.new ≡ self.old) × (board.new ≡ board.old) }
        ensures err { OnErr result ((self.new ≡ self.old) × (board.new ≡ board.old)) }
        ensures cause { IfErr result (λ fault. (fault ≡ faults.OutOfMemory) ⊎ (fault ≡ faults.OldVersion)) }
        ensures old_version { IsErrOf result faults.OldVersion ↔ (board.old.form ≢ self.old.newest) }
        ensures memory { IsErrOf result faults.OutOfMemory → 0 < length board.old.notes }
    {
        if board.form() != self.over.store.newest {
            return Err(FlushFault::OldVersion);
        }
        take_in_over(alloc, &mut self.over, board)
    }

    /// As `Site::tidy`, of a side of another form than the one that is written.
    pub fn tidy(&mut self, alloc: Global) -> Result<(), FlushFault>
        ensures { TidyAnswerIn D.honest D.moments D.seen D.faults self.old self.new result }
    {
        tidy_over(alloc, &mut self.over)
    }

    /// As `Site::flush`.
    pub fn flush(&mut self, alloc: Global) -> Result<(), FlushFault>
        ensures { FlushAnswerIn D.honest D.moments D.seen D.faults self.old self.new result }
    {
        flush_over(alloc, &mut self.over)
    }
}
