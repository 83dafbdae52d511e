//! The value behind the site lock: a store, which of the submitted records it has, and which it is to have next.

ghost use Rattle.std.specs.Prelude.{◌≡◌, ◌<◌, false, IfOk, IfErr, IsOk, OnOk, OnErr, length};
ghost use Rattle.std.specs.FinMap as map;
ghost use Rattle.bd_ledger.specs.Sheet.{drained, AreOf};
ghost use Rattle.bd_flusher.specs.declared.fault.FlushFault.TheVariants as faults;
ghost use Rattle.bd_flusher.specs.Batches.{StandsAt, IsInBatch};
ghost use Rattle.bd_flusher.specs.Tidying.{TidyAnswer};
ghost use Rattle.bd_flusher.specs.Flushing.{FlushAnswer};
ghost use Rattle.bd_flusher.specs.Site.{IsSite, first_facts, holding};

mod calls;
mod over;
mod receipt;
mod records;
mod site_in;
mod waiting;

use crate::FlushFault;
use bd_ledger::Ticket;
use bd_lists::Board;
use calls::{flush_over, look_over, open_over, take_in_over, tidy_over};
use over::SiteOver;
pub use receipt::Receipt;
pub use site_in::SiteIn;
use st_disk::Disk;
use st_records::Record;
use st_recovery::Store;
use std::alloc::{AllocError, Global};
use std::marker::Model;

/// A store with the records that it was told since it was opened, and the batch that it is to be told next.
pub struct Site<D: Disk + Drop> {
    over: SiteOver<Store<D>>,
}

impl<D: Disk + Drop> Model for Site<D> {
    ghost use Rattle.std.specs.Prelude.{◌+◌, ◌≤◌, vec_len, vec_capacity};
    ghost use Rattle.std.specs.Coded.{codes};
    ghost use Rattle.st_state.specs.State.{state_code};
    ghost use Rattle.bd_flusher.specs.Site.{Facts, facts, IsSite};

    ghost Value = { Facts D };

    ghost coded = { Prim.hlevel (codes, state_code) };

    ghost view = { λ s. facts s.over.store.log.disk s.over.store.log.side s.over.store.log.version s.over.store.log.generation
        s.over.store.log.end s.over.store.log.dead s.over.store.state s.over.opening s.over.records.told.items
        s.over.records.tickets.items s.over.records.held.items s.over.records.ends.items s.over.size };

    ghost invariant = { λ s. IsSite D.honest D.moments (facts s.over.store.log.disk s.over.store.log.side s.over.store.log.version
        s.over.store.log.generation s.over.store.log.end s.over.store.log.dead s.over.store.state s.over.opening
        s.over.records.told.items s.over.records.tickets.items s.over.records.held.items s.over.records.ends.items s.over.size)
        × (vec_len s.over.records.told + vec_len s.over.records.held ≤ vec_capacity s.over.records.told) };
}

impl<D: Disk + Drop> Drop for Site<D> {
    fn drop(self) {
        let Site { over: _ } = self;
    }
}

impl<D: Disk + Drop> Site<D> {
    /// A site over a store that was opened. The state is copied, since what was told is told of it.
    pub fn new(alloc: Global, store: Store<D>) -> Result<Site<D>, (AllocError, Store<D>)>
        requires { store.log.dead ≡ false }
        ensures ok { IfOk result (λ s. s ≡ first_facts store.log.disk store.log.side store.log.version store.log.generation
            store.log.end store.state) }
        ensures err { IfErr result (λ e. e.1 ≡ store) }
        ensures memory { OnErr result (0 < map.len store.state) }
    {
        match open_over(alloc, store) {
            Ok(over) => Ok(Site { over }),
            Err(refused) => Err(refused),
        }
    }

    /// The store again. What is held and not told is let go.
    pub fn into_store(self) -> Store<D>
        ensures disk { result.log.disk ≡ self.disk }
        ensures side { (result.log.side ≡ self.side) × (result.log.version ≡ self.version)
            × (result.log.generation ≡ self.generation) × (result.log.end ≡ self.end) }
        ensures dead { result.log.dead ≡ self.dead }
        ensures state { result.state ≡ self.state }
    {
        let Site { over } = self;
        let SiteOver {
            store,
            opening: _,
            records: _,
            size: _,
        } = over;
        store
    }

    /// The store. While it isn't dead, every pair of crash images recovers its state.
    pub fn store(&self) -> &Store<D>
        ensures disk { result.now.log.disk ≡ self.now.disk }
        ensures side { (result.now.log.side ≡ self.now.side) × (result.now.log.version ≡ self.now.version)
            × (result.now.log.generation ≡ self.now.generation) × (result.now.log.end ≡ self.now.end) }
        ensures dead { result.now.log.dead ≡ self.now.dead }
        ensures state { result.now.state ≡ self.now.state }
    {
        &self.over.store
    }

    /// The records that the store was told, each at its ticket; and what is true of a site whenever its lock is free.
    pub fn told(&self) -> &[Record]
        ensures told { result.now ≡ self.now.told }
        ensures site { IsSite D.honest D.moments self.now }
    {
        &self.over.records.told
    }

    /// The receipt of a record that was told at this ticket, else the record again. It takes no memory.
    pub fn look(&self, ticket: Ticket, note: Record) -> Result<Receipt, Record>
        ensures stands { OnOk result (StandsAt self.now.told ticket note) }
        ensures ok { IfOk result (λ r. (r.ticket ≡ ticket) × (r.noted ≡ note) × IsInBatch 0 self.now.ends ticket r.batch) }
        ensures err { IfErr result (λ back. (back ≡ note) × (StandsAt self.now.told ticket note → ⊥)) }
    {
        look_over(&self.over.records, ticket, note)
    }

    /// Takes in all that waits on the board to be written, in order, where no batch is held. Only want of memory keeps it
    /// from that, and then nothing has changed.
    pub fn take_in(&mut self, alloc: Global, board: &mut Board<Receipt>) -> Result<(), FlushFault>
        ensures all { length self.old.held ≡ 0 → OnOk result ((self.new ≡ holding board.old.notes self.old)
            × (board.new ≡ drained board.old)) }
        ensures own { length self.old.held ≡ 0 → OnOk result (AreOf board.old.names board.old.sent
            board.old.standing.lists.unflushed board.old.notes) }
        ensures held { 0 < length self.old.held → IsOk result × (self.new ≡ self.old) × (board.new ≡ board.old) }
        ensures err { OnErr result ((self.new ≡ self.old) × (board.new ≡ board.old)) }
        ensures cause { IfErr result (λ fault. fault ≡ faults.OutOfMemory) }
        ensures memory { OnErr result (0 < length board.old.notes) }
    {
        take_in_over(alloc, &mut self.over, board)
    }

    /// Compacts the store where its side is of version 1, or longer than 2^20 bytes and than twice what it was when the site
    /// was made or when it was last compacted. Of a long side a refusal is passed over, unless it is the device's.
    pub fn tidy(&mut self, alloc: Global) -> Result<(), FlushFault>
        ensures { TidyAnswer D.honest D.moments D.seen D.faults self.old self.new result }
    {
        tidy_over(alloc, &mut self.over)
    }

    /// Writes the held batch, after a compaction where one is due; then its records are told. Its cost is that of the batch,
    /// whatever was told before. All that it grows itself is grown before the first call of the device. After a refusal what
    /// is told and held is as before; a compaction that was made stays.
    pub fn flush(&mut self, alloc: Global) -> Result<(), FlushFault>
        ensures { FlushAnswer D.honest D.moments D.seen D.faults self.old self.new result }
    {
        flush_over(alloc, &mut self.over)
    }
}
