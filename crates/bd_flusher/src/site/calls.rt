//! The calls of a site, whatever the types of its store and of the board.

ghost use Rattle.std.specs.Prelude.{◌≡◌, ◌↔◌, ℕ, ◌+◌, ◌<◌, ◌^◌, false, IsTrue, IfOk, IfErr, IsOk, OnOk, OnErr, MatchOption, length};
ghost use Rattle.std.specs.FinMap as map;
ghost use Rattle.bd_ledger.specs.Sheet.{drained, AreOf};
ghost use Rattle.bd_flusher.specs.declared.fault.FlushFault.TheVariants as faults;
ghost use Rattle.bd_flusher.specs.Batches.{StandsAt, AreIncreasing, last_of, IsInBatch};
ghost use Rattle.bd_flusher.specs.Turns.{AreInTurn, IsOutOfTurn};
ghost use Rattle.bd_flusher.specs.Parts.{Parts};
ghost use Rattle.bd_flusher.specs.Site.{first_facts_in, holding_in};
ghost use Rattle.bd_flusher.specs.Tidying.{TidyAnswerIn};
ghost use Rattle.bd_flusher.specs.Flushing.{FlushAnswerIn};
ghost use Rattle.bd_flusher.specs.Over.{over_facts, IsOver};

use crate::FlushFault;
use crate::any_store::AnyStore;
use crate::same::is_same;
use crate::site::Receipt;
use crate::site::over::SiteOver;
use crate::site::records::Records;
use crate::site::waiting::Waiting;
use crate::tidying::tidy_store;
use bd_ledger::Ticket;
use st_disk::Disk;
use st_records::Record;
use std::alloc::{AllocError, Global};

/// Whether the told records hold this one at this ticket.
fn has(told: &[Record], ticket: Ticket, note: &Record) -> bool
    ensures { IsTrue result ↔ StandsAt told.now ticket note.now }
{
    match told.get(ticket.number()) {
        Some(there) => is_same(there, note),
        None => false,
    }
}

/// The number of the batch that has a told ticket.
fn batch_of(ends: &[usize], ticket: usize) -> usize
    requires increasing { AreIncreasing 0 ends.now }
    requires told { ticket < last_of 0 ends.now }
    ensures { IsInBatch 0 ends.now ticket result }
{
    ends.partition_point(|end| *end <= ticket)
}

/// The first ticket that isn't its turn, and the number whose turn it is. Tickets count up by one from `told` on.
fn out_of_turn(tickets: &[Ticket], told: usize) -> Option<(Ticket, usize)>
    requires { told + length tickets.now < 2 ^ 64 }
    ensures { MatchOption result (AreInTurn told tickets.now) (λ found. IsOutOfTurn told tickets.now found.0 found.1) }
{
    let mut turn = told;
    for ticket in tickets {
        if ticket.number() != turn {
            return Some((*ticket, turn));
        }
        turn += 1;
    }
    None
}

/// As `Site::new`.
pub(crate) fn open_over<D: Disk + Drop, S: AnyStore<D>>(
    alloc: Global,
    store: S,
) -> Result<SiteOver<S>, (AllocError, S)>
    requires { (S.parts_of store).dead ≡ false }
    ensures ok { IfOk result (λ s. over_facts S.parts_of s ≡ first_facts_in (S.parts_of store).disk (S.parts_of store).side (S.parts_of store).form
        (S.parts_of store).newest (S.parts_of store).generation (S.parts_of store).end (S.parts_of store).state) }
    ensures site { IfOk result (λ s. IsOver D.honest D.moments S.parts_of s) }
    ensures err { IfErr result (λ e. e.1 ≡ store) }
    ensures memory { OnErr result (0 < map.len (S.parts_of store).state) }
{
    match store.map().copy(alloc) {
        Ok(opening) => {
            let size = store.end();
            Ok(SiteOver {
                store,
                opening,
                records: Records {
                    told: Vec::new(alloc),
                    tickets: Vec::new(alloc),
                    held: Vec::new(alloc),
                    ends: Vec::new(alloc),
                },
                size,
            })
        }
        Err(fault) => Err((fault, store)),
    }
}

/// As `Site::look`.
pub(crate) fn look_over(records: &Records, ticket: Ticket, note: Record) -> Result<Receipt, Record>
    requires increasing { AreIncreasing 0 records.now.ends.items }
    requires last { last_of 0 records.now.ends.items ≡ length records.now.told.items }
    ensures stands { OnOk result (StandsAt records.now.told.items ticket note) }
    ensures ok { IfOk result (λ r. (r.ticket ≡ ticket) × (r.noted ≡ note) × IsInBatch 0 records.now.ends.items ticket r.batch) }
    ensures err { IfErr result (λ back. (back ≡ note) × (StandsAt records.now.told.items ticket note → ⊥)) }
{
    if !has(&records.told, ticket, &note) {
        return Err(note);
    }
    let batch = batch_of(&records.ends, ticket.number());
    Ok(Receipt {
        ticket,
        noted: note,
        batch,
    })
}

/// As `Site::take_in`, of a board whose records have the form that is written.
pub(crate) fn take_in_over<D: Disk + Drop, S: AnyStore<D>, B: Waiting>(
    alloc: Global,
    site: &mut SiteOver<S>,
    board: &mut B,
) -> Result<(), FlushFault>
    requires site { IsOver D.honest D.moments S.parts_of site.old }
    requires form { B.form_of board.old ≡ (S.parts_of site.old.store).newest }
    ensures site { IsOver D.honest D.moments S.parts_of site.new }
    ensures all { length site.old.records.held.items ≡ 0 → OnOk result ((over_facts S.parts_of site.new
        ≡ holding_in (B.sheet_of board.old).notes (over_facts S.parts_of site.old)) × (B.sheet_of board.new ≡ drained (B.sheet_of board.old))) }
    ensures own { length site.old.records.held.items ≡ 0 → OnOk result (AreOf (B.sheet_of board.old).names (B.sheet_of board.old).sent
        (B.sheet_of board.old).standing.lists.unflushed (B.sheet_of board.old).notes) }
    ensures held { 0 < length site.old.records.held.items
        → IsOk result × (over_facts S.parts_of site.new ≡ over_facts S.parts_of site.old) × (board.new ≡ board.old) }
    ensures err { OnErr result ((over_facts S.parts_of site.new ≡ over_facts S.parts_of site.old) × (board.new ≡ board.old)) }
    ensures cause { IfErr result (λ fault. fault ≡ faults.OutOfMemory) }
    ensures memory { OnErr result (0 < length (B.sheet_of board.old).notes) }
{
    if !site.records.held.is_empty() {
        return Ok(());
    }
    site.records.take_in(alloc, board)?;
    Ok(())
}

/// As `Site::tidy`.
pub(crate) fn tidy_over<D: Disk + Drop, S: AnyStore<D>>(
    alloc: Global,
    site: &mut SiteOver<S>,
) -> Result<(), FlushFault>
    requires { IsOver D.honest D.moments S.parts_of site.old }
    ensures site { IsOver D.honest D.moments S.parts_of site.new }
    ensures answer { TidyAnswerIn D.honest D.moments D.seen D.faults (over_facts S.parts_of site.old) (over_facts S.parts_of site.new) result }
{
    tidy_store(alloc, &mut site.store, &mut site.size)
}

/// As `Site::flush`.
pub(crate) fn flush_over<D: Disk + Drop, S: AnyStore<D>>(
    alloc: Global,
    site: &mut SiteOver<S>,
) -> Result<(), FlushFault>
    requires { IsOver D.honest D.moments S.parts_of site.old }
    ensures site { IsOver D.honest D.moments S.parts_of site.new }
    ensures answer { FlushAnswerIn D.honest D.moments D.seen D.faults (over_facts S.parts_of site.old) (over_facts S.parts_of site.new) result }
{
    if site.store.has_failed() {
        return Err(FlushFault::Dead);
    }
    if site.records.held.is_empty() {
        return Ok(());
    }
    if let Some((ticket, turn)) = out_of_turn(&site.records.tickets, site.records.told.len()) {
        return Err(FlushFault::OutOfTurn(ticket, turn));
    }
    write_over(alloc, site)
}

/// Writes a held batch that is in turn, after a compaction where one is due.
fn write_over<D: Disk + Drop, S: AnyStore<D>>(
    alloc: Global,
    site: &mut SiteOver<S>,
) -> Result<(), FlushFault>
    requires site { IsOver D.honest D.moments S.parts_of site.old }
    requires alive { (S.parts_of site.old.store).dead ≡ false }
    requires some { 0 < length site.old.records.held.items }
    requires in_turn { AreInTurn (length site.old.records.told.items) site.old.records.tickets.items }
    ensures site { IsOver D.honest D.moments S.parts_of site.new }
    ensures answer { FlushAnswerIn D.honest D.moments D.seen D.faults (over_facts S.parts_of site.old) (over_facts S.parts_of site.new) result }
{
    site.records.ends.reserve(1)?;
    tidy_store(alloc, &mut site.store, &mut site.size)?;
    site.records.write_to(alloc, &mut site.store)?;
    Ok(())
}
