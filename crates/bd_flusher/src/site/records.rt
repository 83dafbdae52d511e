//! The records of a site: those that its store was told since it was opened, and the batch that it is to be told next.

ghost use Rattle.std.specs.Prelude.{◌≡◌, ◌≢◌, ℕ, ◌+◌, ◌<◌, ◌≤◌, ◌^◌, ◌++◌, ◌∷◌, [], List, true, false, IfErr, OnOk, OnErr, IsErrOf, length, vec_len, vec_capacity, map as list_map};
ghost use Rattle.std.specs.List.{AllByRecursion};
ghost use Rattle.st_disk.specs.Moments.{Throughout};
ghost use Rattle.st_disk.specs.Faults.{Rises};
ghost use Rattle.st_records.specs.declared.record.Record.{Record};
ghost use Rattle.st_state.specs.State.{replay};
ghost use Rattle.st_file.specs.Side.{HoldsUpToIn};
ghost use Rattle.st_file.specs.Grown.{IsFullIn};
ghost use Rattle.st_file.specs.declared.commit_fault.CommitFault.TheVariants as commits;
ghost use Rattle.st_recovery.specs.Stored.{AllRecoverEitherIn};
ghost use Rattle.bd_ledger.specs.Sheet.{drained, AreOf, IsWritableIn, AreWritableIn};
ghost use Rattle.bd_flusher.specs.Parts.{Written};

use crate::any_store::AnyStore;
use crate::site::waiting::Waiting;
use bd_ledger::Ticket;
use st_disk::Disk;
use st_file::CommitFault;
use st_records::Record;
use std::alloc::{AllocError, Global};

/// A ticket is a place among the told records and then the held ones. Held records have their room among the told ones.
pub(crate) struct Records {
    pub(crate) told: Vec<Record>,
    pub(crate) tickets: Vec<Ticket>,
    pub(crate) held: Vec<Record>,
    /// How many records were told when each commit ended.
    pub(crate) ends: Vec<usize>,
}

impl Drop for Records {
    fn drop(self) {
        let Records {
            told: _,
            tickets: _,
            held: _,
            ends: _,
        } = self;
    }
}

/// Takes the room for a batch of so many records, which will be told.
fn make_room(
    told: &mut Vec<Record>,
    tickets: &mut Vec<Ticket>,
    held: &mut Vec<Record>,
    count: usize,
) -> Result<(), AllocError>
    ensures told { told.new.items ≡ told.old.items }
    ensures tickets { tickets.new.items ≡ tickets.old.items }
    ensures held { held.new.items ≡ held.old.items }
    ensures more { vec_capacity told.old ≤ vec_capacity told.new }
    ensures memory { OnErr result (0 < count) }
    ensures told_room { OnOk result (vec_len told.new + count ≤ vec_capacity told.new) }
    ensures few { OnOk result (vec_len told.new + count < 2 ^ 64) }
    ensures tickets_room { OnOk result (vec_len tickets.new + count ≤ vec_capacity tickets.new) }
    ensures held_room { OnOk result (vec_len held.new + count ≤ vec_capacity held.new) }
{
    told.reserve(count)?;
    tickets.reserve(count)?;
    held.reserve(count)?;
    Ok(())
}

/// Puts the tickets of a batch behind one list and its records behind another.
fn part(batch: Vec<(Ticket, Record)>, tickets: &mut Vec<Ticket>, held: &mut Vec<Record>)
    requires tickets { vec_len tickets.old + vec_len batch ≤ vec_capacity tickets.old }
    requires held { vec_len held.old + vec_len batch ≤ vec_capacity held.old }
    ensures tickets { tickets.new.items ≡ tickets.old.items ++ list_map (λ n. n.0) batch.items }
    ensures held { held.new.items ≡ held.old.items ++ list_map (λ n. n.1) batch.items }
{
    for (ticket, note) in batch {
        tickets.push(ticket).unwrap();
        held.push(note).unwrap();
    }
}

impl Records {
    /// Puts all that waits on a board behind what is held, in order. Only want of memory keeps it from that.
    pub(crate) fn take_in<B: Waiting>(
        &mut self,
        alloc: Global,
        board: &mut B,
    ) -> Result<(), AllocError>
        ensures told { self.new.told.items ≡ self.old.told.items }
        ensures ends { self.new.ends ≡ self.old.ends }
        ensures tickets { OnOk result (self.new.tickets.items ≡ self.old.tickets.items ++ list_map (λ n. n.0) (B.sheet_of board.old).notes) }
        ensures held { OnOk result (self.new.held.items ≡ self.old.held.items ++ list_map (λ n. n.1) (B.sheet_of board.old).notes) }
        ensures room { OnOk result (vec_len self.new.told + length (B.sheet_of board.old).notes ≤ vec_capacity self.new.told) }
        ensures few { OnOk result (vec_len self.new.told + length (B.sheet_of board.old).notes < 2 ^ 64) }
        ensures drained { OnOk result (B.sheet_of board.new ≡ drained (B.sheet_of board.old)) }
        ensures own { OnOk result (AreOf (B.sheet_of board.old).names (B.sheet_of board.old).sent
            (B.sheet_of board.old).standing.lists.unflushed (B.sheet_of board.old).notes) }
        ensures writable { OnOk result (AreWritableIn (B.form_of board.old) (B.sheet_of board.old).notes) }
        ensures err { OnErr result ((self.new.tickets.items ≡ self.old.tickets.items)
            × (self.new.held.items ≡ self.old.held.items) × (board.new ≡ board.old)) }
        ensures more { vec_capacity self.old.told ≤ vec_capacity self.new.told }
        ensures memory { OnErr result (0 < length (B.sheet_of board.old).notes) }
    {
        let count = board.count();
        make_room(&mut self.told, &mut self.tickets, &mut self.held, count)?;
        let mut batch = Vec::with_capacity(alloc, count)?;
        board.hand_over(&mut batch);
        part(batch, &mut self.tickets, &mut self.held);
        Ok(())
    }

    /// Commits what is held, and then it is told, in one batch more. Where the commit is refused nothing of it changes.
    pub(crate) fn write_to<D: Disk + Drop, S: AnyStore<D>>(
        &mut self,
        alloc: Global,
        store: &mut S,
    ) -> Result<(), CommitFault>
        requires writable { AllByRecursion (IsWritableIn (S.parts_of store.old).newest) self.old.held.items }
        requires room { vec_len self.old.told + vec_len self.old.held ≤ vec_capacity self.old.told }
        requires end { vec_len self.old.ends < vec_capacity self.old.ends }
        ensures any_moment { D.honest → (S.parts_of store.old).dead ≡ false
            → Throughout (D.moments (S.parts_of store.old).disk) (D.moments (S.parts_of store.new).disk)
            (AllRecoverEitherIn (S.parts_of store.old).newest (S.parts_of store.old).state (replay (S.parts_of store.old).state self.old.held.items)) }
        ensures behind { D.honest → (before : List Record)
            → HoldsUpToIn (D.seen (S.parts_of store.old).disk (S.parts_of store.old).side) (S.parts_of store.old).form (S.parts_of store.old).generation before (S.parts_of store.old).end
            → OnOk result (HoldsUpToIn (D.seen (S.parts_of store.new).disk (S.parts_of store.old).side) (S.parts_of store.old).form (S.parts_of store.old).generation
            (before ++ self.old.held.items) (S.parts_of store.new).end) }
        ensures side { ((S.parts_of store.new).side ≡ (S.parts_of store.old).side) × ((S.parts_of store.new).form ≡ (S.parts_of store.old).form)
            × ((S.parts_of store.new).newest ≡ (S.parts_of store.old).newest) × ((S.parts_of store.new).generation ≡ (S.parts_of store.old).generation) }
        ensures alive { OnOk result ((S.parts_of store.new).dead ≡ false) }
        ensures state { OnOk result ((S.parts_of store.new).state ≡ replay (S.parts_of store.old).state self.old.held.items) }
        ensures told { OnOk result (self.new.told.items ≡ self.old.told.items ++ self.old.held.items) }
        ensures ends { OnOk result (self.new.ends.items ≡ self.old.ends.items ++ length self.new.told.items ∷ []) }
        ensures none { OnOk result ((self.new.tickets.items ≡ []) × (self.new.held.items ≡ [])) }
        ensures err { OnErr result ((self.new ≡ self.old) × ((S.parts_of store.new).state ≡ (S.parts_of store.old).state)) }
        ensures unchanged { IfErr result (λ fault. fault ≢ commits.Device → S.parts_of store.new ≡ S.parts_of store.old) }
        ensures device { IsErrOf result commits.Device
            → ((S.parts_of store.new).dead ≡ true) × Rises (D.faults (S.parts_of store.old).disk) (D.faults (S.parts_of store.new).disk) }
        ensures dead { IsErrOf result commits.Dead → (S.parts_of store.old).dead ≡ true }
        ensures full { IsErrOf result commits.Full → IsFullIn (S.parts_of store.old).newest (S.parts_of store.old).end self.old.held.items }
        ensures old_version { IsErrOf result commits.OldVersion → Written (S.parts_of store.old).form (S.parts_of store.old).newest → ⊥ }
        ensures spent { IsErrOf result commits.GenerationsSpent → ⊥ }
    {
        store.add(alloc, &self.held)?;
        self.told.append(&mut self.held).unwrap();
        self.tickets.clear();
        self.ends.push(self.told.len()).unwrap();
        Ok(())
    }
}
