//! A board of records of some form, and what boards hand out.

ghost use Rattle.std.specs.Prelude.{◌≡◌, ◌↔◌, ℕ, ◌+◌, ◌<◌, ◌≤◌, ◌++◌, true, false, IsTrue, MatchOption, IfOk, IfSome, IfErr, length, slice_get, vec_len, vec_capacity};
ghost use Rattle.st_records.specs.declared.record.Record.{Record};
ghost use Rattle.st_records.specs.Limits.{IsGoodIn};
ghost use Rattle.mk_graph.specs.Edges.{row, times};
ghost use Rattle.bd_places.specs.declared.end.End.TheVariants.{Abandoned};
ghost use Rattle.bd_links.specs.declared.stand.Stand.TheVariants.{Running};
ghost use Rattle.bd_lists.specs.Admission.{run_of};
ghost use Rattle.bd_lists.specs.Board.{IsTaken, IsTakenIn, CanAdvance, Advances, IsUntouched, handed_out, end_noted};
ghost use Rattle.bd_places.specs.Placed.{waits_in, IsOpen};
ghost use Rattle.bd_places.specs.Settling.{end_of, is_free, IsStanding};
ghost use Rattle.bd_ledger.specs.Sheet.{first_sheet_in, nodes_on, AreDistinct, relisted, drained, submits, is_kept, is_quiet, last_ticket, AreWritableIn, AreOf, SettlesOn};
ghost use Rattle.bd_links.specs.SixLists.{StandsIn};

mod admission;
mod clearance;

use crate::Told;
use admission::may_send;
use bd_ledger::{Ledger, Sent, Ticket};
use bd_links::{Node, Stand};
use bd_places::End;
use byte_strings::ByteString;
pub use clearance::{Clearance, Spent};
use mk_graph::Edges;
use st_records::{Form, Record};
use std::alloc::{AllocError, Global};
use std::marker::{Model, PhantomData};

/// A `Board` whose nodes submit records of this form.
pub struct BoardIn<T> {
    ledger: Ledger,
    receipts: PhantomData<T>,
}

impl<T> Model for BoardIn<T> {
    ghost use Rattle.bd_ledger.specs.Sheet.{Sheet};

    ghost Value = { Sheet };

    ghost view = { λ b. b.ledger };
}

impl<T> Drop for BoardIn<T> {
    fn drop(self) {
        let BoardIn {
            ledger: _,
            receipts: _,
        } = self;
    }
}

/// What became of a node whose record was written.
pub enum Advanced<T> {
    /// Its recipe may be run.
    Cleared(Clearance<T>),
    /// It has settled.
    Settled(T),
}

/// The ticket of the last record of a node that has submitted so much.
fn last_ticket(sent: Sent) -> Option<Ticket>
    ensures { result ≡ last_ticket sent }
{
    match sent {
        Sent::Nothing => None,
        Sent::Begun(ticket) | Sent::End(ticket) => Some(ticket),
    }
}

fn is_kept(note: &Record) -> bool
    ensures { result ≡ is_kept note.now }
{
    matches!(note, Record::Kept { .. })
}

/// How a node ended whose record is that. None where its recipe is yet to be run.
fn end_noted(note: &Record) -> Option<End>
    ensures { result ≡ end_noted note.now }
{
    match note {
        Record::Begun { .. } | Record::Kept { .. } => None,
        Record::Done { .. } => Some(End::Built),
        Record::Failed { status, .. } => Some(End::Failed(*status)),
    }
}

fn is_quiet(end: End) -> bool
    ensures { result ≡ is_quiet end }
{
    matches!(end, End::UpToDate | End::Remade)
}

/// The receipt of a run.
fn hand_out<T>(run: Option<Spent<T>>) -> Option<T>
    ensures { result ≡ handed_out run }
{
    match run {
        Some(spent) => Some(spent.give_up()),
        None => None,
    }
}

impl<T: Told> BoardIn<T> {
    /// As `Board::of`, for records of a form.
    pub fn of(
        alloc: Global,
        form: Form,
        counted: Edges,
        hard: Edges,
        names: Vec<ByteString>,
    ) -> Result<BoardIn<T>, AllocError>
        requires nodes { length hard ≡ length counted }
        requires names { length names.items ≡ length counted }
        requires distinct { AreDistinct names.items }
        requires once { (u n : ℕ) → times n (row counted u) ≤ 1 }
        requires room { length counted + length counted + 6 ≤ usize.MAX }
        ensures { IfOk result (λ b. b ≡ first_sheet_in form (record { counted = counted; hard = hard }) names.items) }
    {
        Ok(BoardIn {
            ledger: Ledger::new(alloc, form, counted, hard, names)?,
            receipts: PhantomData,
        })
    }

    /// The form of the records that nodes submit.
    pub fn form(&self) -> Form
        ensures { result ≡ self.now.form }
    {
        self.ledger.form()
    }

    /// As `Board::claim`.
    pub fn claim(&mut self) -> Option<Node>
        ensures first { result ≡ slice_get self.old.standing.lists.ready 0 }
        ensures moved { MatchOption result (self.new ≡ self.old) (λ n. self.new ≡ relisted n Running self.old) }
        ensures free { IfSome result (λ n. is_free self.old.prerequisites self.old.standing n ≡ true) }
    {
        self.ledger.claim()
    }

    /// Whether a node may submit a record with this run.
    fn takes(&self, node: Node, note: &Record, run: &Option<Spent<T>>) -> bool
        ensures { IsTrue result ↔ IsTaken self.now node note.now (run_of T.ticket_of run.now) }
    {
        self.ledger.is_in(node, Stand::Running)
            && note.target() == self.ledger.name(node)
            && may_send(self.ledger.sent(node), note, run)
    }

    /// As `Board::submit`, of a record of a form: a board of another form takes none.
    pub fn submit(
        &mut self,
        form: Form,
        node: Node,
        note: Record,
        run: Option<Spent<T>>,
    ) -> Result<(Ticket, Option<T>), (Record, Option<Spent<T>>)>
        requires { IsGoodIn form note }
        ensures ok { IfOk result (λ r. IsTakenIn form self.old node note (run_of T.ticket_of run)
            × (r.0 ≡ self.old.submitted) × (r.1 ≡ handed_out run) × (self.new ≡ submits node note self.old)) }
        ensures err { IfErr result (λ r. (IsTakenIn form self.old node note (run_of T.ticket_of run) → ⊥)
            × (r.0 ≡ note) × (r.1 ≡ run) × (self.new ≡ self.old)) }
    {
        if self.form() != form || !self.takes(node, &note, &run) {
            return Err((note, run));
        }
        let ticket = self.ledger.submit(node, note);
        Ok((ticket, hand_out(run)))
    }

    /// As `Board::stand`.
    pub fn stand(&self, node: Node) -> Option<Stand>
        ensures stand { MatchOption result (nodes_on self.now ≤ node) (λ s. (node < nodes_on self.now) × StandsIn self.now.standing.lists node s) }
        ensures standing { IsStanding self.now.prerequisites (nodes_on self.now) self.now.standing }
        ensures distinct { AreDistinct self.now.names }
    {
        self.ledger.stand(node)
    }

    /// As `Board::end`.
    pub fn end(&self, node: Node) -> Option<End>
        ensures { result ≡ end_of self.now.standing node }
    {
        self.ledger.end(node)
    }

    /// As `Board::waits`.
    pub fn waits(&self) -> bool
        ensures { result ≡ waits_in self.now.standing.lists }
    {
        self.ledger.waits()
    }

    /// As `Board::unflushed`.
    pub fn unflushed(&self) -> usize
        ensures nodes { result ≡ length self.now.standing.lists.unflushed }
        ensures notes { result ≡ length self.now.notes }
    {
        self.ledger.unflushed()
    }

    /// As `Board::drain`.
    pub fn drain(&mut self, records: &mut Vec<(Ticket, Record)>)
        requires { vec_len records.old + length self.old.standing.lists.unflushed ≤ vec_capacity records.old }
        ensures drained { self.new ≡ drained self.old }
        ensures records { records.new.items ≡ records.old.items ++ self.old.notes }
        ensures capacity { vec_capacity records.new ≡ vec_capacity records.old }
        ensures own { AreOf self.old.names self.old.sent self.old.standing.lists.unflushed self.old.notes }
        ensures writable { AreWritableIn self.old.form self.old.notes }
    {
        self.ledger.drain(records);
    }

    /// Whether a receipt is of the last record of a node of Flushing.
    fn can_advance(&self, node: Node, told: &T) -> bool
        ensures { IsTrue result ↔ CanAdvance self.now node (T.ticket_of told.now) (T.noted_of told.now) }
    {
        self.ledger.is_in(node, Stand::Flushing)
            && last_ticket(self.ledger.sent(node)) == Some(told.ticket())
            && !is_kept(told.noted())
    }

    /// As `Board::advance`.
    pub fn advance(&mut self, node: Node, told: T) -> Result<Advanced<T>, T>
        ensures ok { IfOk result (λ a. CanAdvance self.old node (T.ticket_of told) (T.noted_of told)
            × Advances self.old node told (end_noted (T.noted_of told)) a self.new) }
        ensures err { IfErr result (λ t. (CanAdvance self.old node (T.ticket_of told) (T.noted_of told) → ⊥)
            × (t ≡ told) × (self.new ≡ self.old)) }
    {
        if !self.can_advance(node, &told) {
            return Err(told);
        }
        match end_noted(told.noted()) {
            Some(end) => {
                self.ledger.settle(node, end);
                Ok(Advanced::Settled(told))
            }
            None => {
                self.ledger.run(node);
                Ok(Advanced::Cleared(Clearance { told }))
            }
        }
    }

    fn is_untouched(&self, node: Node, end: End) -> bool
        ensures { IsTrue result ↔ IsUntouched self.now node end }
    {
        self.ledger.is_in(node, Stand::Running)
            && matches!(self.ledger.sent(node), Sent::Nothing)
            && is_quiet(end)
    }

    /// As `Board::settle`.
    pub fn settle(&mut self, node: Node, end: End) -> bool
        ensures yes { IsTrue result → IsUntouched self.old node end × SettlesOn self.old node end self.new }
        ensures no { result ≡ false → (IsUntouched self.old node end → ⊥) × (self.new ≡ self.old) }
    {
        if !self.is_untouched(node, end) {
            return false;
        }
        self.ledger.settle(node, end);
        true
    }

    /// As `Board::abandon`.
    pub fn abandon(&mut self, node: Node) -> bool
        ensures yes { IsTrue result → IsOpen self.old.standing.lists node × SettlesOn self.old node Abandoned self.new }
        ensures no { result ≡ false → (IsOpen self.old.standing.lists node → ⊥) × (self.new ≡ self.old) }
    {
        if !self.ledger.is_open(node) {
            return false;
        }
        self.ledger.settle(node, End::Abandoned);
        true
    }
}
