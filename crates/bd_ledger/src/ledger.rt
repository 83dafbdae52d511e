//! The moves of a board, and what it keeps beside the lists.

ghost use Rattle.std.specs.Prelude.{◌≡◌, ◌↔◌, ℕ, ◌+◌, ◌<◌, ◌≤◌, [], ◌++◌, true, IfOk, IfSome, replicate, IsTrue, MatchOption, length, slice_get, vec_len, vec_capacity};
ghost use Rattle.st_records.specs.Parts.{target_of};
ghost use Rattle.mk_graph.specs.Edges.{row, has, times};
ghost use Rattle.bd_ledger.specs.declared.sent.Sent.TheVariants as sent;
ghost use Rattle.bd_links.specs.declared.stand.Stand.TheVariants.{Running};
ghost use Rattle.bd_places.specs.Placed.{waits_in, is_open, IsOpen};
ghost use Rattle.bd_places.specs.Settling.{end_of, is_free, IsStanding};
ghost use Rattle.bd_ledger.specs.Sheet.{first_sheet_in, nodes_on, name_of, AreDistinct, sent_by, relisted, drained, sent_with, sent_count, submits, IsWritableIn, AreWritableIn, AreOf, SettlesOn};
ghost use Rattle.bd_links.specs.SixLists.{code, list_in, StandsIn};

use crate::{Sent, Ticket};
use bd_links::{Node, Stand};
use bd_places::{End, Places};
use byte_strings::ByteString;
use mk_graph::Edges;
use st_records::{Form, Record};
use std::alloc::{AllocError, Global};
use std::marker::Model;

/// A board without the type of its receipts. No call takes memory.
pub struct Ledger {
    form: Form,
    places: Places,
    names: Vec<ByteString>,
    sent: Vec<Sent>,
    /// The records of Unflushed in its order.
    notes: Vec<(Ticket, Record)>,
    submitted: usize,
}

impl Model for Ledger {
    ghost use Rattle.bd_ledger.specs.Sheet.{Sheet};

    ghost Value = { Sheet };

    ghost use Rattle.bd_ledger.specs.Ledger.{sheet_of, IsLedger};

    ghost view = { sheet_of };

    ghost invariant = { IsLedger };
}

impl Drop for Ledger {
    fn drop(self) {
        let Ledger {
            form: _,
            places: _,
            names: _,
            sent: _,
            notes: _,
            submitted: _,
        } = self;
    }
}

/// What a node has submitted once it submits a record with this ticket.
fn sent_with(note: &Record, ticket: Ticket) -> Sent
    ensures { result ≡ sent_with note.now ticket }
{
    match note {
        Record::Begun { .. } => Sent::Begun(ticket),
        Record::Done { .. } | Record::Failed { .. } => Sent::End(ticket),
        Record::Kept { .. } => Sent::Nothing,
    }
}

/// The number of a list.
fn code(list: Stand) -> usize
    ensures { result ≡ code list }
{
    match list {
        Stand::Waiting => 0,
        Stand::Ready => 1,
        Stand::Running => 2,
        Stand::Unflushed => 3,
        Stand::Flushing => 4,
        Stand::Settled => 5,
    }
}

/// Whether the nodes of a list can settle: a record in Unflushed is drained first.
fn is_open(list: Stand) -> bool
    ensures { result ≡ is_open list }
{
    !matches!(list, Stand::Unflushed | Stand::Settled)
}

fn nothing_sent(alloc: Global, nodes: usize) -> Result<Vec<Sent>, AllocError>
    ensures { IfOk result (λ v. v.items ≡ replicate nodes sent.Nothing) }
{
    Ok(vec![in alloc; Sent::Nothing; nodes]?)
}

/// Moves all records of one vector to the end of another, which has the room for them. Neither grows.
fn hand_over(notes: &mut Vec<(Ticket, Record)>, records: &mut Vec<(Ticket, Record)>)
    requires { vec_len records.old + vec_len notes.old ≤ vec_capacity records.old }
    ensures records { records.new.items ≡ records.old.items ++ notes.old.items }
    ensures notes { notes.new.items ≡ [] }
    ensures capacity { vec_capacity records.new ≡ vec_capacity records.old }
    ensures notes_capacity { vec_capacity notes.new ≡ vec_capacity notes.old }
{
    for note in notes.drain(..) {
        records.push_reserved(note);
    }
}

impl Ledger {
    /// The nodes that wait for nothing in Ready, the others in Waiting. Records of this form are submitted.
    pub fn new(
        alloc: Global,
        form: Form,
        counted: Edges,
        hard: Edges,
        names: Vec<ByteString>,
    ) -> Result<Ledger, AllocError>
        requires nodes { length hard ≡ length counted }
        requires names { length names.items ≡ length counted }
        requires distinct { AreDistinct names.items }
        requires once { (u n : ℕ) → times n (row counted u) ≤ 1 }
        requires room { length counted + length counted + 6 ≤ usize.MAX }
        ensures { IfOk result (λ l. l ≡ first_sheet_in form (record { counted = counted; hard = hard }) names.items) }
    {
        let nodes = counted.len();
        Ok(Ledger {
            form,
            places: Places::new(alloc, counted, hard)?,
            names,
            sent: nothing_sent(alloc, nodes)?,
            notes: Vec::with_capacity(alloc, nodes)?,
            submitted: 0,
        })
    }

    /// The form of the records that are submitted.
    pub fn form(&self) -> Form
        ensures { result ≡ self.now.form }
    {
        self.form
    }

    /// The list of a node, if there is such a node.
    pub fn stand(&self, node: Node) -> Option<Stand>
        ensures stand { MatchOption result (nodes_on self.now ≤ node) (λ s. (node < nodes_on self.now) × StandsIn self.now.standing.lists node s) }
        ensures standing { IsStanding self.now.prerequisites (nodes_on self.now) self.now.standing }
        ensures distinct { AreDistinct self.now.names }
    {
        self.places.stand(node)
    }

    /// How a node ended, if it has.
    pub fn end(&self, node: Node) -> Option<End>
        ensures { result ≡ end_of self.now.standing node }
    {
        self.places.end(node)
    }

    /// Whether Waiting or Ready holds a node.
    pub fn waits(&self) -> bool
        ensures { result ≡ waits_in self.now.standing.lists }
    {
        self.places.waits()
    }

    /// How many nodes Unflushed holds.
    pub fn unflushed(&self) -> usize
        ensures nodes { result ≡ length self.now.standing.lists.unflushed }
        ensures notes { result ≡ length self.now.notes }
    {
        self.notes.len()
    }

    /// Whether a node is in a list.
    pub fn is_in(&self, node: Node, list: Stand) -> bool
        ensures is { result ≡ has (list_in self.now.standing.lists list) node }
        ensures below { IsTrue result → node < nodes_on self.now }
    {
        match self.places.stand(node) {
            Some(stand) => code(stand) == code(list),
            None => false,
        }
    }

    /// Whether a node can settle: it isn't in Unflushed, nor settled.
    pub fn is_open(&self, node: Node) -> bool
        ensures { IsTrue result ↔ IsOpen self.now.standing.lists node }
    {
        match self.places.stand(node) {
            Some(stand) => is_open(stand),
            None => false,
        }
    }

    /// What a node has submitted.
    pub fn sent(&self, node: Node) -> Sent
        requires { node < nodes_on self.now }
        ensures { result ≡ sent_by self.now node }
    {
        self.sent[node.number()]
    }

    /// The name of a node.
    pub fn name(&self, node: Node) -> &ByteString
        requires { node < nodes_on self.now }
        ensures { result.now ≡ name_of self.now node }
    {
        &self.names[node.number()]
    }

    /// The front of Ready goes to the end of Running.
    pub fn claim(&mut self) -> Option<Node>
        ensures first { result ≡ slice_get self.old.standing.lists.ready 0 }
        ensures moved { MatchOption result (self.new ≡ self.old) (λ n. self.new ≡ relisted n Running self.old) }
        ensures free { IfSome result (λ n. is_free self.old.prerequisites self.old.standing n ≡ true) }
    {
        let node = self.places.front()?;
        self.places.put(node, Stand::Running);
        Some(node)
    }

    /// A node that has begun to be made, and isn't in Unflushed, goes back to the end of Running.
    pub fn run(&mut self, node: Node)
        requires { has self.old.standing.lists.flushing node ≡ true }
        ensures { self.new ≡ relisted node Running self.old }
    {
        self.places.put(node, Stand::Running);
    }

    /// A node of Running submits a record of the ledger's form: a 'begun' first, then an end.
    pub fn submit(&mut self, node: Node, note: Record) -> Ticket
        requires runs { has self.old.standing.lists.running node ≡ true }
        requires own { target_of note ≡ name_of self.old node }
        requires writable { IsWritableIn self.old.form note }
        requires turn { sent_count (sent_with note self.old.submitted) ≡ sent_count (sent_by self.old node) + 1 }
        ensures ticket { result ≡ self.old.submitted }
        ensures submits { self.new ≡ submits node note self.old }
    {
        let ticket = Ticket::new(self.submitted);
        self.places.put(node, Stand::Unflushed);
        self.sent[node.number()] = sent_with(&note, ticket);
        self.notes.push((ticket, note)).unwrap();
        self.submitted += 1;
        ticket
    }

    /// All of Unflushed goes to the end of Flushing, and its records to the vector, which doesn't grow.
    pub fn drain(&mut self, records: &mut Vec<(Ticket, Record)>)
        requires { vec_len records.old + length self.old.standing.lists.unflushed ≤ vec_capacity records.old }
        ensures drained { self.new ≡ drained self.old }
        ensures records { records.new.items ≡ records.old.items ++ self.old.notes }
        ensures capacity { vec_capacity records.new ≡ vec_capacity records.old }
        ensures own { AreOf self.old.names self.old.sent self.old.standing.lists.unflushed self.old.notes }
        ensures writable { AreWritableIn self.old.form self.old.notes }
    {
        if self.notes.is_empty() {
            return;
        }
        hand_over(&mut self.notes, records);
        self.places.join();
    }

    /// Settles a node that isn't in Unflushed, and with it what it frees and can't be made.
    pub fn settle(&mut self, node: Node, end: End)
        requires { IsOpen self.old.standing.lists node }
        ensures { SettlesOn self.old node end self.new }
    {
        self.places.settle(node, end);
    }
}
