//! The board of a run that writes records as in version 2.

ghost use Rattle.std.specs.Prelude.{◌≡◌, ◌+◌, ◌<◌, ◌≤◌, ◌++◌, ℕ, true, false, IsTrue, MatchOption, IfOk, IfSome, IfErr, length, slice_get, vec_len, vec_capacity};
ghost use Rattle.st_records.specs.Limits.{IsGood};
ghost use Rattle.st_records.specs.declared.version.Version.TheVariants.{Two};
ghost use Rattle.mk_graph.specs.Edges.{row, times};
ghost use Rattle.bd_places.specs.declared.end.End.TheVariants.{Abandoned};
ghost use Rattle.bd_links.specs.declared.stand.Stand.TheVariants.{Running};
ghost use Rattle.bd_lists.specs.Admission.{run_of};
ghost use Rattle.bd_lists.specs.Board.{IsTaken, CanAdvance, Advances, IsUntouched, handed_out, end_noted};
ghost use Rattle.bd_places.specs.Placed.{waits_in, IsOpen};
ghost use Rattle.bd_places.specs.Settling.{end_of, is_free, IsStanding};
ghost use Rattle.bd_ledger.specs.Sheet.{first_sheet, nodes_on, AreDistinct, relisted, drained, submits, AreWritable, AreOf, SettlesOn};
ghost use Rattle.bd_links.specs.SixLists.{StandsIn};

use crate::Told;
use crate::board::{Advanced, BoardIn, Spent};
use bd_ledger::Ticket;
use bd_links::{Node, Stand};
use bd_places::End;
use byte_strings::ByteString;
use mk_graph::Edges;
use st_records::{Form, Record};
use std::alloc::{AllocError, Global};
use std::marker::Model;

/// Where the nodes of a graph stand. T is the receipts' type. No call takes memory.
pub struct Board<T> {
    board: BoardIn<T>,
}

impl<T> Model for Board<T> {
    ghost use Rattle.std.specs.Prelude.{◌≡◌};
    ghost use Rattle.st_records.specs.declared.version.Form.TheVariants.{Plain};
    ghost use Rattle.bd_ledger.specs.Sheet.{Sheet};

    ghost Value = { Sheet };

    ghost view = { λ b. b.board };

    ghost invariant = { λ b. b.board.form ≡ Plain };
}

impl<T> Drop for Board<T> {
    fn drop(self) {
        let Board { board: _ } = self;
    }
}

impl<T: Told> Board<T> {
    /// The board of nodes with these names, no two of them alike, and these prerequisites: those that they wait for, each once,
    /// and those without which they can't be made. Nodes that wait for nothing are in Ready, the others in Waiting.
    pub fn of(
        alloc: Global,
        counted: Edges,
        hard: Edges,
        names: Vec<ByteString>,
    ) -> Result<Board<T>, AllocError>
        requires nodes { length hard ≡ length counted }
        requires names { length names.items ≡ length counted }
        requires distinct { AreDistinct names.items }
        requires once { (u n : ℕ) → times n (row counted u) ≤ 1 }
        requires room { length counted + length counted + 6 ≤ usize.MAX }
        ensures { IfOk result (λ b. b ≡ first_sheet (record { counted = counted; hard = hard }) names.items) }
    {
        Ok(Board {
            board: BoardIn::of(alloc, Form::Plain, counted, hard, names)?,
        })
    }

    /// The front of Ready goes to the end of Running.
    pub fn claim(&mut self) -> Option<Node>
        ensures first { result ≡ slice_get self.old.standing.lists.ready 0 }
        ensures moved { MatchOption result (self.new ≡ self.old) (λ n. self.new ≡ relisted n Running self.old) }
        ensures free { IfSome result (λ n. is_free self.old.prerequisites self.old.standing n ≡ true) }
    {
        self.board.claim()
    }

    /// A node of Running submits a record, and goes to the end of Unflushed. A 'begun' comes first and with no run; an end
    /// with the run of the node's 'begun', whose receipt is handed out; a 'done' where that run came to its end, with the
    /// commands that were run. What isn't taken comes back, and nothing changes.
    pub fn submit(
        &mut self,
        node: Node,
        note: Record,
        run: Option<Spent<T>>,
    ) -> Result<(Ticket, Option<T>), (Record, Option<Spent<T>>)>
        requires { IsGood Two note }
        ensures ok { IfOk result (λ r. IsTaken self.old node note (run_of T.ticket_of run)
            × (r.0 ≡ self.old.submitted) × (r.1 ≡ handed_out run) × (self.new ≡ submits node note self.old)) }
        ensures err { IfErr result (λ r. (IsTaken self.old node note (run_of T.ticket_of run) → ⊥)
            × (r.0 ≡ note) × (r.1 ≡ run) × (self.new ≡ self.old)) }
    {
        self.board.submit(Form::Plain, node, note, run)
    }

    /// The list of a node, if there is such a node.
    pub fn stand(&self, node: Node) -> Option<Stand>
        ensures stand { MatchOption result (nodes_on self.now ≤ node) (λ s. (node < nodes_on self.now) × StandsIn self.now.standing.lists node s) }
        ensures standing { IsStanding self.now.prerequisites (nodes_on self.now) self.now.standing }
        ensures distinct { AreDistinct self.now.names }
    {
        self.board.stand(node)
    }

    /// How a node ended, if it has.
    pub fn end(&self, node: Node) -> Option<End>
        ensures { result ≡ end_of self.now.standing node }
    {
        self.board.end(node)
    }

    /// Whether Waiting or Ready holds a node.
    pub fn waits(&self) -> bool
        ensures { result ≡ waits_in self.now.standing.lists }
    {
        self.board.waits()
    }

    /// How many nodes Unflushed holds.
    pub fn unflushed(&self) -> usize
        ensures nodes { result ≡ length self.now.standing.lists.unflushed }
        ensures notes { result ≡ length self.now.notes }
    {
        self.board.unflushed()
    }

    /// All of Unflushed goes to the end of Flushing, and its records to the vector, each with its ticket. The vector
    /// doesn't grow.
    pub fn drain(&mut self, records: &mut Vec<(Ticket, Record)>)
        requires { vec_len records.old + length self.old.standing.lists.unflushed ≤ vec_capacity records.old }
        ensures drained { self.new ≡ drained self.old }
        ensures records { records.new.items ≡ records.old.items ++ self.old.notes }
        ensures capacity { vec_capacity records.new ≡ vec_capacity records.old }
        ensures own { AreOf self.old.names self.old.sent self.old.standing.lists.unflushed self.old.notes }
        ensures writable { AreWritable self.old.notes }
    {
        self.board.drain(records);
    }

    /// The record of a node of Flushing was written, as its receipt tells. Its recipe may be run then, or it settles. Another
    /// receipt comes back, and nothing changes.
    pub fn advance(&mut self, node: Node, told: T) -> Result<Advanced<T>, T>
        ensures ok { IfOk result (λ a. CanAdvance self.old node (T.ticket_of told) (T.noted_of told)
            × Advances self.old node told (end_noted (T.noted_of told)) a self.new) }
        ensures err { IfErr result (λ t. (CanAdvance self.old node (T.ticket_of told) (T.noted_of told) → ⊥)
            × (t ≡ told) × (self.new ≡ self.old)) }
    {
        self.board.advance(node, told)
    }

    /// A node of Running that has submitted nothing settles, where nothing had to be done.
    pub fn settle(&mut self, node: Node, end: End) -> bool
        ensures yes { IsTrue result → IsUntouched self.old node end × SettlesOn self.old node end self.new }
        ensures no { result ≡ false → (IsUntouched self.old node end → ⊥) × (self.new ≡ self.old) }
    {
        self.board.settle(node, end)
    }

    /// A node of Waiting, Ready, Running or Flushing settles as abandoned.
    pub fn abandon(&mut self, node: Node) -> bool
        ensures yes { IsTrue result → IsOpen self.old.standing.lists node × SettlesOn self.old node Abandoned self.new }
        ensures no { result ≡ false → (IsOpen self.old.standing.lists node → ⊥) × (self.new ≡ self.old) }
    {
        self.board.abandon(node)
    }
}
