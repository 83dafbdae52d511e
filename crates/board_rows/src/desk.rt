//! A board with the runs that wait to be handed in.
ghost use Rattle.st_records.specs.Limits.{IsGood};
ghost use Rattle.st_records.specs.declared.version.Version.TheVariants.{Two};

use crate::adding::add;
use crate::ends::{read_end, write_stand};
use crate::nodes::Nodes;
use crate::records::{write_record, write_records};
use crate::submission::{Submission, read_submission};
use bd_ledger::Ticket;
use bd_links::{Node, Stand};
use bd_lists::{Board, Spent, Told};
use bd_places::End;
use row_files::{Answered, RowFault, Words};
use st_records::Record;
use std::alloc::{AllocError, Global};

/// The most nodes that are emptied at once.
const MANY: usize = 10_000_000;

/// The tickets of a record that is taken, or the record and the run that aren't.
type Submitted<T> = Result<(Ticket, Option<Ticket>), (Record, Option<Spent<T>>)>;

/// A run of a node that is yet to be handed in.
pub struct Run<T: Drop> {
    pub node: Node,
    pub spent: Spent<T>,
}

impl<T: Drop> Run<T> {
    fn into_spent(self) -> Spent<T> {
        let Run { node: _, spent } = self;
        spent
    }
}

impl<T: Drop> Drop for Run<T> {
    fn drop(self) {
        let Run { node: _, spent } = self;
        let _told = spent.give_up();
    }
}

#[derive(Drop)]
pub struct Desk<'a, T: Told + Drop> {
    pub board: Board<T>,
    pub nodes: Nodes<'a>,
    pub runs: Vec<Run<T>>,
}

impl<T: Told + Drop> Desk<'_, T> {
    /// Answers a call that a board takes.
    pub fn call(
        &mut self,
        alloc: Global,
        name: &str,
        words: &mut Words<'_>,
        out: &mut String,
    ) -> Answered {
        match name {
            "claim" => self.claim(out),
            "submit" => self.submit(alloc, words, out),
            "drain" => self.drain(alloc, out),
            _ => self.call_on_node(name, words, out),
        }
    }

    fn call_on_node(&mut self, name: &str, words: &mut Words<'_>, out: &mut String) -> Answered {
        match name {
            "settle" => self.settle(words, out),
            "abandon" => self.abandon(words, out),
            "stand" => self.stand(words, out),
            "stands" => self.write_stands(out),
            "empty" => self.write_emptied(out),
            _ => Err(RowFault::Word),
        }
    }

    // The calls of many clauses stand here once, without them.
    pub fn claimed(&mut self) -> Option<Node> {
        self.board.claim()
    }

    fn settled(&mut self, node: Node, end: End) -> bool {
        self.board.settle(node, end)
    }

    fn abandoned(&mut self, node: Node) -> bool {
        self.board.abandon(node)
    }

    fn drained(&mut self, alloc: Global) -> Result<Vec<(Ticket, Record)>, AllocError> {
        let mut records = Vec::with_capacity(alloc, self.board.unflushed())?;
        self.board.drain(&mut records);
        Ok(records)
    }

    fn place(&self, node: Node) -> (Option<Stand>, Option<End>) {
        (self.board.stand(node), self.board.end(node))
    }

    fn claim(&mut self, out: &mut String) -> Answered {
        match self.claimed() {
            Some(node) => Ok(self.nodes.write(node, out)?),
            None => Ok(out.push_str("none")?),
        }
    }

    /// The run of a node, which is handed in with its next record.
    fn take_run(&mut self, node: Node) -> Option<Spent<T>> {
        let place = self.runs.iter().position(|run| run.node == node)?;
        Some(self.runs.swap_remove(place).into_spent())
    }

    /// `submit NODE [as TARGET] [by NODE] RECORD`: with the run of the node, or of another one.
    fn submit(&mut self, alloc: Global, words: &mut Words<'_>, out: &mut String) -> Answered {
        let Submission { node, by, note } = read_submission(alloc, &self.nodes, words)?;
        Ok(self.hand_in(node, note, by, out)?)
    }

    /// Submits a record. What isn't taken is written, and its run waits again.
    pub fn hand_in(
        &mut self,
        node: Node,
        note: Record,
        by: Node,
        out: &mut String,
    ) -> Result<(), AllocError>
        requires { IsGood Two note }
    {
        match self.submit_with(node, note, by) {
            Ok((ticket, told)) => write_ticket(ticket, told, out),
            Err((note, run)) => self.refuse(by, note, run, out),
        }
    }

    /// Submits a record with the run of a node. Its ticket and that of the receipt which it hands out, or both come back.
    fn submit_with(&mut self, node: Node, note: Record, by: Node) -> Submitted<T>
        requires { IsGood Two note }
    {
        let run = self.take_run(by);
        match submitted(&mut self.board, node, note, run) {
            Ok((ticket, told)) => Ok((ticket, ticket_of(told))),
            Err(kept) => Err(kept),
        }
    }

    fn refuse(
        &mut self,
        by: Node,
        note: Record,
        run: Option<Spent<T>>,
        out: &mut String,
    ) -> Result<(), AllocError> {
        let kept = self.keep_run(by, run);
        let written = write_refused(&note, out);
        drop(note);
        kept.and(written)
    }

    fn keep_run(&mut self, node: Node, run: Option<Spent<T>>) -> Result<(), AllocError> {
        match run {
            Some(spent) => add(&mut self.runs, Run { node, spent }),
            None => Ok(()),
        }
    }

    fn drain(&mut self, alloc: Global, out: &mut String) -> Answered {
        let records = self.drained(alloc)?;
        Ok(write_records(&records, out)?)
    }

    fn settle(&mut self, words: &mut Words<'_>, out: &mut String) -> Answered {
        let node = self.nodes.next(words)?;
        let end = read_end(words)?;
        let is_taken = self.settled(node, end);
        Ok(out.push_str(taken(is_taken))?)
    }

    fn abandon(&mut self, words: &mut Words<'_>, out: &mut String) -> Answered {
        let node = self.nodes.next(words)?;
        let is_taken = self.abandoned(node);
        Ok(out.push_str(taken(is_taken))?)
    }

    /// Claims and settles nodes until none is ready. How many there were.
    fn empty(&mut self) -> usize {
        for count in 0..MANY {
            match self.claimed() {
                Some(node) => {
                    if !self.settled(node, End::Remade) {
                        return count;
                    }
                }
                None => return count,
            }
        }
        MANY
    }

    fn write_emptied(&mut self, out: &mut String) -> Answered {
        let count = self.empty();
        Ok(write!(out, "{count}")?)
    }

    fn stand(&self, words: &mut Words<'_>, out: &mut String) -> Answered {
        let node = self.nodes.next(words)?;
        let (stand, end) = self.place(node);
        Ok(write_stand(stand, end, out)?)
    }

    /// Where each labelled node stands and two past the last, how many wait to be drained, and whether some wait or are ready.
    fn write_stands(&self, out: &mut String) -> Answered {
        let count = self.nodes.labels.len();
        for number in 0..count.saturating_add(2) {
            self.write_node(Node::new(number), number < count, out)?;
        }
        Ok(self.write_waiting(out)?)
    }

    fn write_waiting(&self, out: &mut String) -> Result<(), AllocError> {
        write!(out, "{} unflushed", self.board.unflushed())?;
        out.push_str(if self.board.waits() { ", waits" } else { "" })
    }

    /// Where a node stands, unless it is nowhere and isn't expected to be anywhere.
    fn write_node(
        &self,
        node: Node,
        is_expected: bool,
        out: &mut String,
    ) -> Result<(), AllocError> {
        let (stand, end) = self.place(node);
        if is_expected || stand.is_some() || end.is_some() {
            self.nodes.write(node, out)?;
            out.push_str(" ")?;
            write_stand(stand, end, out)?;
            out.push_str(", ")?;
        }
        Ok(())
    }
}

fn submitted<T: Told + Drop>(
    board: &mut Board<T>,
    node: Node,
    note: Record,
    run: Option<Spent<T>>,
) -> Result<(Ticket, Option<T>), (Record, Option<Spent<T>>)>
    requires { IsGood Two note }
{
    board.submit(node, note, run)
}

fn taken(is_taken: bool) -> &'static str {
    if is_taken { "taken" } else { "refused" }
}

fn ticket_of<T: Told + Drop>(told: Option<T>) -> Option<Ticket> {
    match told {
        Some(told) => Some(told.ticket()),
        None => None,
    }
}

fn write_refused(note: &Record, out: &mut String) -> Result<(), AllocError> {
    out.push_str("refused ")?;
    write_record(note, out)
}

/// The ticket of a submission, and that of the receipt that it hands out.
fn write_ticket(
    ticket: Ticket,
    handed_out: Option<Ticket>,
    out: &mut String,
) -> Result<(), AllocError> {
    write!(out, "{}", ticket.number())?;
    match handed_out {
        Some(ticket) => write!(out, ", hands out {}", ticket.number()),
        None => Ok(()),
    }
}
