//! A board alone, whose receipts a row makes up.
ghost use Rattle.std.specs.Prelude.{◌≡◌, IfSome};

use crate::adding::add;
use crate::cleared::Cleared;
use crate::desk::Desk;
use crate::nodes::Nodes;
use crate::note::Note;
use crate::records::read_good;
use crate::script::lines;
use bd_ledger::Ticket;
use bd_links::Node;
use bd_lists::{Advanced, Clearance};
use byte_strings::ByteString;
use row_files::{Answered, RowFault, Words, World};
use st_records::Record;
use std::alloc::{AllocError, Global};

#[derive(Drop)]
pub struct Lists<'a> {
    pub desk: Desk<'a, Note>,
    pub clearances: Vec<Cleared>,
}

/// `NODE TICKET [as TARGET]`.
fn read_named(
    alloc: Global,
    nodes: &Nodes<'_>,
    words: &mut Words<'_>,
) -> Result<(Node, Ticket, ByteString), RowFault> {
    let node = nodes.next(words)?;
    let ticket = Ticket::new(words.number()?);
    let named = nodes.other(words, "as ", node)?;
    let target = nodes.target(alloc, named)?;
    Ok((node, ticket, target))
}

impl World for Lists<'_> {
    fn call(&mut self, alloc: Global, words: &mut Words<'_>, out: &mut String) -> Answered {
        match words.next() {
            "advance" => self.advance(alloc, words, out),
            "run" => self.run(alloc, words, out),
            "give_up" => self.give_up(words, out),
            name => self.desk.call(alloc, name, words, out),
        }
    }
}

impl Lists<'_> {
    /// `advance NODE TICKET [as TARGET] RECORD`: with the receipt of that record at that ticket.
    fn advance(&mut self, alloc: Global, words: &mut Words<'_>, out: &mut String) -> Answered {
        let (node, ticket, target) = read_named(alloc, &self.desk.nodes, words)?;
        let answer = self.answer(alloc, node, ticket, target, words)?;
        Ok(out.push_str(answer)?)
    }

    fn answer(
        &mut self,
        alloc: Global,
        node: Node,
        ticket: Ticket,
        target: ByteString,
        words: &mut Words<'_>,
    ) -> Result<&'static str, RowFault> {
        if words.rest == "begun" {
            return Ok(self.clear(alloc, node, ticket, target)?);
        }
        let noted = read_good(alloc, target, words)?;
        Ok(self.finish(node, Note { ticket, noted }))
    }

    /// Advances a node with the receipt of a 'begun'.
    fn clear(
        &mut self,
        alloc: Global,
        node: Node,
        ticket: Ticket,
        target: ByteString,
    ) -> Result<&'static str, AllocError> {
        let noted = Record::Begun {
            target: target.copy(alloc)?,
        };
        let (clearance, answer) = self.tell(node, Note { ticket, noted });
        if let Some(clearance) = clearance {
            let cleared = Cleared {
                node,
                clearance,
                target,
            };
            add(&mut self.clearances, cleared)?;
        }
        Ok(answer)
    }

    /// Advances a node with a receipt. The clearance that came, and what the row is answered.
    fn tell(&mut self, node: Node, told: Note) -> (Option<Clearance<Note>>, &'static str)
        ensures { IfSome result.0 (λ c. c.told ≡ told) }
    {
        match self.desk.board.advance(node, told) {
            Ok(Advanced::Cleared(clearance)) => (Some(clearance), "cleared"),
            Ok(Advanced::Settled(told)) => {
                drop(told);
                (None, "settled")
            }
            Err(told) => {
                drop(told);
                (None, "refused")
            }
        }
    }

    /// Advances a node with the receipt of another record.
    fn finish(&mut self, node: Node, told: Note) -> &'static str {
        let (clearance, answer) = self.tell(node, told);
        if let Some(clearance) = clearance {
            let _told = clearance.give_up();
        }
        answer
    }

    fn take(&mut self, node: Node) -> Result<Cleared, RowFault> {
        match self.clearances.iter().position(|held| held.node == node) {
            Some(place) => Ok(self.clearances.swap_remove(place)),
            None => Err(RowFault::Word),
        }
    }

    /// `run NODE [ignore] $ LINE $ ..`: with the clearance of the node. The run waits to be handed in.
    fn run(&mut self, alloc: Global, words: &mut Words<'_>, out: &mut String) -> Answered {
        let node = self.desk.nodes.next(words)?;
        let ignore = words.skip("ignore ");
        let lines = lines(alloc, words.rest)?;
        let run = self.take(node)?.run(alloc, lines, ignore, out)?;
        Ok(add(&mut self.desk.runs, run)?)
    }

    fn give_up(&mut self, words: &mut Words<'_>, out: &mut String) -> Answered {
        let node = self.desk.nodes.next(words)?;
        Ok(write!(out, "{}", self.take(node)?.give_up())?)
    }
}
