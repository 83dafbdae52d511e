//! A board with the site that is told its records.
ghost use Rattle.std.specs.Prelude.{IfOk};
ghost use Rattle.st_records.specs.Limits.{IsGood};
ghost use Rattle.st_records.specs.declared.version.Version.TheVariants.{Two};

use crate::site_calls::{flushed, looked, taken_in, tidied};
use crate::store::{OverMemory, known_after_cuts, recovered, site, write_recovered, write_state};
use bd_flusher::{FlushFault, Receipt, Site};
use bd_ledger::Ticket;
use bd_links::Node;
use bd_lists::Board;
use board_rows::{Desk, Nodes, read_good};
use row_files::{Answered, RowFault, Words, World};
use st_disk::{Disk, Which};
use st_memory::MemDisk;
use st_records::Record;
use std::alloc::{AllocError, Global};

#[derive(Drop)]
pub(crate) struct Pair<'a, D: Disk + Drop> {
    pub(crate) desk: Desk<'a, Receipt>,
    pub(crate) site: Site<D>,
    /// After how many calls the disk stops.
    pub(crate) stop: u64,
}

impl<D: Disk + Drop + OverMemory> World for Pair<'_, D> {
    fn call(&mut self, alloc: Global, words: &mut Words<'_>, out: &mut String) -> Answered {
        match words.next() {
            "begin" => self.begin(alloc, words, out),
            "look" => self.look(alloc, words, out),
            name => self.change(alloc, name, words, out),
        }
    }
}

impl<D: Disk + Drop + OverMemory> Pair<'_, D> {
    /// Answers a call that changes the site, or one of the others.
    fn change(
        &mut self,
        alloc: Global,
        name: &str,
        words: &mut Words<'_>,
        out: &mut String,
    ) -> Answered {
        match name {
            "take_in" => self.take_in(alloc, out),
            "elsewhere" => self.take_elsewhere(alloc, out),
            "flush" => self.flush(alloc, out),
            "tidy" => self.tidy(alloc, out),
            _ => self.ask(alloc, name, words, out),
        }
    }

    /// Answers a call that only reads, or one of the board.
    fn ask(
        &mut self,
        alloc: Global,
        name: &str,
        words: &mut Words<'_>,
        out: &mut String,
    ) -> Answered {
        match name {
            "told" => self.write_told(out),
            "open" => self.open_side(out),
            "known" => self.write_known(out),
            "state" => self.write_state(alloc, out),
            _ => self.ask_disk(alloc, name, words, out),
        }
    }

    fn ask_disk(
        &mut self,
        alloc: Global,
        name: &str,
        words: &mut Words<'_>,
        out: &mut String,
    ) -> Answered {
        match name {
            "side" => self.side(words, out),
            "calls" => self.calls(out),
            "cut" => self.cut(alloc, out),
            "recovered" => self.write_recovered(alloc, out),
            "recover" => write_recovered(alloc, self.memory(), out),
            _ => self.desk.call(alloc, name, words, out),
        }
    }

    fn memory(&self) -> &MemDisk {
        self.site.store().log.disk.memory()
    }

    fn write_told(&self, out: &mut String) -> Answered {
        Ok(write!(out, "{}", self.site.told().len())?)
    }

    fn write_known(&self, out: &mut String) -> Answered {
        Ok(write!(out, "{}", self.site.store().state().len())?)
    }

    fn write_state(&self, alloc: Global, out: &mut String) -> Answered {
        Ok(write_state(alloc, self.site.store().state(), out)?)
    }

    fn write_recovered(&self, alloc: Global, out: &mut String) -> Answered {
        let count = recovered(alloc, self.memory())?;
        Ok(write!(out, "{count}")?)
    }

    /// `begin N`: claims the next N nodes and submits their 'begun's.
    fn begin(&mut self, alloc: Global, words: &mut Words<'_>, out: &mut String) -> Answered {
        for count in 0..words.number()? {
            if count > 0 {
                out.push_str(" ")?;
            }
            self.begin_next(alloc, out)?;
        }
        Ok(())
    }

    fn begin_next(&mut self, alloc: Global, out: &mut String) -> Answered {
        match self.desk.claimed() {
            Some(node) => self.begin_node(alloc, node, out),
            None => Ok(out.push_str("none")?),
        }
    }

    fn begin_node(&mut self, alloc: Global, node: Node, out: &mut String) -> Answered {
        let note = begun(alloc, &self.desk.nodes, node)?;
        Ok(self.desk.hand_in(node, note, node, out)?)
    }

    /// `look NODE TICKET RECORD`: the batch of the record, where it was told at the ticket.
    fn look(&mut self, alloc: Global, words: &mut Words<'_>, out: &mut String) -> Answered {
        let (ticket, note) = read_told(alloc, &self.desk.nodes, words)?;
        Ok(write_batch(self.batch(ticket, note), out)?)
    }

    fn batch(&self, ticket: Ticket, note: Record) -> Option<usize> {
        match looked(&self.site, ticket, note) {
            Ok(receipt) => Some(receipt.batch()),
            Err(note) => {
                drop(note);
                None
            }
        }
    }

    fn take_in(&mut self, alloc: Global, out: &mut String) -> Answered {
        write_answer(taken_in(alloc, &mut self.site, &mut self.desk.board), out)
    }

    /// Another site takes in what waits.
    fn take_elsewhere(&mut self, alloc: Global, out: &mut String) -> Answered {
        take_into(alloc, MemDisk::new(alloc), &mut self.desk.board, out)
    }

    fn flush(&mut self, alloc: Global, out: &mut String) -> Answered {
        write_answer(flushed(alloc, &mut self.site), out)
    }

    fn tidy(&mut self, alloc: Global, out: &mut String) -> Answered {
        write_answer(tidied(alloc, &mut self.site), out)
    }

    /// The bytes of a side.
    fn side(&self, words: &mut Words<'_>, out: &mut String) -> Answered {
        let side = match words.next() {
            "a" => Which::A,
            "b" => Which::B,
            _ => return Err(RowFault::Word),
        };
        Ok(write_hex(self.memory().bytes(side), out)?)
    }

    /// The open side, its version and its generation.
    fn open_side(&self, out: &mut String) -> Answered {
        let log = &self.site.store().log;
        Ok(write!(out, "{:?} {:?} {}", log.side, log.version, log.generation)?)
    }

    /// How many calls of the disk there were up to its stop, and how many were refused.
    fn calls(&self, out: &mut String) -> Answered {
        let disk = &self.site.store().log.disk;
        let made = self.stop.saturating_sub(disk.calls_left());
        Ok(write!(out, "{made}, {} refused", disk.refused())?)
    }

    fn cut(&self, alloc: Global, out: &mut String) -> Answered {
        let (least, most) = known_after_cuts(alloc, self.memory())?;
        Ok(write!(out, "{least} to {most}")?)
    }
}

/// The site of a disk takes in what waits.
fn take_into<D: Disk + Drop>(
    alloc: Global,
    disk: D,
    board: &mut Board<Receipt>,
    out: &mut String,
) -> Answered {
    let mut site = site(alloc, disk)?;
    let answer = taken_in(alloc, &mut site, board);
    drop(site);
    write_answer(answer, out)
}

fn begun(alloc: Global, nodes: &Nodes<'_>, node: Node) -> Result<Record, RowFault>
    ensures { IfOk result (IsGood Two) }
{
    let target = nodes.target(alloc, node)?;
    read_good(alloc, target, &mut Words { rest: "begun" })
}

/// `NODE TICKET RECORD`.
fn read_told(
    alloc: Global,
    nodes: &Nodes<'_>,
    words: &mut Words<'_>,
) -> Result<(Ticket, Record), RowFault> {
    let node = nodes.next(words)?;
    let ticket = Ticket::new(words.number()?);
    let target = nodes.target(alloc, node)?;
    let note = read_good(alloc, target, words)?;
    Ok((ticket, note))
}

fn write_batch(batch: Option<usize>, out: &mut String) -> Result<(), AllocError> {
    match batch {
        Some(batch) => write!(out, "batch {batch}"),
        None => out.push_str("none"),
    }
}

fn write_hex(bytes: &[u8], out: &mut String) -> Result<(), AllocError> {
    for byte in bytes {
        write!(out, "{byte:02x}")?;
    }
    Ok(())
}

fn write_answer(answer: Result<(), FlushFault>, out: &mut String) -> Answered {
    match answer {
        Ok(()) => Ok(out.push_str("ok")?),
        Err(fault) => Ok(write!(out, "{fault:?}")?),
    }
}
