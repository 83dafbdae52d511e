//! What a row begins with.
use crate::pair::Pair;
use crate::store::{Tried, site};
use bd_flusher::Site;
use bd_lists::{Board, Told};
use board_rows::{Desk, Graph, Lists, Nodes};
use row_files::{Answered, Calls, Report, RowFault, Setup, Words, read_hex};
use st_doubles::{FailOnce, Fuse};
use st_memory::MemDisk;
use std::alloc::{AllocError, Global};

/// More calls of a disk than any row makes.
const MANY: u64 = 1_000_000;

/// The lines of a row before its first call.
#[derive(Drop)]
pub(crate) struct BoardSetup<'a> {
    /// The lines of nodes, behind their first word.
    nodes: Vec<&'a str>,
    chain: usize,
    layers: usize,
    times: usize,
    has_site: bool,
    a: Vec<u8>,
    b: Vec<u8>,
    stop: u64,
    fail: u64,
}

impl<'a> Setup<'a> for BoardSetup<'a> {
    fn new(alloc: Global) -> BoardSetup<'a> {
        BoardSetup {
            nodes: Vec::new(alloc),
            chain: 0,
            layers: 0,
            times: 1,
            has_site: false,
            a: Vec::new(alloc),
            b: Vec::new(alloc),
            stop: MANY,
            fail: MANY,
        }
    }

    fn takes(&mut self, _alloc: Global, line: &'a str) -> Result<bool, RowFault> {
        let mut words = Words { rest: line };
        match words.next() {
            "node" => self.nodes.push(words.rest)?,
            "site" => self.has_site = true,
            name => return self.takes_number(name, &mut words),
        }
        Ok(true)
    }

    /// Calls the board alone, or the board with its site.
    fn are_met(
        &mut self,
        alloc: Global,
        calls: &Calls<'a>,
        report: &mut Report<'_>,
    ) -> Result<bool, RowFault> {
        if self.has_site {
            self.are_met_by_pair(alloc, calls, report)
        } else {
            self.are_met_by_lists(alloc, calls, report)
        }
    }
}

/// The label of a node's line.
fn label_of<'a>(line: &'a str) -> Result<&'a str, RowFault> {
    match line.split_once(':') {
        Some((label, _edges)) => Ok(label),
        None => Err(RowFault::Word),
    }
}

impl<'a> BoardSetup<'a> {
    /// Takes a number of the graph, or a line of the disk.
    fn takes_number(&mut self, name: &str, words: &mut Words<'_>) -> Result<bool, RowFault> {
        match name {
            "chain" => self.chain = words.number()?,
            "layers" => self.layers = words.number()?,
            "long" => self.times = words.number()?,
            _ => return self.takes_disk(name, words),
        }
        Ok(true)
    }

    /// Takes a line of the disk.
    fn takes_disk(&mut self, name: &str, words: &mut Words<'_>) -> Result<bool, RowFault> {
        match name {
            "disk" => self.take_side(words)?,
            "stop" => self.stop = words.number()? as u64,
            "fail" => self.fail = words.number()? as u64,
            _ => return Ok(false),
        }
        Ok(true)
    }

    fn take_side(&mut self, words: &mut Words<'_>) -> Answered {
        match words.next() {
            "a" => read_hex(&mut self.a, words.rest),
            "b" => read_hex(&mut self.b, words.rest),
            _ => Err(RowFault::Word),
        }
    }

    fn labels(&self, alloc: Global) -> Result<Vec<&'a str>, RowFault> {
        let mut labels = Vec::new(alloc);
        for line in &self.nodes {
            labels.push(label_of(line)?)?;
        }
        Ok(labels)
    }

    fn graph(&self, alloc: Global, nodes: &Nodes<'a>) -> Result<Graph, RowFault> {
        let mut graph = Graph::new(alloc);
        self.fill(alloc, nodes, &mut graph)?;
        Ok(graph)
    }

    fn fill(&self, alloc: Global, nodes: &Nodes<'a>, graph: &mut Graph) -> Answered {
        for line in &self.nodes {
            graph.add(alloc, nodes, line)?;
        }
        graph.add_chain(alloc, self.chain)?;
        Ok(graph.add_layers(alloc, self.layers)?)
    }

    fn board<T: Told>(&self, alloc: Global, nodes: &Nodes<'a>) -> Result<Board<T>, RowFault> {
        self.graph(alloc, nodes)?.board(alloc, nodes)
    }

    fn desk<T: Told + Drop>(&self, alloc: Global) -> Result<Desk<'a, T>, RowFault> {
        let nodes = Nodes {
            labels: self.labels(alloc)?,
            times: self.times,
        };
        let board = self.board(alloc, &nodes)?;
        Ok(Desk {
            board,
            nodes,
            runs: Vec::new(alloc),
        })
    }

    // What is called is let go in one place, before the answer is looked at.
    fn are_met_by_pair(
        &self,
        alloc: Global,
        calls: &Calls<'a>,
        report: &mut Report<'_>,
    ) -> Result<bool, RowFault> {
        let mut pair = self.pair(alloc)?;
        let are_met = calls.are_met(alloc, &mut pair, report);
        drop(pair);
        Ok(are_met?)
    }

    fn are_met_by_lists(
        &self,
        alloc: Global,
        calls: &Calls<'a>,
        report: &mut Report<'_>,
    ) -> Result<bool, RowFault> {
        let mut lists = self.lists(alloc)?;
        let are_met = calls.are_met(alloc, &mut lists, report);
        drop(lists);
        Ok(are_met?)
    }

    /// The board alone.
    fn lists(&self, alloc: Global) -> Result<Lists<'a>, RowFault> {
        Ok(Lists {
            desk: self.desk(alloc)?,
            clearances: Vec::new(alloc),
        })
    }

    /// The board with a site over a disk.
    fn pair(&self, alloc: Global) -> Result<Pair<'a, Tried>, RowFault> {
        let desk = self.desk(alloc)?;
        match self.site(alloc) {
            Ok(site) => Ok(Pair {
                desk,
                site,
                stop: self.stop,
            }),
            Err(fault) => {
                drop(desk);
                Err(fault)
            }
        }
    }

    fn site(&self, alloc: Global) -> Result<Site<Tried>, RowFault> {
        site(alloc, self.disk(alloc)?)
    }

    fn disk(&self, alloc: Global) -> Result<Tried, AllocError> {
        let memory = MemDisk::holding(alloc, &self.a, &self.b)?;
        Ok(Fuse::new(FailOnce::new(memory, self.fail), self.stop))
    }
}
