//! The graph of a row, and its board.
use crate::adding::add;
use crate::distinct::are_distinct;
use crate::nodes::Nodes;
use crate::sets::are_sets;
use bd_links::Node;
use bd_lists::{Board, Told};
use byte_strings::ByteString;
use mk_graph::{Edges, counted_edges, counted_order};
use row_files::{Answered, RowFault};
use std::alloc::{AllocError, Global};

/// Hard and soft prerequisites of each node.
#[derive(Drop)]
pub struct Graph {
    hard: Vec<Vec<u32>>,
    soft: Vec<Vec<u32>>,
}

/// A number of 32 bits, as rows have them.
fn short(number: usize) -> Result<u32, AllocError> {
    match u32::try_from(number) {
        Ok(number) => Ok(number),
        Err(_) => Err(AllocError),
    }
}

fn number_of(nodes: &Nodes<'_>, word: &str) -> Result<u32, RowFault> {
    Ok(short(nodes.find(word)?.number())?)
}

/// The numbers of the named nodes.
fn row(alloc: Global, nodes: &Nodes<'_>, names: &str) -> Result<Vec<u32>, RowFault> {
    let mut row = Vec::new(alloc);
    for word in names.split(' ') {
        if !word.is_empty() {
            add(&mut row, number_of(nodes, word)?)?;
        }
    }
    Ok(row)
}

impl Graph {
    pub fn new(alloc: Global) -> Graph {
        Graph {
            hard: Vec::new(alloc),
            soft: Vec::new(alloc),
        }
    }

    fn push(&mut self, alloc: Global, hard: Vec<u32>) -> Result<(), AllocError> {
        add(&mut self.hard, hard)?;
        add(&mut self.soft, Vec::new(alloc))
    }

    /// Adds a node of a line `NAME: HARD .. | SOFT ..`, once all nodes have their labels.
    pub fn add(&mut self, alloc: Global, nodes: &Nodes<'_>, line: &str) -> Answered {
        let (_name, edges) = line.split_once(':').ok_or(RowFault::Word)?;
        let (hard, soft) = edges.split_once('|').unwrap_or((edges, ""));
        self.add_rows(alloc, nodes, hard, soft)
    }

    fn add_rows(&mut self, alloc: Global, nodes: &Nodes<'_>, hard: &str, soft: &str) -> Answered {
        add(&mut self.hard, row(alloc, nodes, hard)?)?;
        Ok(add(&mut self.soft, row(alloc, nodes, soft)?)?)
    }

    /// A chain of so many nodes: each waits for the next one.
    pub fn add_chain(&mut self, alloc: Global, nodes: usize) -> Result<(), AllocError> {
        let nodes = short(nodes)?;
        for node in 0..nodes {
            let mut row = Vec::new(alloc);
            if node + 1 < nodes {
                row.push(node + 1)?;
            }
            self.push(alloc, row)?;
        }
        Ok(())
    }

    /// So many nodes that wait for each of as many others.
    pub fn add_layers(&mut self, alloc: Global, nodes: usize) -> Result<(), AllocError> {
        let twice = short(nodes.saturating_add(nodes))?;
        let nodes = short(nodes)?;
        for node in 0..twice {
            let below = if node < nodes { nodes } else { twice };
            let row = (below..twice).collect::<Vec<u32>>(alloc)?;
            self.push(alloc, row)?;
        }
        Ok(())
    }

    /// The nodes' targets.
    fn targets(&self, alloc: Global, nodes: &Nodes<'_>) -> Result<Vec<ByteString>, AllocError> {
        let mut targets = Vec::with_capacity(alloc, self.hard.len())?;
        for node in 0..self.hard.len() {
            targets.push(nodes.target(alloc, Node::new(node))?)?;
        }
        Ok(targets)
    }

    /// The board of the graph, whose soft edges count unless they make a cycle. No two nodes may have one name.
    pub fn board<T: Told>(&self, alloc: Global, nodes: &Nodes<'_>) -> Result<Board<T>, RowFault> {
        let targets = self.targets(alloc, nodes)?;
        let hard = Edges::of_rows(alloc, &self.hard)?;
        let counted = counted_with(alloc, &hard, &self.soft)?;
        board(alloc, counted, hard, targets)
    }
}

/// The edges that order nodes, where these are graphs of the same nodes.
fn counted(alloc: Global, hard: &Edges, soft: &Edges) -> Result<Edges, RowFault> {
    if soft.len() != hard.len() || !hard.is_closed() || !soft.is_closed() {
        return Err(RowFault::Word);
    }
    let dropped = counted_order(alloc, hard, soft)?.dropped;
    Ok(counted_edges(alloc, hard, soft, dropped)?)
}

fn counted_with(alloc: Global, hard: &Edges, soft: &[Vec<u32>]) -> Result<Edges, RowFault> {
    let soft = Edges::of_rows(alloc, soft)?;
    counted(alloc, hard, &soft)
}

fn board<T: Told>(
    alloc: Global,
    counted: Edges,
    hard: Edges,
    targets: Vec<ByteString>,
) -> Result<Board<T>, RowFault> {
    let len = hard.len();
    if counted.len() != len || targets.len() != len || len > 1_000_000 || !are_sets(&counted) {
        return Err(RowFault::Word);
    }
    if !are_distinct(alloc, &targets)? {
        return Err(RowFault::NamedAlike);
    }
    Ok(Board::of(alloc, counted, hard, targets)?)
}
