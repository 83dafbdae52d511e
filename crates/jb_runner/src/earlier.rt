//! Which recipes of a run had ended before another one was begun.
ghost use Rattle.std.specs.Prelude.{◌≡◌, []};
ghost use Rattle.st_records.specs.declared.version.Form.TheVariants as forms;
ghost use Rattle.jb_runner.specs.Earlier.{is_among};

use crate::bench::Bench;
use bd_links::Node;
use byte_strings::ByteStrings;
use jb_marks::Earlier;
use mk_nodes::Graph;
use st_disk::Disk;
use st_records::Form;
use std::alloc::{AllocError, Global};
use std::sync::{Mutex, Wait};

/// Which nodes were made by recipes that have ended, in the order of the ends. Where nobody asks there is no room for an answer.
#[derive(Drop)]
pub(crate) struct Ends {
    /// Of each node the place of its recipe in that order, counted from 1; 0 where none of it has ended.
    places: Vec<u32>,
    /// Of each node whether its recipe left all that it makes as it was.
    same: Vec<bool>,
    count: u32,
}

impl Ends {
    pub(crate) fn none(alloc: Global, nodes: usize) -> Result<Ends, AllocError> {
        Ok(Ends {
            places: vec![in alloc; 0; nodes]?,
            same: vec![in alloc; false; nodes]?,
            count: 0,
        })
    }

    // The recipe that ended last has made this node.
    fn set_last(&mut self, node: usize) {
        if node < self.places.len() {
            self.places[node] = self.count;
        }
    }

    // A recipe has ended that made this node and these names beside it.
    fn add(&mut self, graph: &Graph, node: usize, others: Option<&ByteStrings>, is_same: bool) {
        self.count = self.count.saturating_add(1);
        self.set_last(node);
        if node < self.same.len() {
            self.same[node] = is_same;
        }
        if let Some(others) = others {
            for other in others {
                if let Some(beside) = graph.names.number_of(other) {
                    self.set_last(beside as usize);
                }
            }
        }
    }

    // Whether the recipe that made a node is among so many that ended first.
    fn has(&self, node: usize, first: u32) -> bool
        ensures { result ≡ is_among self.now.places.items node first }
    {
        match self.places.get(node) {
            Some(place) => 0 < *place && *place <= first,
            None => false,
        }
    }
}

impl Ends {
    /// Whether the recipe of a node has left all that it makes as it was.
    pub(crate) fn is_same(&self, node: usize) -> bool {
        match self.same.get(node) {
            Some(same) => *same,
            None => false,
        }
    }

    /// The nodes of which that is so, where the records of a run have marks; else none is.
    pub(crate) fn into_same(self, alloc: Global, form: Form) -> Vec<bool>
        ensures { form ≡ forms.Plain → result.items ≡ [] }
    {
        match form {
            Form::Old => Vec::new(alloc),
            Form::Plain => Vec::new(alloc),
            Form::Marked => self.same,
        }
    }
}

/// The recipes of a run that had ended at a moment.
#[derive(Drop)]
pub(crate) struct EndedBefore<'s, R: Wait> {
    rt: &'s R,
    graph: &'s Graph,
    ends: &'s Mutex<Ends>,
    /// How many these are.
    count: u32,
}

impl<R: Wait> Earlier for EndedBefore<'_, R> {
    ghost use Rattle.std.specs.Prelude.{◌≡◌, true};
    ghost use Rattle.mk_names.specs.Names.{has_name};

    ghost said = { λ run name made. made ≡ true → has_name run.graph.now.names name ≡ true };

    fn has_made(&self, name: &[u8]) -> bool {
        match self.graph.names.number_of(name) {
            Some(node) => self.ends.lock(self.rt).has(node as usize, self.count),
            None => false,
        }
    }
}

impl<D: Disk + Drop, E, S, P> Bench<'_, D, E, S, P> {
    /// The recipes that have ended by now.
    pub(crate) fn ended_before<'r, R: Wait>(&'r self, rt: &'r R) -> EndedBefore<'r, R> {
        let count = self.ends.lock(rt).count;
        EndedBefore {
            rt,
            graph: self.graph,
            ends: self.ends,
            count,
        }
    }

    /// The recipe of a node has ended, and what it made is on the disk.
    pub(crate) fn note_ended<R: Wait>(&self, rt: &R, node: Node, is_same: bool) {
        let number = node.number();
        let others = match self.graph.nodes.get(number) {
            Some(node) => match node.group() {
                Some(group) => Some(&group.others),
                None => None,
            },
            None => None,
        };
        let mut ends = self.ends.lock(rt);
        ends.add(self.graph, number, others, is_same);
        drop(ends);
    }
}
