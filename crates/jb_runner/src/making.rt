//! One node, from its claim to its end.
ghost use Rattle.std.specs.Prelude.{◌≡◌, ◌<◌, ◌≤◌, length, true, false};
ghost use Rattle.mk_graph.specs.Edges.{has};
ghost use Rattle.jb_runner.specs.Making.{is_remade};

use crate::bench::Bench;
use crate::earlier::Ends;
use crate::shift::Shift;
use bd_flusher::Receipt;
use bd_links::Node;
use bd_lists::{BoardIn, Exec};
use bd_places::End;
use byte_strings::ByteStrings;
use jb_closing::RunFault;
use jb_recipe::{News, Place, Plan, Say, long_line};
use jb_slots::Bank;
use mk_nodes::{Graph, HiddenNumbers};
use mk_plan::{Passed, RecipeFault, Why, line_place, pass, told_lines};
use mk_recipe::Line;
use st_disk::Disk;
use std::alloc::Global;
use std::sync::{Mutex, Wait};

/// Whether a node that has ended so counts as made anew.
pub(crate) fn is_remade(end: Option<End>) -> bool
    ensures { result ≡ is_remade end }
{
    matches!(end, Some(End::Built | End::Remade))
}

/// Sets the mark of a node that was made anew. Another keeps its own: how a node ended never changes.
fn mark_if_remade(marks: &mut Vec<bool>, board: &BoardIn<Receipt>, node: usize) {
    if node < marks.len() && is_remade(board.end(Node::new(node))) {
        marks[node] = true;
    }
}

fn mark_remade(marks: &mut Vec<bool>, board: &BoardIn<Receipt>, nodes: &[u32]) {
    for node in nodes {
        mark_if_remade(marks, board, *node as usize);
    }
}

/// Takes the mark from a node whose recipe left all that it makes as it was: nothing is remade for it.
fn unmark_if_same(marks: &mut Vec<bool>, ends: &Ends, node: usize) {
    if node < marks.len() && ends.is_same(node) {
        marks[node] = false;
    }
}

fn unmark_same(marks: &mut Vec<bool>, ends: &Ends, nodes: &[u32], hidden: HiddenNumbers<'_>) {
    for node in nodes {
        unmark_if_same(marks, ends, *node as usize);
    }
    for node in hidden {
        if let Some(node) = node {
            unmark_if_same(marks, ends, node);
        }
    }
}

fn mark_hidden(marks: &mut Vec<bool>, board: &BoardIn<Receipt>, hidden: HiddenNumbers<'_>) {
    for node in hidden {
        if let Some(node) = node {
            mark_if_remade(marks, board, node);
        }
    }
}

// All prerequisites that a claimed node counts have settled, so their ends are read in one holding of the lock; and what their recipes
// left was noted before that.
fn mark<R: Wait>(
    rt: &R,
    board: &Mutex<BoardIn<Receipt>>,
    ends: &Mutex<Ends>,
    graph: &Graph,
    marks: &mut Vec<bool>,
    number: usize,
)
    requires { number < length graph.now.nodes.items }
{
    let board = board.lock(rt);
    mark_remade(marks, &*board, graph.hard.row(number));
    mark_hidden(marks, &*board, graph.hidden(number));
    drop(board);
    let ends = ends.lock(rt);
    unmark_same(marks, &*ends, graph.hard.row(number), graph.hidden(number));
    drop(ends);
}

/// Says lines that tell of a target.
pub(crate) fn say_lines<S: Say>(say: &S, told: &ByteStrings) {
    for line in told.iter() {
        say.line(line);
    }
}

fn tell_not_recorded<S: Say>(say: &S, graph: &Graph, node: Node, long: Option<usize>) {
    let number = node.number();
    if number < graph.names.len() {
        let target = graph.names.name(number);
        let long = match long {
            Some(line) => line_place(graph, number, line),
            None => None,
        };
        say.tell(News::NotRecorded { target, long });
    }
}

impl<D: Disk + Drop, E: Exec<Receipt>, S: Say, P: Place> Bench<'_, D, E, S, P> {
    /// Makes a node that was claimed. A fault ends the run; the node is then still to be abandoned. One that isn't there and that
    /// nothing makes is lost, which was told before the run.
    pub(crate) fn make<R: Wait, B: Bank>(
        &self,
        rt: &R,
        alloc: Global,
        node: Node,
        marks: &mut Vec<bool>,
        bank: &mut B,
        shift: &mut Shift,
    ) -> Result<(), RunFault>
        ensures unmade { has self.now.graph.now.unmade.items node ≡ true → 2 ≤ shift.new.status }
    {
        let number = node.number();
        if self.graph.is_unmade(number) {
            shift.worsen(2);
            self.clerk.desk.lose(rt, node);
            return Ok(());
        }
        if number >= self.graph.len() {
            self.clerk.desk.lose(rt, node);
            return Ok(());
        }
        let board = self.clerk.desk.board;
        mark(rt, board, self.ends, self.graph, marks, number);
        match pass(
            alloc,
            self.clerk.desk.conduct.counts_records,
            self.graph,
            marks.as_slice(),
            number,
        ) {
            Ok(passed) => self.make_passed(rt, alloc, node, passed, bank, shift),
            Err(fault) => self.not_expanded(rt, node, &fault, shift),
        }
    }

    fn make_passed<R: Wait, B: Bank>(
        &self,
        rt: &R,
        alloc: Global,
        node: Node,
        passed: Passed,
        bank: &mut B,
        shift: &mut Shift,
    ) -> Result<(), RunFault>
        requires node { node < length self.now.graph.now.nodes.items }
        requires made { has self.now.graph.now.unmade.items node ≡ false }
    {
        match passed {
            Passed::UpToDate => return self.finish(rt, alloc, node),
            Passed::Left => self.clerk.desk.settle(rt, node, End::UpToDate),
            Passed::Remade => self.clerk.desk.settle(rt, node, End::Remade),
            Passed::Listed(why, lines) => {
                return self.build(rt, alloc, node, &why, lines, bank, shift);
            }
        }
        Ok(())
    }

    // A target that has a recipe and is up to date.
    fn finish<R: Wait>(&self, rt: &R, alloc: Global, node: Node) -> Result<(), RunFault> {
        let telling = self.clerk.desk.conduct.telling;
        let told = told_lines(alloc, telling, self.graph, node.number(), &Passed::UpToDate)?;
        say_lines(self.say, &told);
        self.clerk.desk.settle(rt, node, End::UpToDate);
        Ok(())
    }

    // A line of its recipe can't be expanded: the node is lost, and the run goes on. Want of memory ends the run.
    fn not_expanded<R: Wait>(
        &self,
        rt: &R,
        node: Node,
        fault: &RecipeFault,
        shift: &mut Shift,
    ) -> Result<(), RunFault> {
        if matches!(fault, RecipeFault::OutOfMemory) {
            return Err(RunFault::OutOfMemory);
        }
        self.say.tell(News::NotExpanded { fault });
        shift.worsen(2);
        self.clerk.desk.lose(rt, node);
        Ok(())
    }

    // A target that is out of date. Room for its receipts is made before anything is written.
    fn build<R: Wait, B: Bank>(
        &self,
        rt: &R,
        alloc: Global,
        node: Node,
        why: &Why,
        lines: Vec<Line>,
        bank: &mut B,
        shift: &mut Shift,
    ) -> Result<(), RunFault>
        requires node { node < length self.now.graph.now.nodes.items }
        requires made { has self.now.graph.now.unmade.items node ≡ false }
    {
        shift.make_room()?;
        let long = long_line(&lines);
        let Some(plan) = Plan::of(
            alloc,
            self.graph,
            self.clerk.desk.conduct,
            node.number(),
            why,
            lines,
        )?
        else {
            self.not_recorded(rt, node, long, shift);
            return Ok(());
        };
        self.build_planned(rt, alloc, node, plan, bank, shift)
    }

    /// A record of the node may not stand in the state, for want of room where a line of its recipe is too long: the node is lost.
    pub(crate) fn not_recorded<R: Wait>(
        &self,
        rt: &R,
        node: Node,
        long: Option<usize>,
        shift: &mut Shift,
    ) {
        tell_not_recorded(self.say, self.graph, node, long);
        shift.worsen(1);
        self.clerk.desk.lose(rt, node);
    }
}
