//! Where the goals of a run are parted, to be made one behind the other.
use crate::causes::is_group;
use crate::made::is_phony_name;
use crate::refusing::ready_all_recipes;
use byte_strings::ByteString;
use dmk_reading::{is_lost, lost_nodes};
use dmk_store::Stop;
use mk_nodes::Graph;
use mk_plan::{has_text_names, name_of, pass_in};
use std::alloc::{AllocError, Global};
use std::sync::OnceLock;

/// Whether a file would be made in each part that needs it: all are to be made, or it stands on a name without a file that stands for others.
/// Whether these are newer it doesn't tell.
fn is_made_in_each(makes_all: bool, graph: &Graph, node: usize) -> bool {
    if is_phony_name(graph, name_of(graph, node)) {
        return false;
    }
    if makes_all {
        return true;
    }
    let required = graph.required_edges();
    node < required.len()
        && required.row(node).iter().any(|needed| (*needed as usize) < graph.len()
            && is_group(graph, *needed as usize))
}

/// Whether a node has a file. A phony one has none, whatever there is.
pub fn has_file(graph: &Graph, node: usize) -> bool {
    match graph.nodes.get(node) {
        Some(node) => node.stamp.is_some(),
        None => false,
    }
}

/// Whether a part may end before the last goal.
fn may_be_parted(graph: &Graph) -> bool {
    if !graph.macros.profile().is_wide() {
        return false;
    }
    match graph.goals.as_slice().split_last() {
        Some((_last, before)) => before.iter().any(|goal| !has_file(graph, *goal)),
        None => false,
    }
}

/// By which goal each node is led to, and the nodes whose own rows weren't followed yet.
#[derive(Drop)]
struct Reached {
    /// The place of the goal; None of a node that none led to yet.
    places: Vec<Option<usize>>,
    waiting: Vec<usize>,
}

impl Reached {
    fn reach(&mut self, node: usize, place: usize) -> Result<(), AllocError> {
        if node < self.places.len() && self.places[node].is_none() {
            self.places[node] = Some(place);
            self.waiting.push(node)?;
        }
        Ok(())
    }

    fn reach_all(&mut self, nodes: &[u32], place: usize) -> Result<(), AllocError> {
        for node in nodes {
            self.reach(*node as usize, place)?;
        }
        Ok(())
    }

    /// What a goal leads to, by all edges, beside what was led to before.
    fn follow(&mut self, graph: &Graph, goal: usize, place: usize) -> Result<(), AllocError> {
        let required = graph.required_edges();
        self.reach(goal, place)?;
        for _ in 0..graph.len() {
            let Some(node) = self.waiting.pop() else {
                break;
            };
            if node < required.len() && node < graph.soft.len() {
                self.reach_all(required.row(node), place)?;
                self.reach_all(graph.soft.row(node), place)?;
            }
        }
        Ok(())
    }
}

/// The place of the first goal that leads to each node, or of the last one.
fn places_of(alloc: Global, graph: &Graph, last: bool) -> Result<Vec<Option<usize>>, AllocError> {
    let goals = graph.goals.as_slice();
    let mut reached = Reached {
        places: vec![in alloc; None; graph.len()]?,
        waiting: Vec::new(alloc),
    };
    for step in 0..goals.len() {
        let place = if last { goals.len() - 1 - step } else { step };
        reached.follow(graph, goals[place], place)?;
    }
    let Reached { places, waiting: _ } = reached;
    Ok(places)
}

/// Which nodes are to be made as files stand now, of those that aren't lost. One whose recipe can't be expanded counts too.
pub fn to_make(
    alloc: Global,
    counting: bool,
    graph: &Graph,
    lost: &[bool],
) -> Result<Vec<bool>, AllocError> {
    let mut made = vec![in alloc; false; graph.len()]?;
    let mut marks = vec![in alloc; false; graph.len()]?;
    let texts = has_text_names(graph);
    for node in graph.order.as_slice() {
        if is_lost(lost, *node) {
            continue;
        }
        if *node < graph.len() && *node < marks.len() && *node < made.len() {
            match pass_in(alloc, counting, texts, graph, &marks, *node) {
                Ok(passed) => {
                    made[*node] = passed.is_listed();
                    marks[*node] = passed.is_remade();
                }
                Err(_) => made[*node] = true,
            }
        }
    }
    Ok(made)
}

/// What is to be made for the goals, by the place of the first that leads to it.
#[derive(Drop)]
struct Spans {
    is_run: Vec<bool>,
    /// The place of the last goal that leads to a node which would be made in each part that needs it; 0 where there is none.
    farthest: Vec<usize>,
}

impl Spans {
    fn add(
        &mut self,
        first: Option<usize>,
        last: Option<usize>,
        is_run: bool,
        is_made_in_each: bool,
    ) {
        let (Some(first), Some(last)) = (first, last) else {
            return;
        };
        if is_run && first < self.is_run.len() {
            self.is_run[first] = true;
        }
        if is_made_in_each && first < self.farthest.len() {
            self.farthest[first] = self.farthest[first].max(last);
        }
    }
}

/// The place of a goal that leads to the node.
fn place_in(places: &[Option<usize>], node: usize) -> Option<usize> {
    match places.get(node) {
        Some(place) => *place,
        None => None,
    }
}

/// What a part made is up to date behind it, or has no file and isn't made again, but for some files. What is lost may be made in a part
/// behind one that makes what it lacks.
fn spans_of(
    alloc: Global,
    makes_all: bool,
    counting: bool,
    graph: &Graph,
) -> Result<Spans, AllocError> {
    let lost = lost_nodes(alloc, graph)?;
    let made = to_make(alloc, counting, graph, &lost)?;
    let first = places_of(alloc, graph, false)?;
    let last = places_of(alloc, graph, true)?;
    let mut spans = Spans {
        is_run: vec![in alloc; false; graph.goals.len()]?,
        farthest: vec![in alloc; 0; graph.goals.len()]?,
    };
    for (node, is_made) in made.iter().enumerate() {
        if *is_made || is_lost(&lost, node) {
            let (first, last) = (place_in(&first, node), place_in(&last, node));
            spans.add(
                first,
                last,
                *is_made,
                is_made_in_each(makes_all, graph, node),
            );
        }
    }
    Ok(spans)
}

/// A mark for each goal, which is set where a part ends behind it: it has no file, a recipe is run for it or for a goal before it, and
/// nothing would be made twice.
fn ends_of(
    alloc: Global,
    makes_all: bool,
    counting: bool,
    graph: &Graph,
) -> Result<Vec<bool>, AllocError> {
    let Spans { is_run, farthest } = spans_of(alloc, makes_all, counting, graph)?;
    let mut ends = Vec::new(alloc);
    let mut runs = false;
    let mut needed = 0;
    for (place, goal) in graph.goals.iter().enumerate() {
        if place < is_run.len() && place < farthest.len() {
            runs = runs || is_run[place];
            needed = farthest[place].max(needed);
        }
        let is_last = place + 1 == graph.goals.len();
        ends.push(runs && needed <= place && !is_last && !has_file(graph, *goal))?;
    }
    Ok(ends)
}

/// Whether goals are made at once; else in which parts, and before that what is found of all their recipes, any of which may be to be
/// run once the part before it is made.
pub(crate) fn at_once(
    alloc: Global,
    makes_all: bool,
    counting: bool,
    graph: &Graph,
    shell: &OnceLock<ByteString>,
) -> Result<(), Stop> {
    if !may_be_parted(graph) {
        return Ok(());
    }
    let ends = ends_of(alloc, makes_all, counting, graph)?;
    if !ends.iter().any(|is_end| *is_end) {
        return Ok(());
    }
    ready_all_recipes(alloc, graph, shell)?;
    Err(Stop::Parted(ends))
}
