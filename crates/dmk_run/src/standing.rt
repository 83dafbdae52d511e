//! Targets that were judged up to date, looked at once more when a part is made.

use bd_places::End;
use byte_strings::{ByteString, ByteStrings};
use dmk_parts::{Standing, has_file};
use dmk_printing::Printer;
use jb_closing::{Report, RunFault};
use jb_recipe::Place;
use mk_nodes::Graph;
use mk_plan::name_of;
use mk_rules::Tree;
use std::alloc::{AllocError, Global};
use std::io::Write;
use std::sync::Wait;

/// What became of the file of a target that was judged up to date.
#[derive(Clone, Copy, PartialEq, Eq)]
pub(crate) enum Since {
    /// It is the one that was judged, or a folder.
    Same,
    Gone,
    Another,
}

fn is_run(end: &End) -> bool {
    matches!(end, End::Built | End::Failed(_))
}

/// Where a walk from the goals comes next.
#[derive(Clone, Copy)]
enum Step {
    To(usize),
    /// Behind all that the node needs.
    Behind(usize),
}

/// A walk from the goals in the order in which they and what they need are made, down to the nodes that have files.
#[derive(Drop)]
struct Walk {
    /// The last one comes first.
    steps: Vec<Step>,
    passed: Vec<bool>,
    /// The nodes that are to be looked at again.
    marks: Vec<bool>,
    /// A recipe was run before the next step.
    has_run: bool,
}

impl Walk {
    fn mark(&mut self, node: usize) {
        if node < self.marks.len() {
            self.marks[node] = true;
        }
    }

    fn leave(&mut self, ends: &[End], node: usize) {
        if let Some(end) = ends.get(node) {
            self.has_run = self.has_run || is_run(end);
        }
    }

    /// Comes to a node. What its file was made of is passed over.
    fn reach(&mut self, graph: &Graph, ends: &[End], node: usize) -> Result<(), AllocError> {
        if node >= self.passed.len() || self.passed[node] {
            return Ok(());
        }
        self.passed[node] = true;
        if has_file(graph, node) {
            if self.has_run {
                self.mark(node);
            }
            self.leave(ends, node);
            return Ok(());
        }
        self.steps.push(Step::Behind(node))?;
        let required = graph.required_edges();
        if node < required.len() {
            for needed in required.row(node).iter().rev() {
                self.steps.push(Step::To(*needed as usize))?;
            }
        }
        Ok(())
    }

    fn follow(&mut self, graph: &Graph, ends: &[End]) -> Result<(), AllocError> {
        for _ in 0..usize::MAX {
            match self.steps.pop() {
                Some(Step::To(node)) => self.reach(graph, ends, node)?,
                Some(Step::Behind(node)) => self.leave(ends, node),
                None => break,
            }
        }
        Ok(())
    }
}

/// Which nodes are to be looked at again: the goals, and the files that they come to behind a recipe that was run.
///
/// A file that was come to before any was run may be gone: `all clean` leaves none.
fn marks_of(alloc: Global, graph: &Graph, ends: &[End]) -> Result<Vec<bool>, AllocError> {
    let mut walk = Walk {
        steps: Vec::new(alloc),
        passed: vec![in alloc; false; graph.len()]?,
        marks: vec![in alloc; false; graph.len()]?,
        has_run: false,
    };
    for goal in graph.goals.iter().rev() {
        walk.mark(*goal);
        walk.steps.push(Step::To(*goal))?;
    }
    walk.follow(graph, ends)?;
    let Walk { marks, .. } = walk;
    Ok(marks)
}

/// A node by its file, if it has one.
fn file_of(alloc: Global, graph: &Graph, node: usize) -> Result<Option<Standing>, AllocError> {
    let Some(known) = graph.nodes.get(node) else {
        return Ok(None);
    };
    let Some(time) = known.stamp.time() else {
        return Ok(None);
    };
    Ok(Some(Standing {
        name: ByteString::from_slice(alloc, name_of(graph, node))?,
        time,
        has_recipe: known.recipe.get().is_some(),
    }))
}

/// The targets of a run that were judged up to date by a file, and that a recipe of the run may have removed or written.
fn standing_targets(
    alloc: Global,
    graph: &Graph,
    ends: &[End],
) -> Result<Vec<Standing>, AllocError> {
    let mut found = Vec::new(alloc);
    if !ends.iter().any(|end| is_run(end)) {
        return Ok(found);
    }
    let marks = marks_of(alloc, graph, ends)?;
    for (node, is_marked) in marks.iter().enumerate() {
        if *is_marked && matches!(ends.get(node), Some(End::UpToDate)) {
            if let Some(target) = file_of(alloc, graph, node)? {
                found.push(target)?;
            }
        }
    }
    Ok(found)
}

/// So of what a run came to: none of one that has no report. Those that there is no memory for aren't looked at again.
pub(crate) fn standing_in(
    alloc: Global,
    graph: &Graph,
    found: &Result<Report, RunFault>,
) -> Vec<Standing> {
    if let Ok(report) = found {
        if let Ok(standing) = standing_targets(alloc, graph, &report.ends) {
            return standing;
        }
    }
    Vec::new(alloc)
}

/// What became of it, by a new look. What can't be looked at is left as it is.
fn became<P: Place, T: Tree>(
    alloc: Global,
    place: &P,
    tree: &mut T,
    name: &[u8],
    time: i128,
) -> Since {
    match place.stamp(name) {
        Some(now) if now == time => Since::Same,
        Some(_) => Since::Another,
        // A folder is no ordinary file, and its time is another one whenever something is made in it.
        None => match tree.stamp(alloc, name) {
            Ok(None) => Since::Gone,
            _ => Since::Same,
        },
    }
}

/// Of the targets whose files are gone, or are other ones, each of which is noted, those that can be made again.
pub(crate) fn lost_targets<P: Place, T: Tree, R: Wait, O: Write + Drop, W: Write + Drop>(
    alloc: Global,
    printer: &Printer<'_, R, O, W>,
    place: &P,
    tree: &mut T,
    standing: &[Standing],
) -> Result<ByteStrings, AllocError> {
    let mut lost = ByteStrings::empty(alloc);
    for target in standing {
        let name = target.name.as_slice();
        let became = became(alloc, place, tree, name, target.time);
        match became {
            Since::Same => {}
            Since::Gone => printer.lost(name, "and is gone since then"),
            Since::Another => printer.lost(name, "and is another file since then"),
        }
        if became != Since::Same && target.has_recipe {
            lost.push(name)?;
        }
    }
    Ok(lost)
}
