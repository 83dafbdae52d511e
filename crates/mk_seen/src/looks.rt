//! What looks at the files of a node tell, as a verdict takes it.
ghost use Rattle.std.specs.Prelude.{◌≡◌};
ghost use Rattle.mk_seen.specs.Marks.{look_from, look_of, looks_beside, mark_counted};

use mk_nodes::{FileLook, Graph, OLD_TIME};
use mk_verdict::{Look, Mark};

pub(crate) fn look_from(file: Option<FileLook>) -> Look
    ensures { result ≡ look_from file }
{
    let Some(file) = file else {
        return Look::NoFile;
    };
    match file.size {
        None => Look::Other,
        Some(size) => Look::File {
            time: file.time,
            size,
        },
    }
}

/// What a look at a node tells.
pub fn look_of(graph: &Graph, node: usize) -> Look
    ensures { result ≡ look_of graph.now node }
{
    match graph.nodes.get(node) {
        Some(node) => look_from(node.stamp.look()),
        None => Look::NoFile,
    }
}

/// What looks at the files tell that the recipe of a node makes beside it.
pub(crate) fn looks_beside(graph: &Graph, node: usize) -> &[Option<FileLook>]
    ensures { result.now ≡ looks_beside graph.now node }
{
    match graph.nodes.get(node) {
        Some(node) => match node.group() {
            Some(group) => group.looks.as_slice(),
            None => &[],
        },
        None => &[],
    }
}

/// The mark of a file by which it is judged, where a look at it tells this.
pub fn mark_counted(look: Look, mark: Mark) -> Mark
    ensures { result ≡ mark_counted look mark }
{
    match look {
        Look::NoFile | Look::Other => mark,
        Look::File { time, size: _ } => {
            if time == OLD_TIME {
                Mark::NotKept
            } else {
                mark
            }
        }
    }
}
