//! Which files a target is made of by what a graph has of them: of a target that is taken as it is.
ghost use Rattle.std.specs.Prelude.{◌≡◌, ◌++◌, ◌<◌, length, map, IfOk, OnOk};
ghost use Rattle.std.specs.Option.{option_copied};
ghost use Rattle.mk_graph.specs.Edges.{row};
ghost use Rattle.mk_seen.specs.Marks.{looks_beside, source_name};
ghost use Rattle.jb_recipe.specs.Seen.{IsTextSeen, sight_at, sight_from, sights_at};

use crate::files::source_at;
use byte_strings::ByteString;
use jb_marks::{Sight, text_of_sights};
use mk_nodes::{FileLook, Graph};
use st_records::Form;
use std::alloc::{AllocError, Global};

fn sight_from(look: Option<FileLook>) -> Sight
    ensures { result ≡ sight_from look }
{
    let Some(file) = look else {
        return Sight::NoFile;
    };
    match file.size {
        None => Sight::Other,
        Some(size) => Sight::File {
            time: file.time,
            size: u64::from(size),
            changed: file.time,
        },
    }
}

fn sight_at(graph: &Graph, node: usize) -> Sight
    ensures { result ≡ sight_at graph.now node }
{
    match graph.nodes.get(node) {
        Some(node) => sight_from(node.stamp.look()),
        None => Sight::NoFile,
    }
}

fn looks_beside(graph: &Graph, node: usize) -> &[Option<FileLook>]
    ensures { result.now ≡ looks_beside graph.now node }
{
    match graph.nodes.get(node) {
        Some(node) => match node.group() {
            Some(group) => group.looks.as_slice(),
            None => &[],
        },
        None => &[],
    }
}

fn push_beside(sights: &mut Vec<Sight>, looks: &[Option<FileLook>]) -> Result<(), AllocError>
    ensures { OnOk result (sights.new.items ≡ sights.old.items ++ map sight_from looks.now) }
{
    for look in looks {
        sights.push(sight_from(*look))?;
    }
    Ok(())
}

fn push_made_of(sights: &mut Vec<Sight>, graph: &Graph, node: usize) -> Result<(), AllocError>
    requires { node < length graph.now.nodes.items }
    ensures { OnOk result (sights.new.items ≡ sights.old.items ++ map (sight_at graph.now) (row graph.now.hard node)) }
{
    for prerequisite in graph.hard.row(node) {
        sights.push(sight_at(graph, *prerequisite as usize))?;
    }
    Ok(())
}

/// What the graph has of each file of a node: of what its recipe makes, and of what the makefile names for it.
fn sights_at(alloc: Global, graph: &Graph, node: usize) -> Result<Vec<Sight>, AllocError>
    requires { node < length graph.now.nodes.items }
    ensures { IfOk result (λ sights. sights.items ≡ sights_at graph.now node) }
{
    let mut sights = Vec::new(alloc);
    sights.push(sight_at(graph, node))?;
    push_beside(&mut sights, looks_beside(graph, node))?;
    push_made_of(&mut sights, graph, node)?;
    Ok(sights)
}

/// The text of the marks of a node that is taken as it is, in a record of this form: by what the graph has of its files. Hidden
/// prerequisites have none.
pub fn text_seen(
    alloc: Global,
    form: Form,
    graph: &Graph,
    node: usize,
) -> Result<ByteString, AllocError>
    requires { node < length graph.now.nodes.items }
    ensures { IfOk result (λ text. IsTextSeen form graph.now node text) }
{
    match form {
        Form::Old => Ok(ByteString::new(Vec::new(alloc))),
        Form::Plain => Ok(ByteString::new(Vec::new(alloc))),
        Form::Marked => {
            let sights = sights_at(alloc, graph, node)?;
            text_of_sights(alloc, source_at(graph, node), sights.as_slice())
        }
    }
}
