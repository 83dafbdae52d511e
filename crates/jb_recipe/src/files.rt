//! The files of a recipe, by name.
ghost use Rattle.std.specs.Prelude.{◌≡◌, ◌<◌, length, IfOk};
ghost use Rattle.std.specs.Option.{option_copied};
ghost use Rattle.mk_seen.specs.Marks.{source_name};
ghost use Rattle.mk_seen.specs.Nodes.{explicit_of, made_beside};
ghost use Rattle.jb_recipe.specs.Files.{AreNamesOf, recorded_of};

use byte_strings::{ByteString, ByteStrings};
use jb_marks::{Names, Recorded, recorded_in};
use mk_nodes::Graph;
use mk_seen::{entry_of, explicit_of, made_beside, name_of};
use std::alloc::{AllocError, Global};

/// What a recipe makes beside its target, and what the target is made of, by name.
#[derive(Drop)]
pub struct Files {
    pub others: ByteStrings,
    /// Its source, where an implicit rule gives it one.
    pub source: Option<ByteString>,
    /// The prerequisites that the makefile names for it.
    pub explicit: ByteStrings,
    /// The hidden prerequisites that the state has of it.
    pub recorded: Vec<Recorded>,
}

/// The name of a node's source, where an implicit rule gives it one.
pub(crate) fn source_at(graph: &Graph, node: usize) -> Option<&[u8]>
    requires { node < length graph.now.nodes.items }
    ensures { option_copied result ≡ source_name graph.now node }
{
    match graph.source(node) {
        Some(source) => Some(name_of(graph, source)),
        None => None,
    }
}

fn source_of(alloc: Global, graph: &Graph, node: usize) -> Result<Option<ByteString>, AllocError>
    requires { node < length graph.now.nodes.items }
    ensures { IfOk result (λ source. source ≡ source_name graph.now node) }
{
    match source_at(graph, node) {
        Some(source) => Ok(Some(ByteString::from_slice(alloc, source)?)),
        None => Ok(None),
    }
}

fn recorded_of(alloc: Global, graph: &Graph, node: usize) -> Result<Vec<Recorded>, AllocError>
    ensures { IfOk result (λ recorded. recorded.items ≡ recorded_of graph.now node) }
{
    match entry_of(graph, node) {
        Some(entry) => recorded_in(alloc, entry),
        None => Ok(Vec::new(alloc)),
    }
}

impl Files {
    /// Those of a node.
    pub(crate) fn of(alloc: Global, graph: &Graph, node: usize) -> Result<Files, AllocError>
        requires { node < length graph.now.nodes.items }
        ensures others { IfOk result (λ files. files.others ≡ made_beside graph.now node) }
        ensures source { IfOk result (λ files. files.source ≡ source_name graph.now node) }
        ensures explicit { IfOk result (λ files. files.explicit ≡ explicit_of graph.now node) }
        ensures recorded { IfOk result (λ files. files.recorded.items ≡ recorded_of graph.now node) }
    {
        Ok(Files {
            others: made_beside(alloc, graph, node)?,
            source: source_of(alloc, graph, node)?,
            explicit: explicit_of(alloc, graph, node)?,
            recorded: recorded_of(alloc, graph, node)?,
        })
    }

    /// The same, lent to looks at them, with the target.
    pub(crate) fn names<'a>(&'a self, target: &'a [u8]) -> Names<'a>
        ensures { AreNamesOf target.now self.now result }
    {
        let source = match &self.source {
            Some(source) => Some(source.as_slice()),
            None => None,
        };
        Names {
            target,
            others: &self.others,
            source,
            explicit: &self.explicit,
            recorded: self.recorded.as_slice(),
        }
    }
}
