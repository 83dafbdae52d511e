//! What is told of a target that is passed: why it is made, in lines of their own.
ghost use Rattle.std.specs.Prelude.{◌≡◌, List, ◌++◌, ◌∷◌, [], IfOk, OnOk};
ghost use Rattle.std.specs.List.{flat_map};
ghost use Rattle.mk_names.specs.Names.{name_at};
ghost use Rattle.mk_recipe.specs.declared.line.Line.{Line};
ghost use Rattle.mk_plan.specs.Passing.{told_in};
ghost use Rattle.mk_plan.specs.Passage.{to_make, finished};
ghost use Rattle.mk_plan.specs.Telling.{about, change_lines, lines_about, lines_for};

use crate::change::Change;
use crate::passing::Passed;
use crate::why::Why;
use byte_strings::ByteStrings;
use mk_nodes::Graph;
use mk_seen::name_of;
use plain_text::to_plain;
use std::alloc::{AllocError, Global};

/// How much is told of targets with a recipe.
#[derive(Clone, Copy)]
pub enum Telling {
    Nothing,
    /// Why one is made.
    Reasons,
    /// That too, what has changed, and which are up to date.
    All,
    /// That one is made because all are, as the user wants it.
    AllMade,
}

/// Adds a line about a target.
fn push_about(
    alloc: Global,
    told: &mut ByteStrings,
    target: &[u8],
    label: &[u8],
    text: &[u8],
) -> Result<(), AllocError>
    ensures { OnOk result (told.new ≡ told.old ++ about target.now (label.now ++ text.now) ∷ []) }
{
    let mut line = Vec::from_slice(alloc, b"dmk: ")?;
    line.extend_from_slice(target)?;
    line.extend_from_slice(b": ")?;
    line.extend_from_slice(label)?;
    line.extend_from_slice(text)?;
    let shown = to_plain(alloc, &line)?;
    told.push(&shown)
}

/// Adds such a line with this label for each text.
fn push_each(
    alloc: Global,
    told: &mut ByteStrings,
    target: &[u8],
    label: &[u8],
    texts: &ByteStrings,
) -> Result<(), AllocError>
    ensures { OnOk result (told.new ≡ told.old ++ lines_for target.now label.now texts.now) }
{
    for text in texts.iter() {
        push_about(alloc, told, target, label, text)?;
    }
    Ok(())
}

/// Adds what has changed of a target.
fn push_change(
    alloc: Global,
    told: &mut ByteStrings,
    target: &[u8],
    change: &Change,
) -> Result<(), AllocError>
    ensures { OnOk result (told.new ≡ told.old ++ change_lines target.now change.now) }
{
    push_each(alloc, told, target, b"was: ", &change.was)?;
    push_each(alloc, told, target, b"now: ", &change.is)
}

/// What is told of a node whose recipe is to be run: why, and what has changed.
pub fn why_lines(
    alloc: Global,
    telling: Telling,
    graph: &Graph,
    node: usize,
    why: &Why,
) -> Result<ByteStrings, AllocError>
    ensures { IfOk result (λ told. (lines : List Line) → told ≡ lines_about telling (to_make (name_at graph.now.names node) why.now lines)) }
{
    let mut told = ByteStrings::empty(alloc);
    match telling {
        Telling::Nothing => {}
        Telling::Reasons => push_about(
            alloc,
            &mut told,
            name_of(graph, node),
            b"",
            why.words.as_slice(),
        )?,
        Telling::All => {
            push_about(
                alloc,
                &mut told,
                name_of(graph, node),
                b"",
                why.words.as_slice(),
            )?;
            push_change(alloc, &mut told, name_of(graph, node), &why.change)?;
        }
        Telling::AllMade => push_about(alloc, &mut told, name_of(graph, node), b"", b"made by -B")?,
    }
    Ok(told)
}

/// What is told of a node that has a recipe and is up to date.
fn finished_lines(
    alloc: Global,
    telling: Telling,
    graph: &Graph,
    node: usize,
) -> Result<ByteStrings, AllocError>
    ensures { IfOk result (λ told. told ≡ lines_about telling (finished (name_at graph.now.names node))) }
{
    let mut told = ByteStrings::empty(alloc);
    match telling {
        Telling::Nothing | Telling::Reasons | Telling::AllMade => {}
        Telling::All => push_about(alloc, &mut told, name_of(graph, node), b"", b"up to date")?,
    }
    Ok(told)
}

/// What is told of a node that was passed.
pub fn told_lines(
    alloc: Global,
    telling: Telling,
    graph: &Graph,
    node: usize,
    passed: &Passed,
) -> Result<ByteStrings, AllocError>
    ensures { IfOk result (λ told. told ≡ flat_map (lines_about telling) (told_in graph.now node passed.now)) }
{
    match passed {
        Passed::Listed(why, _lines) => why_lines(alloc, telling, graph, node, why),
        Passed::UpToDate => finished_lines(alloc, telling, graph, node),
        Passed::Remade => Ok(ByteStrings::empty(alloc)),
        Passed::Left => Ok(ByteStrings::empty(alloc)),
    }
}
