//! What is drawn of a state: the names that are reached from some names, and the edges between them.

ghost use Rattle.std.specs.Prelude.{◌≡◌, ◌+◌, ◌++◌, ◌∷◌, ◌≤◌, ◌↔◌, IsTrue, [], drop, length, IfOk, OnOk, map as list_map};
ghost use Rattle.std.specs.List.{flat_map, IsDistinct};
ghost use Rattle.std.specs.Str.{bytes_eq};
ghost use Rattle.std.specs.Option.{option_copied};
ghost use Rattle.std.specs.FinMap as map;
ghost use Rattle.mk_names.specs.Names.{all_added};
ghost use Rattle.st_answers.specs.Answers.{target_names};
ghost use Rattle.st_answers.specs.Reached.{IsWithin, AreDrawn};
ghost use Rattle.st_answers.specs.Graph.{hidden_where, listed, prerequisites_in, prerequisites_by, prerequisites_of, named_edge, new_names, edges_to, edges_by, edges_among, AreEdges};

use crate::inferred::source_where;
use mk_names::Names;
use st_packed::PackedEntry;
use st_records::{ByteStrings, Iter};
use st_state::State;
use std::alloc::{AllocError, Global};

/// How much is drawn.
#[derive(Clone, Copy)]
pub struct Extent {
    /// Along how many edges a name may be reached; along any number where there is none.
    pub depth: Option<usize>,
    /// Whether hidden prerequisites count.
    pub hidden: bool,
    /// Whether the source counts that an implicit rule gave a target.
    pub source: bool,
}

/// A prerequisite of a name.
#[derive(Clone, Copy)]
pub struct Edge<'a> {
    pub user: &'a [u8],
    pub prerequisite: &'a [u8],
    pub hidden: bool,
}

/// The names of the targets of the state, in byte order.
pub fn target_names(alloc: Global, state: &State) -> Result<ByteStrings, AllocError>
    ensures { IfOk result (λ names. names ≡ target_names state.now) }
{
    let named = state.in_byte_order(alloc)?;
    let mut names = ByteStrings::empty(alloc);
    for place in 0..named.len() {
        let (name, _entry) = named.at(place);
        names.push(name)?;
    }
    Ok(names)
}

/// The names that are reached from the starts, along no more edges than the depth.
pub fn names_drawn(
    alloc: Global,
    state: &State,
    starts: &ByteStrings,
    extent: Extent,
) -> Result<Names, AllocError>
    ensures { IfOk result (λ names. AreDrawn (prerequisites_of state.now extent.hidden extent.source) starts.now extent.depth names) }
{
    let mut names = Names::new(alloc);
    mention_all(alloc, &mut names, &starts.iter())?;
    let mut looked_at = 0;
    let mut edges = 0;
    while looked_at < names.len() && goes_on(extent.depth, edges) {
        let end = names.len();
        mention_prerequisites(alloc, state, &mut names, looked_at, extent)?;
        looked_at = end;
        edges += 1;
    }
    Ok(names)
}

/// Whether there may be more edges than so many.
fn goes_on(depth: Option<usize>, edges: usize) -> bool
    ensures { IsTrue result ↔ IsWithin depth (edges + 1) }
{
    match depth {
        None => true,
        Some(depth) => edges < depth,
    }
}

/// Mentions the prerequisites of all names from a number on.
fn mention_prerequisites(
    alloc: Global,
    state: &State,
    names: &mut Names,
    first: usize,
    extent: Extent,
) -> Result<(), AllocError>
    requires { first ≤ length names.old }
    ensures { OnOk result (names.new ≡ all_added names.old (flat_map (prerequisites_of state.now extent.hidden extent.source) (drop first names.old))) }
{
    let end = names.len();
    for number in first..end {
        let known = state.get(names.name(number));
        mention_known(alloc, names, known, extent)?;
    }
    Ok(())
}

fn mention_known(
    alloc: Global,
    names: &mut Names,
    known: Option<&PackedEntry>,
    extent: Extent,
) -> Result<(), AllocError>
    ensures { OnOk result (names.new ≡ all_added names.old (prerequisites_by extent.hidden extent.source (option_copied known.entry))) }
{
    match known {
        None => Ok(()),
        Some(entry) => mention_of(alloc, names, entry, extent),
    }
}

fn mention_of(
    alloc: Global,
    names: &mut Names,
    entry: &PackedEntry,
    extent: Extent,
) -> Result<(), AllocError>
    ensures { OnOk result (names.new ≡ all_added names.old (prerequisites_in extent.hidden extent.source entry.now)) }
{
    mention_one(alloc, names, source_where(extent.source, entry))?;
    mention_all(alloc, names, &entry.names())?;
    mention_all(alloc, names, &hidden_where(extent.hidden, entry))
}

fn mention_one(alloc: Global, names: &mut Names, mentioned: Option<&[u8]>) -> Result<(), AllocError>
    ensures { OnOk result (names.new ≡ all_added names.old (listed (option_copied mentioned.entry))) }
{
    match mentioned {
        None => Ok(()),
        Some(name) => {
            names.mention(alloc, name)?;
            Ok(())
        }
    }
}

/// The hidden prerequisites, where they count.
fn hidden_where(counts: bool, entry: &PackedEntry) -> Iter<'_>
    ensures { result ≡ hidden_where counts entry.now }
{
    if counts {
        entry.hidden()
    } else {
        Iter::empty()
    }
}

fn mention_all(alloc: Global, names: &mut Names, mentioned: &Iter<'_>) -> Result<(), AllocError>
    ensures { OnOk result (names.new ≡ all_added names.old mentioned.now) }
{
    for name in mentioned.iter() {
        names.mention(alloc, name)?;
    }
    Ok(())
}

/// An edge for each prerequisite of these names that is one of them, too. One that is explicit and hidden has one edge, as explicit.
pub fn edges_drawn<'a>(
    alloc: Global,
    state: &'a State,
    names: &'a Names,
    hidden: bool,
) -> Result<Vec<Edge<'a>>, AllocError>
    ensures order { IfOk result (λ edges. list_map named_edge edges.items ≡ edges_among state.now hidden names.now) }
    ensures each { IfOk result (λ edges. IsDistinct bytes_eq names.now → AreEdges state.now hidden names.now (list_map named_edge edges.items)) }
{
    let mut edges = Vec::new(alloc);
    for number in 0..names.len() {
        let user = names.name(number);
        append_known(alloc, &mut edges, names, user, state.get(user), hidden)?;
    }
    Ok(edges)
}

/// The edges from one name.
fn append_known<'a>(
    alloc: Global,
    edges: &mut Vec<Edge<'a>>,
    drawn: &'a Names,
    user: &'a [u8],
    known: Option<&'a PackedEntry>,
    hidden: bool,
) -> Result<(), AllocError>
    ensures { OnOk result (list_map named_edge edges.new.items ≡ list_map named_edge edges.old.items
        ++ edges_by drawn.now hidden user.now (option_copied known.entry)) }
{
    let Some(entry) = known else {
        return Ok(());
    };
    let mut mentioned = Names::new(alloc);
    let explicit = Line {
        drawn,
        user,
        hidden: false,
    };
    append_edges(alloc, edges, explicit, &mut mentioned, entry.names())?;
    let others = Line {
        drawn,
        user,
        hidden: true,
    };
    append_edges(
        alloc,
        edges,
        others,
        &mut mentioned,
        hidden_where(hidden, entry),
    )
}

/// What the edges of one kind from one name have in common.
#[derive(Clone, Copy)]
struct Line<'a> {
    drawn: &'a Names,
    user: &'a [u8],
    hidden: bool,
}

/// An edge to each of these that is drawn and wasn't mentioned.
fn append_edges<'a>(
    alloc: Global,
    edges: &mut Vec<Edge<'a>>,
    line: Line<'a>,
    mentioned: &mut Names,
    prerequisites: Iter<'a>,
) -> Result<(), AllocError>
    ensures mentioned { OnOk result (mentioned.new ≡ all_added mentioned.old prerequisites.entry) }
    ensures edges { OnOk result (list_map named_edge edges.new.items ≡ list_map named_edge edges.old.items
        ++ edges_to line.entry.drawn.now line.entry.user.now line.entry.hidden (new_names mentioned.old prerequisites.entry)) }
{
    for prerequisite in prerequisites {
        if mentioned.mention(alloc, prerequisite)? {
            append_edge(edges, line, prerequisite)?;
        }
    }
    Ok(())
}

fn append_edge<'a>(
    edges: &mut Vec<Edge<'a>>,
    line: Line<'a>,
    prerequisite: &'a [u8],
) -> Result<(), AllocError>
    ensures { OnOk result (list_map named_edge edges.new.items ≡ list_map named_edge edges.old.items
        ++ edges_to line.entry.drawn.now line.entry.user.now line.entry.hidden (prerequisite.now ∷ [])) }
{
    if line.drawn.number_of(prerequisite).is_some() {
        edges.push(Edge {
            user: line.user,
            prerequisite,
            hidden: line.hidden,
        })?;
    }
    Ok(())
}
