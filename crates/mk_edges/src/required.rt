//! What each node isn't made without: its hard prerequisites, and its order-only ones.
ghost use Rattle.std.specs.Prelude.{◌≡◌, ◌<◌, ◌||◌, ℕ, List, length, map, filter, nat_lt, true, unwrap_or, IfOk, OnOk, IsTrue};
ghost use Rattle.std.specs.List.{list_any, list_all};
ghost use Rattle.mk_graph.specs.Edges.{row, is_closed};
ghost use Rattle.mk_names.specs.Names.{has_name, name_at};
ghost use Rattle.mk_graph.specs.Numbering.{AreDescribed};
ghost use Rattle.mk_nodes.specs.Graph.{AreHard, AreRequired};
ghost use Rattle.mk_edges.specs.Known.{IsKnown};
ghost use Rattle.mk_nodes.specs.Prerequisites.{Inputs, prerequisites_of};
ghost use Rattle.mk_edges.specs.Required.{has_others, names_in_row, IsRequiredRow};
ghost use Rattle.mk_edges.specs.Rows.{EachRow};

use byte_strings::ByteStrings;
use mk_graph::Edges;
use mk_names::Names;
use mk_nodes::Node;
use std::alloc::{AllocError, Global};

fn has_others(known: &Node) -> bool
    ensures { result ≡ has_others known.now }
{
    known.rare.required().is_some()
}

fn any_has_others(known: &[Node]) -> bool
    ensures { result ≡ list_any has_others known.now }
{
    known.iter().any(|found| has_others(found))
}

/// The numbers of these names. A name without a number is passed over.
fn numbers_of(alloc: Global, names: &Names, listed: &ByteStrings) -> Result<Vec<u32>, AllocError>
    ensures numbers { IfOk result (λ numbers. map (name_at names.now) numbers.items ≡ filter (has_name names.now) listed.now) }
    ensures nodes { IfOk result (λ numbers. list_all (λ n. nat_lt n (length names.now)) numbers.items ≡ true) }
{
    let mut numbers = Vec::new(alloc);
    for name in listed.iter() {
        if let Some(number) = names.number_of(name) {
            numbers.push(number)?;
        }
    }
    Ok(numbers)
}

/// The numbers of the names that are listed of a node, or its hard prerequisites where none are listed.
fn required_row(
    alloc: Global,
    hard: &[u32],
    names: &Names,
    found: &Node,
) -> Result<Vec<u32>, AllocError>
    requires { list_all (λ n. nat_lt n (length names.now)) hard.now ≡ true }
    ensures names { IfOk result (λ numbers. map (name_at names.now) numbers.items ≡ names_in_row names.now found.now hard.now) }
    ensures nodes { IfOk result (λ numbers. list_all (λ n. nat_lt n (length names.now)) numbers.items ≡ true) }
{
    match found.rare.required() {
        Some(listed) => numbers_of(alloc, names, listed),
        None => Vec::from_slice(alloc, hard),
    }
}

/// What each node isn't made without, by number.
fn required_rows(
    alloc: Global,
    hard: &Edges,
    names: &Names,
    known: &[Node],
) -> Result<Edges, AllocError>
    requires nodes { length hard.now ≡ length names.now }
    requires known { length known.now ≡ length names.now }
    requires closed { IsTrue (is_closed hard.now) }
    ensures count { IfOk result (λ required. length required ≡ length names.now) }
    ensures rows { IfOk result (EachRow (IsRequiredRow names.now hard.now known.now)) }
    ensures closed { IfOk result (λ required. IsTrue (is_closed required)) }
{
    let mut required = Edges::with_capacity(alloc, known.len())?;
    for (node, found) in known.iter().enumerate() {
        let numbers = required_row(alloc, hard.row(node), names, found)?;
        required.push_row(&numbers)?;
    }
    Ok(required)
}

/// What each node isn't made without, where some name has order-only prerequisites: these and the hard ones.
pub fn required_edges(
    alloc: Global,
    hard: &Edges,
    names: &Names,
    known: &[Node],
) -> Result<Option<Edges>, AllocError>
    requires nodes { length hard.now ≡ length names.now }
    requires known { length known.now ≡ length names.now }
    requires closed { IsTrue (is_closed hard.now) }
    ensures count { IfOk result (λ required. length (unwrap_or required hard.now) ≡ length names.now) }
    ensures closed { IfOk result (λ required. IsTrue (is_closed (unwrap_or required hard.now))) }
    ensures required { IfOk result (λ required. (inputs : Inputs) → AreDescribed (IsKnown inputs) names.now known.now → AreHard inputs names.now hard.now
        → ((n : ℕ) → n < length names.now → list_all (has_name names.now) (prerequisites_of inputs (name_at names.now n)) ≡ true)
        → AreRequired inputs names.now (unwrap_or required hard.now)) }
{
    if !any_has_others(known) {
        return Ok(None);
    }
    Ok(Some(required_rows(alloc, hard, names, known)?))
}
